//! Results and tallies are entered by number.

ghost use Rattle.std.specs.Prelude.{◌≡◌, ◌<◌, ◌+◌, ◌^◌, ◌++◌, ℕ, IfOk, OnOk, IfSome, All, vec_len};
ghost use Rattle.crew_machine.specs.Counts.{total, times, once_below};
ghost use Rattle.steal_crew.specs.Results.{Entered, Belongs, AreDone, filled, left_out, done_numbers};

use crate::works::Work;
use std::alloc::{AllocError, Global};

// Enters the results of one worker, and answers the numbers that were entered. A second result of a number goes.
pub fn enter_first<W: Work>(
    alloc: Global,
    slots: &mut Vec<Option<W::R>>,
    mut done: Vec<(u32, W::R)>,
) -> Result<Vec<u32>, AllocError>
    ensures slots { (work : W) → AreDone (W.gives work) done.items → Entered (W.gives work) slots.old.items
        → OnOk result (Entered (W.gives work) slots.new.items) }
    ensures len { OnOk result (vec_len slots.new ≡ vec_len slots.old) }
    ensures filled { OnOk result ((x : ℕ) → x < vec_len slots.old
        → 0 < filled x slots.old.items + times x (done_numbers done.items) → 0 < filled x slots.new.items) }
    ensures tally { IfOk result (λ tally. (x : ℕ)
        → times x tally.items + filled x slots.old.items ≡ filled x slots.new.items) }
{
    let mut tally = Vec::new(alloc);
    while let Some((number, result)) = done.pop() {
        let place = number as usize;
        if place < slots.len() {
            if let None = slots[place] {
                tally.push(number)?;
                slots[place] = Some(result);
            }
        }
    }
    Ok(tally)
}

// Enters what each worker brought, and answers the numbers of each that were entered.
pub fn enter_all<W: Work>(
    alloc: Global,
    slots: &mut Vec<Option<W::R>>,
    brought: Vec<Vec<(u32, W::R)>>,
) -> Result<Vec<Vec<u32>>, AllocError>
    ensures slots { (work : W) → All (λ done. AreDone (W.gives work) done.items) brought.items
        → Entered (W.gives work) slots.old.items → OnOk result (Entered (W.gives work) slots.new.items) }
    ensures slots_len { OnOk result (vec_len slots.new ≡ vec_len slots.old) }
    ensures tallies { IfOk result (λ v. (x : ℕ)
        → total (λ t. times x t.items) v.items + filled x slots.old.items ≡ filled x slots.new.items) }
    ensures len { IfOk result (λ v. vec_len v ≡ vec_len brought) }
{
    let mut tallies = Vec::new(alloc);
    for done in brought {
        let tally = enter_first::<W>(alloc, slots, done)?;
        tallies.push(tally)?;
    }
    Ok(tallies)
}

// The result that was entered, or else that of the call, whose number stands in the tally then.
fn result_of<W: Work>(
    work: &W,
    number: u32,
    slot: Option<W::R>,
    tally: &mut Vec<u32>,
) -> Result<W::R, AllocError>
    requires slot { IfSome slot (W.gives work.now number) }
    requires accepts { W.accepts work.now number }
    ensures result { IfOk result (W.gives work.now number) }
    ensures tally { OnOk result (tally.new.items ≡ tally.old.items ++ left_out number slot) }
{
    match slot {
        Some(result) => Ok(result),
        None => {
            tally.push(number)?;
            work.one(number)
        }
    }
}

// The results by number. A number without one is done here, and stands in the tally then.
pub fn settle_rest<W: Work>(
    work: &W,
    alloc: Global,
    mut slots: Vec<Option<W::R>>,
    tally: &mut Vec<u32>,
) -> Result<Vec<W::R>, AllocError>
    requires slots { Entered (W.gives work.now) slots.items }
    requires accepts { (n : ℕ) → n < vec_len slots → W.accepts work.now n }
    requires count { vec_len slots < 2 ^ 32 }
    ensures results { IfOk result (λ v. Belongs (W.gives work.now) v.items) }
    ensures len { IfOk result (λ v. vec_len v ≡ vec_len slots) }
    ensures tally { OnOk result ((x : ℕ)
        → times x tally.new.items + filled x slots.items ≡ times x tally.old.items + once_below x (vec_len slots)) }
{
    let mut results = Vec::with_capacity(alloc, slots.len())?;
    for place in 0..slots.len() {
        let slot = slots[place].take();
        results.push_reserved(result_of(work, place as u32, slot, tally)?);
    }
    Ok(results)
}
