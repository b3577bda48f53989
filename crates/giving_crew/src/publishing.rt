//! Results and tallies by number.

ghost use Rattle.std.specs.Prelude.{◌≡◌, ◌<◌, ◌+◌, ◌++◌, ◌∷◌, [], ℕ, IfOk, All, vec_len};
ghost use Rattle.crew_machine.specs.Counts.{total, times};
ghost use Rattle.steal_crew.specs.Results.{Entered, filled, done_numbers};
ghost use Rattle.steal_crew.specs.Tickets.{Source, source_drawn};
ghost use Rattle.giving_crew.specs.LiveWorkers.{BelongsToSome, AreDoneBy, AreByNumber, AreOfEach, AreRest, IsPublished};

use crate::works::LiveWork;
use std::alloc::{AllocError, Global};
use steal_crew::{AllDrawn, Crew};

// A tally, and after it the numbers of the results.
fn with_numbers<X: Drop>(done: &Vec<(u32, X)>, mut tally: Vec<u32>) -> Result<Vec<u32>, AllocError>
    ensures { IfOk result (λ v. v.items ≡ tally.items ++ done_numbers done.now.items) }
{
    for at in 0..done.len() {
        tally.push(done[at].0)?;
    }
    Ok(tally)
}

// The numbers of all results, by worker. The caller's come first, and 0 before them.
fn tallies_of<X: Drop>(
    alloc: Global,
    own: &Vec<(u32, X)>,
    others: &Vec<Vec<(u32, X)>>,
) -> Result<Vec<Vec<u32>>, AllocError>
    ensures { IfOk result (λ v. (vec_len v ≡ vec_len others.now + 1)
        × ((x : ℕ) → total (λ t. times x t.items) v.items
        ≡ times x (0 ∷ []) + times x (done_numbers own.now.items)
        + total (λ d. times x (done_numbers d.items)) others.now.items)) }
{
    let mut tally = Vec::new(alloc);
    tally.push(0)?;
    let mut tallies = Vec::new(alloc);
    tallies.push(with_numbers(own, tally)?)?;
    for at in 0..others.len() {
        tallies.push(with_numbers(&others[at], Vec::new(alloc))?)?;
    }
    Ok(tallies)
}

// Enters results at their numbers.
fn enter<W: LiveWork>(slots: &mut Vec<Option<W::R>>, mut done: Vec<(u32, W::R)>)
    ensures slots { (work : W) (source : Source) → AreDoneBy (W.gives work source) done.items
        → Entered (BelongsToSome (W.gives work source)) slots.old.items
        → Entered (BelongsToSome (W.gives work source)) slots.new.items }
    ensures len { vec_len slots.new ≡ vec_len slots.old }
    ensures filled { (x : ℕ) → x < vec_len slots.old
        → 0 < filled x slots.old.items + times x (done_numbers done.items) → 0 < filled x slots.new.items }
{
    while let Some((number, result)) = done.pop() {
        let place = number as usize;
        if place < slots.len() {
            slots[place] = Some(result);
        }
    }
}

// A place for each number's result.
fn empty_slots<W: LiveWork>(alloc: Global, count: u32) -> Result<Vec<Option<W::R>>, AllocError>
    ensures { IfOk result (λ v. (vec_len v ≡ count)
        × ((work : W) (source : Source) → Entered (BelongsToSome (W.gives work source)) v.items)) }
{
    let mut slots = Vec::with_capacity(alloc, count as usize)?;
    for _ in 0..count {
        slots.push_reserved(None);
    }
    Ok(slots)
}

// The results by number, that of 0 first, which was kept apart.
fn take_results<W: LiveWork>(
    alloc: Global,
    first: W::R,
    mut slots: Vec<Option<W::R>>,
) -> Result<Vec<W::R>, AllocError>
    requires some { 0 < vec_len slots }
    requires filled { (x : ℕ) → 0 < x → x < vec_len slots → 0 < filled x slots.items }
    ensures { (work : W) (source : Source) → Entered (BelongsToSome (W.gives work source)) slots.items
        → IfOk result (AreByNumber (W.gives work source) first (vec_len slots)) }
{
    let mut results = Vec::with_capacity(alloc, slots.len())?;
    results.push_reserved(first);
    for place in 1..slots.len() {
        let Some(result) = slots[place].take() else {
            unreachable!()
        };
        results.push_reserved(result);
    }
    Ok(results)
}

// Enters the results of each worker.
fn enter_all<W: LiveWork>(slots: &mut Vec<Option<W::R>>, mut others: Vec<Vec<(u32, W::R)>>)
    ensures slots { (work : W) (source : Source) → All (λ d. AreDoneBy (W.gives work source) d.items) others.items
        → Entered (BelongsToSome (W.gives work source)) slots.old.items
        → Entered (BelongsToSome (W.gives work source)) slots.new.items }
    ensures len { vec_len slots.new ≡ vec_len slots.old }
    ensures filled { (x : ℕ) → x < vec_len slots.old
        → 0 < filled x slots.old.items + total (λ d. times x (done_numbers d.items)) others.items
        → 0 < filled x slots.new.items }
{
    while let Some(done) = others.pop() {
        enter::<W>(slots, done);
    }
}

// The results by number, where those that were done are those of the numbers below the count.
fn results_of<W: LiveWork>(
    alloc: Global,
    first: W::R,
    own: Vec<(u32, W::R)>,
    others: Vec<Vec<(u32, W::R)>>,
    count: u32,
) -> Result<Vec<W::R>, AllocError>
    requires { AreOfEach count own.items others.items }
    ensures { (work : W) (source : Source) → AreRest (W.gives work source) count own.items others.items
        → IfOk result (AreByNumber (W.gives work source) first count) }
{
    let mut slots = empty_slots::<W>(alloc, count)?;
    enter::<W>(&mut slots, own);
    enter_all::<W>(&mut slots, others);
    take_results::<W>(alloc, first, slots)
}

// The results by number, and the tallies.
pub(crate) fn publish<W: LiveWork>(
    alloc: Global,
    first: W::R,
    own: Vec<(u32, W::R)>,
    others: Vec<Vec<(u32, W::R)>>,
    count: u32,
    drawn: AllDrawn,
) -> Result<Crew<W::R>, AllocError>
    requires { AreOfEach count own.items others.items }
    ensures { (work : W) → AreRest (W.gives work (source_drawn drawn)) count own.items others.items
        → IfOk result (IsPublished (W.gives work (source_drawn drawn)) first count (vec_len others + 1) drawn) }
{
    let tallies = tallies_of(alloc, &own, &others)?;
    let results = results_of::<W>(alloc, first, own, others, count)?;
    Ok(Crew::with_drawn(alloc, results, tallies, drawn))
}
