//! Candidates, and which of those that will do is taken.

ghost use Rattle.std.specs.Prelude.{◌≡◌, ◌≢◌, ◌⊎◌, ◌≤◌, true, IfOk, IsErrOf, IsTrue};
ghost use Rattle.match_puzzle.specs.Puzzle.{Task};
ghost use Rattle.xcc_form.specs.Options.{HasTooManyEntries};
ghost use Rattle.puzzle_drafts.specs.declared.misfits.Misfit.{Misfit};
ghost use Rattle.puzzle_maker.specs.Made.{AreSearched};
ghost use Rattle.puzzle_maker.specs.Plans.{IsAsPlanned, IsMadeAsPlanned};

use crate::clues::puzzle_with_clues;
use crate::draws::Drawing;
use crate::faults::{Flaw, MakeFault, Refusal};
use crate::plans::Plan;
use crate::trials::{judge, work};
use crate::watches::MakerWatch;
use match_puzzle::Puzzle;
use puzzle_drafts::Choice;
use std::alloc::Global;

/// Makes puzzles by the plan, and takes the one that the draft chooses.
pub(crate) fn chosen_puzzle<W: MakerWatch>(
    alloc: Global,
    plan: &Plan,
    watch: &W,
) -> Result<Puzzle, MakeFault>
    ensures made { IfOk result (IsMadeAsPlanned plan.now) }
    ensures fits { (misfit : Misfit) → result ≢ Err (MakeFault.Misfit misfit) }
    ensures too_many { IsErrOf result MakeFault.TooMany
        → (p : Task) × IsAsPlanned plan.now p × HasTooManyEntries p }
    ensures searched { IsErrOf result MakeFault.TooMany → AreSearched plan.now.draft }
{
    let mut drawing = Drawing::new(plan);
    match plan.draft.choice {
        Choice::First => next_puzzle(alloc, plan, &mut drawing, watch),
        Choice::Hardest(count) => best_puzzle(
            alloc,
            plan,
            &mut drawing,
            watch,
            count,
            Wanted::Most,
        ),
        Choice::Easiest(count) => best_puzzle(
            alloc,
            plan,
            &mut drawing,
            watch,
            count,
            Wanted::Least,
        ),
    }
}

// How much work is wanted.
#[derive(Clone, Copy)]
enum Wanted {
    Most,
    Least,
}

impl Wanted {
    // Whether this work is better than the best so far.
    fn prefers(self, work: u64, best: u64) -> bool {
        match self {
            Wanted::Most => work > best,
            Wanted::Least => work < best,
        }
    }
}

// A puzzle, and a guess of its work.
#[derive(Drop)]
struct Weighed {
    puzzle: Puzzle,
    work: u64,
}

// The best of up to so many puzzles, or of as many as there are before too many candidates in a row fail.
fn best_puzzle<W: MakerWatch>(
    alloc: Global,
    plan: &Plan,
    drawing: &mut Drawing<'_>,
    watch: &W,
    count: u16,
    wanted: Wanted,
) -> Result<Puzzle, MakeFault>
    ensures made { IfOk result (IsMadeAsPlanned plan.now) }
    ensures fits { (misfit : Misfit) → result ≢ Err (MakeFault.Misfit misfit) }
    ensures too_many { IsErrOf result MakeFault.TooMany
        → (p : Task) × IsAsPlanned plan.now p × HasTooManyEntries p }
{
    let mut best = next_weighed(alloc, plan, drawing, watch)?;
    for _ in 1..count {
        match next_weighed(alloc, plan, drawing, watch) {
            Ok(next) => best = better(best, next, wanted),
            Err(MakeFault::GaveUp) => return Ok(best.puzzle),
            Err(fault) => return Err(fault),
        }
    }
    Ok(best.puzzle)
}

// The next puzzle, if that is better than the best so far, which stays otherwise.
fn better(best: Weighed, next: Weighed, wanted: Wanted) -> Weighed
    ensures { (result ≡ best) ⊎ (result ≡ next) }
{
    if wanted.prefers(next.work, best.work) {
        next
    } else {
        best
    }
}

// The next puzzle that will do, and its work.
fn next_weighed<W: MakerWatch>(
    alloc: Global,
    plan: &Plan,
    drawing: &mut Drawing<'_>,
    watch: &W,
) -> Result<Weighed, MakeFault>
    ensures made { IfOk result (λ made. IsMadeAsPlanned plan.now made.puzzle) }
    ensures fits { (misfit : Misfit) → result ≢ Err (MakeFault.Misfit misfit) }
    ensures too_many { IsErrOf result MakeFault.TooMany
        → (p : Task) × IsAsPlanned plan.now p × HasTooManyEntries p }
{
    let puzzle = next_puzzle(alloc, plan, drawing, watch)?;
    match work(alloc, &puzzle) {
        Ok(work) => Ok(Weighed { puzzle, work }),
        Err(fault) => Err(fault),
    }
}

// The next puzzle that will do.
fn next_puzzle<W: MakerWatch>(
    alloc: Global,
    plan: &Plan,
    drawing: &mut Drawing<'_>,
    watch: &W,
) -> Result<Puzzle, MakeFault>
    ensures made { IfOk result (IsMadeAsPlanned plan.now) }
    ensures fits { (misfit : Misfit) → result ≢ Err (MakeFault.Misfit misfit) }
    ensures too_many { IsErrOf result MakeFault.TooMany
        → (p : Task) × IsAsPlanned plan.now p × HasTooManyEntries p }
    ensures searched { IsErrOf result MakeFault.TooMany
        → (plan.now.draft.is_unique ≡ true) ⊎ (1 ≤ plan.now.draft.clues) }
{
    for number in 0..plan.draft.tries {
        match candidate(alloc, plan, drawing, watch) {
            Ok(puzzle) => return Ok(puzzle),
            Err(Refusal::Flaw(flaw)) => watch.failed(number + 1, flaw),
            Err(Refusal::TooMany) => return Err(MakeFault::TooMany),
            Err(Refusal::Memory) => return Err(MakeFault::Memory),
        }
    }
    Err(MakeFault::GaveUp)
}

// Draws one more puzzle, and checks that it is all that is planned.
fn candidate<W: MakerWatch>(
    alloc: Global,
    plan: &Plan,
    drawing: &mut Drawing<'_>,
    watch: &W,
) -> Result<Puzzle, Refusal>
    ensures made { IfOk result (IsMadeAsPlanned plan.now) }
    ensures too_many { IsErrOf result Refusal.TooMany → (p : Task) × IsAsPlanned plan.now p × HasTooManyEntries p }
    ensures searched { IsErrOf result Refusal.TooMany
        → (plan.now.draft.is_unique ≡ true) ⊎ (1 ≤ plan.now.draft.clues) }
{
    if !drawing.draw() {
        return Err(Refusal::Flaw(Flaw::EqualTiles));
    }
    let Some(cut) = drawing.cut(alloc)? else {
        return Err(Refusal::Flaw(Flaw::NotAsDrawn));
    };
    let puzzle = puzzle_with_clues(alloc, plan, &cut)?;
    judge(alloc, plan, &puzzle, &cut.planted, watch)?;
    Ok(puzzle)
}
