//! Clues, which ask for all that an arrangement shows at their cells.

ghost use Rattle.std.specs.Prelude.{◌≡◌, ◌≢◌, ◌≤◌, IfOk, IsErrOf, length, vec_len};
ghost use Rattle.match_limits.specs.declared.TheConstants.{MOST_CELLS};
ghost use Rattle.match_puzzle.specs.Puzzle.{Task};
ghost use Rattle.xcc_form.specs.Options.{HasTooManyEntries};
ghost use Rattle.puzzle_maker.specs.Plans.{IsAsPlanned};

use crate::cuts::Cut;
use crate::faults::{Flaw, Refusal};
use crate::likenesses::cell_to_ask;
use crate::outsides::AskedSides;
use crate::plans::Plan;
use crate::puzzles::puzzle_of;
use match_board::Clue;
use match_limits::SIDES;
use match_puzzle::{Placement, Puzzle};
use std::alloc::{AllocError, Global};

/// The puzzle of what was cut up, with as many clues as are asked for. One cell after another gets a clue: one that
/// leaves few arrangements but the planted one.
pub(crate) fn puzzle_with_clues(alloc: Global, plan: &Plan, cut: &Cut) -> Result<Puzzle, Refusal>
    ensures planned { IfOk result (IsAsPlanned plan.now) }
    ensures too_many { IsErrOf result Refusal.TooMany
        → (1 ≤ plan.now.draft.clues) × (p : Task) × IsAsPlanned plan.now p × HasTooManyEntries p }
{
    let mut puzzle = puzzle_of(alloc, plan, cut, &[])?;
    let mut has_clue = vec![in alloc; false; usize::from(plan.board.cells())]?;
    for _ in 0..plan.draft.clues {
        puzzle = puzzle_with_one_more(alloc, plan, cut, &puzzle, &mut has_clue)?;
    }
    Ok(puzzle)
}

// The puzzle with a clue more, at a cell that is marked then.
fn puzzle_with_one_more(
    alloc: Global,
    plan: &Plan,
    cut: &Cut,
    puzzle: &Puzzle,
    has_clue: &mut [bool],
) -> Result<Puzzle, Refusal>
    ensures planned { IfOk result (IsAsPlanned plan.now) }
    ensures too_many { IsErrOf result Refusal.TooMany → HasTooManyEntries puzzle.now }
{
    let cell = cell_to_ask(alloc, puzzle, &cut.planted, has_clue)?;
    if let Some(place) = has_clue.get_mut(usize::from(cell)) {
        *place = true;
    }
    let clues = clues_at(alloc, puzzle, &cut.planted, has_clue)?;
    puzzle_of(alloc, plan, cut, &clues)
}

// Clues that ask for all that the arrangement shows at these cells.
fn clues_at(
    alloc: Global,
    puzzle: &Puzzle,
    planted: &[Placement],
    has_clue: &[bool],
) -> Result<Vec<Clue>, Refusal>
    ensures few { IfOk result (λ v. vec_len v ≤ MOST_CELLS) }
    ensures searched { result ≢ Err Refusal.TooMany }
{
    let mut clues = Vec::new(alloc);
    for cell in 0..puzzle.board().cells() {
        if has_clue.get(usize::from(cell)) == Some(&true) {
            let Some(clue) = clue_at(puzzle, planted, cell) else {
                return Err(Refusal::Flaw(Flaw::NotAsDrawn));
            };
            clues.push(clue)?;
        }
    }
    Ok(clues)
}

// A clue that asks for all that the arrangement shows at the cell; `None` where no tile of the puzzle is there.
fn clue_at(puzzle: &Puzzle, planted: &[Placement], cell: u16) -> Option<Clue> {
    let placement = planted.get(usize::from(cell))?;
    let asks = shown(puzzle, *placement)?;
    Clue::new(cell, asks, puzzle.board().sides()).ok()
}

/// What the placement shows, by side, and nothing on a fourth side that isn't there; `None` where it is none of the
/// puzzle's tiles.
pub(crate) fn shown(puzzle: &Puzzle, placement: Placement) -> Option<AskedSides> {
    if !puzzle.legal(placement) {
        return None;
    }
    let mut colours = [None; SIDES];
    for side in 0..puzzle.board().sides() {
        colours[usize::from(side)] = Some(puzzle.colour(placement, side));
    }
    Some(colours)
}
