//! What is wrong with a list of arrangements.

ghost use Rattle.std.specs.Prelude.{◌<◌, ◌^◌, MatchBool, length};
ghost use Rattle.match_puzzle.specs.Arrangement.{IsArrangement};
ghost use Rattle.cert_check.specs.Walk.{TellsOfArrangements};

use match_puzzle::{Arrangement, ArrangementFault, Puzzle};
use rayon::prelude::*;
use std::thread::Threads;

/// Returns the first listed entry that is no arrangement of the puzzle, by its number from 0, with its first fault;
/// `None` where all are arrangements.
pub fn list_fault(puzzle: &Puzzle, listed: &[Arrangement]) -> Option<(u32, ArrangementFault)>
    requires { length listed.now < 2 ^ 32 }
    ensures { TellsOfArrangements puzzle.now listed.now result }
{
    puzzle.first_wrong(listed)
}

// Returns what `list_fault` returns, found by as many threads as the machine has processors.
pub(crate) fn list_fault_with<R: Threads + Sync>(
    rt: &R,
    puzzle: &Puzzle,
    listed: &[Arrangement],
) -> Option<(u32, ArrangementFault)>
    requires { length listed.now < 2 ^ 32 }
    ensures { TellsOfArrangements puzzle.now listed.now result }
{
    let found = listed.par_iter().position_first(
        rt,
        |arrangement: &Arrangement| -> bool
            ensures { MatchBool result (IsArrangement puzzle.entry.now arrangement.now → ⊥)
                (IsArrangement puzzle.entry.now arrangement.now) }
        { has_fault(puzzle, arrangement) },
    );
    let Some(place) = found else {
        return None;
    };
    let Some(fault) = puzzle.arrangement_fault(listed[place].placements()) else {
        unreachable!();
    };
    Some((place as u32, fault))
}

fn has_fault(puzzle: &Puzzle, arrangement: &Arrangement) -> bool
    ensures { MatchBool result (IsArrangement puzzle.now arrangement.now → ⊥)
        (IsArrangement puzzle.now arrangement.now) }
{
    let None = puzzle.arrangement_fault(arrangement.placements()) else {
        return true;
    };
    false
}
