//! Advice where a puzzle can't be solved as it was asked.

use crate::faults::RunFault;
use crate::hints::hint_on;
use match_limits::{MOST_BYTES, MOST_DEPTH, MOST_FUEL};
use match_puzzle::Puzzle;
use match_symmetry::suggest_of;
use match_text::read_puzzle;
use show_text::estimate_of;
use solver::{SearchPlan, SolveFault};
use std::alloc::Global;

const GREATER_DEPTH: &str = "a greater depth may help, up to --depth 3";

const NO_LIST: &str = "a list has at most 1000000: edgematch count PUZZLE counts without one";

/// Returns what may help where a solve of this puzzle's text had this fault: what has to be changed in the text, or how
/// many arrangements may be expected and what can be done then. `None` where there is nothing to say, or memory is
/// refused.
pub(crate) fn solve_hint(
    alloc: Global,
    puzzle: &[u8],
    plan: &SearchPlan,
    fault: &RunFault,
) -> Option<String> {
    match fault {
        RunFault::Solve(SolveFault::GaveUp) | RunFault::Solve(SolveFault::Full) => {
            expectation(alloc, puzzle, plan, fault)
        }
        _ => hint_on(alloc, puzzle, b"", fault),
    }
}

/// Returns what to say before a search that may find more arrangements than a list can have: how many are expected, and
/// what may help. `None` where no more are expected, where no greater depth can be asked for and images are left out
/// already, or where memory is refused.
pub(crate) fn word_before(alloc: Global, puzzle: &Puzzle, plan: &SearchPlan) -> Option<String> {
    let estimate = estimate_of(alloc, puzzle).ok()?;
    if !estimate.is_over_a_list() {
        return None;
    }
    let advice = match (has_symmetries(alloc, puzzle, plan), may_be_deeper(plan)) {
        (true, true) => GREATER_DEPTH,
        (true, false) => return None,
        (false, _) => NO_LIST,
    };
    let number = estimate.to_text(alloc).ok()?;
    format!(in alloc; "arrangements by an estimate: {number}; {advice}").ok()
}

// How many arrangements of the puzzle may be expected, and what may help.
fn expectation(
    alloc: Global,
    puzzle: &[u8],
    plan: &SearchPlan,
    fault: &RunFault,
) -> Option<String> {
    // the text that was read is no longer than this
    if puzzle.len() > MOST_BYTES as usize {
        return None;
    }
    let puzzle = read_puzzle(alloc, puzzle).ok()?;
    let estimate = estimate_of(alloc, &puzzle).ok()?;
    let number = estimate.to_text(alloc).ok()?;
    let advice = match fault {
        RunFault::Solve(SolveFault::Full) => advice_on_many(alloc, &puzzle, plan),
        _ if estimate.is_over_a_list() => advice_on_many(alloc, &puzzle, plan),
        _ => advice_on_fuel(plan),
    };
    format!(in alloc; "arrangements by an estimate: {number}; {advice}").ok()
}

// What may help where there are too many arrangements for a list: if the puzzle has symmetries, a greater depth, which
// leaves out images of others. Fuel can't help.
fn advice_on_many(alloc: Global, puzzle: &Puzzle, plan: &SearchPlan) -> &'static str {
    if may_be_deeper(plan) && has_symmetries(alloc, puzzle, plan) {
        GREATER_DEPTH
    } else {
        NO_LIST
    }
}

// Whether a search of the puzzle by the plan finds symmetries to cite by; false where memory is refused.
fn has_symmetries(alloc: Global, puzzle: &Puzzle, plan: &SearchPlan) -> bool {
    match suggest_of(alloc, puzzle, plan.symmetries) {
        Ok(lines) => !lines.is_empty(),
        Err(_) => false,
    }
}

// Whether a greater depth than this may be asked for. A solver that chooses takes the greatest where that may help.
fn may_be_deeper(plan: &SearchPlan) -> bool {
    match plan.depth {
        Some(depth) => depth.get() < u32::from(MOST_DEPTH),
        None => false,
    }
}

// What may help where the fuel ran out, and no more arrangements are expected than a list can have.
fn advice_on_fuel(plan: &SearchPlan) -> &'static str {
    if plan.fuel.get() < MOST_FUEL {
        "more fuel may help, up to --fuel 1000000"
    } else if may_be_deeper(plan) {
        GREATER_DEPTH
    } else {
        "edgematch count PUZZLE counts without a list and without fuel"
    }
}
