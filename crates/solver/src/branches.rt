//! Branches that are still to be searched.

ghost use Rattle.std.specs.Prelude.{◌≡◌, ◌≤◌, List, false, true, IfOk};
ghost use Rattle.match_limits.specs.declared.TheConstants.{MOST_FUEL};
ghost use Rattle.match_puzzle.specs.declared.placements.Pair.{Pair as PlacedPair};
ghost use Rattle.match_puzzle.specs.Fitting.{Fits};
ghost use Rattle.fit_counts.specs.Placing.{FitInTurn};
ghost use Rattle.solver.specs.Solving.{IsFoundIn};

use crate::strategy::items::ItemRule;
use match_puzzle::{Pair, Partial, Puzzle};
use std::alloc::{AllocError, Global};
use xcc_dance::{Cites, OpenSets, PackedOutcome, SearchFault, SearchOver};
use xcc_form::Xcc;

// A branch whose arrangements are still to be found: its pairs, in the order of placing.
#[derive(Drop)]
pub struct OpenBranch {
    pub pairs: Vec<Pair>,
}

// Whether each pair fits those before it.
pub fn fit_in_turn(alloc: Global, puzzle: &Puzzle, pairs: &[Pair]) -> Result<bool, AllocError>
    ensures { IfOk result (λ fit. fit ≡ true → FitInTurn puzzle.now pairs.now) }
{
    let mut partial = Partial::new(alloc, puzzle)?;
    for pair in pairs {
        if !fits(puzzle, &partial, *pair) {
            return Ok(false);
        }
        partial.place(pair.cell, pair.placement);
    }
    Ok(true)
}

// Whether the pair has a cell and a tile of the puzzle, and fits what is placed.
fn fits(puzzle: &Puzzle, partial: &Partial<'_>, pair: Pair) -> bool
    requires { partial.now.puzzle ≡ puzzle.now }
    ensures { result ≡ true → Fits puzzle.now partial.now.placed pair.cell pair.placement }
{
    pair.cell < puzzle.board().cells()
        && (usize::from(pair.placement.tile) < puzzle.tiles().len()
            && puzzle.fits(partial, pair.cell, pair.placement))
}

// Searches below these pairs. It gives up where they don't fit in turn, or the fuel (the most branch nodes) is spent.
pub fn search_below<C: Cites>(
    alloc: Global,
    xcc: &Xcc<'_>,
    pairs: &[Pair],
    fuel: u32,
    item_rule: &ItemRule,
    cites: &mut C,
) -> Result<PackedOutcome, AllocError>
    requires fuel { fuel ≤ MOST_FUEL }
    requires takes { (asked : List PlacedPair) → C.takes cites.old asked }
    ensures found { IfOk result (IsFoundIn xcc.now.puzzle) }
    ensures moved { C.moves cites.old cites.new }
{
    if !fit_in_turn(alloc, xcc.puzzle(), pairs)? {
        return Ok(PackedOutcome::GaveUp);
    }
    let mut search: SearchOver<OpenSets<'_>> = SearchOver::new(alloc, xcc)?;
    run_first(&mut search, pairs, fuel, item_rule, cites)
}

// The first run of a search, below these pairs.
fn run_first<C: Cites>(
    search: &mut SearchOver<OpenSets<'_>>,
    pairs: &[Pair],
    fuel: u32,
    item_rule: &ItemRule,
    cites: &mut C,
) -> Result<PackedOutcome, AllocError>
    requires first { search.old.failed ≡ false }
    requires fit { FitInTurn search.old.engine.compiled.puzzle pairs.now }
    requires fuel { fuel ≤ MOST_FUEL }
    requires takes { (asked : List PlacedPair) → C.takes cites.old asked }
    ensures found { IfOk result (IsFoundIn search.old.engine.compiled.puzzle) }
    ensures moved { C.moves cites.old cites.new }
{
    match search.run_by(pairs, fuel, item_rule, cites) {
        Ok(outcome) => Ok(outcome),
        // it did not run before
        Err(SearchFault::Failed) => unreachable!(),
        Err(SearchFault::Memory) => Err(AllocError),
    }
}

// These pairs in the order of their cells, as a lemma's prefix has them.
pub fn rising_by_cell(alloc: Global, pairs: &[Pair]) -> Result<Vec<Pair>, AllocError> {
    let mut rising = pairs.to_vec(alloc)?;
    rising.sort_unstable_by_key(|pair| pair.cell);
    Ok(rising)
}
