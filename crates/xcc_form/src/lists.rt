//! The options of a puzzle, as flat vectors.

ghost use Rattle.std.specs.Prelude.{◌≡◌, ◌<◌, ◌≤◌, ◌+◌, ◌*◌, ◌∷◌, ◌++◌, [], Contains, IfOk, length};
ghost use Rattle.match_limits.specs.Listing.{IsListing};
ghost use Rattle.match_puzzle.specs.Puzzle.{IsPuzzle, IsLegal};
ghost use Rattle.match_puzzle.specs.declared.placements.Pair.{Pair as StandingPair};
ghost use Rattle.xcc_form.specs.Options.{AreSharedEdges, IsOptionPair, PairComesBefore};
ghost use Rattle.xcc_form.specs.Layout.{AreLaidOut, AddsEdges};

use crate::edges::{Edge, SharedEdge};
use match_limits::{MOST_CELLS, MOST_CHILDREN};
use match_puzzle::{FittingPairs, Item, Pair, Partial, Puzzle};
use std::alloc::{AllocError, Global};

/// The options, by number: their cells and placements, and where the edges of each start among all edges, which lie one
/// option after another. One more start is the end of the last option.
#[derive(Drop)]
pub(crate) struct OptionLists {
    pub(crate) pairs: Vec<Pair>,
    pub(crate) starts: Vec<u32>,
    pub(crate) edges: Vec<Edge>,
}

impl OptionLists {
    /// The options of the puzzle; `shared` has its shared edges.
    pub(crate) fn new(
        alloc: Global,
        puzzle: &Puzzle,
        shared: &[SharedEdge],
    ) -> Result<OptionLists, AllocError>
        requires shared { AreSharedEdges puzzle.now.board shared.now }
        requires few { length shared.now ≤ 4 * MOST_CELLS }
        ensures pairs { IfOk result (λ o. IsListing PairComesBefore (IsOptionPair puzzle.now) o.pairs.items) }
        ensures laid_out { IfOk result
            (λ o. AreLaidOut puzzle.now shared.now o.pairs.items o.starts.items o.edges.items) }
        ensures puzzle { IfOk result (λ _. IsPuzzle puzzle.now) }
    {
        let nothing = Partial::new(alloc, puzzle)?;
        let mut lists = OptionLists {
            pairs: Vec::new(alloc),
            starts: vec![in alloc; 0]?,
            edges: Vec::new(alloc),
        };
        for cell in 0..puzzle.board().cells() {
            let fitting = nothing.fitting(Item::Cell(cell));
            lists.pairs.reserve(usize::from(fitting.len()))?;
            lists.add_all(puzzle, shared, fitting)?;
        }
        Ok(lists)
    }

    // Adds an option for each of these pairs.
    fn add_all(
        &mut self,
        puzzle: &Puzzle,
        shared: &[SharedEdge],
        mut fitting: FittingPairs,
    ) -> Result<(), AllocError>
        requires legal { (x : StandingPair) → Contains fitting x → IsLegal puzzle.now x.placement }
        requires shared { AreSharedEdges puzzle.now.board shared.now }
        requires few { length shared.now ≤ 4 * MOST_CELLS }
        requires laid_out { AreLaidOut puzzle.now shared.now
            self.old.pairs.items self.old.starts.items self.old.edges.items }
        requires short { length self.old.pairs.items + length fitting ≤ MOST_CELLS * MOST_CHILDREN }
        ensures laid_out { IfOk result
            (λ _. AreLaidOut puzzle.now shared.now self.new.pairs.items self.new.starts.items self.new.edges.items) }
        ensures pairs { IfOk result (λ _. self.new.pairs.items ≡ self.old.pairs.items ++ fitting) }
    {
        while let Some(pair) = fitting.take_first() {
            self.add(puzzle, shared, pair)?;
        }
        Ok(())
    }

    // Adds the option of a pair.
    fn add(&mut self, puzzle: &Puzzle, shared: &[SharedEdge], pair: Pair) -> Result<(), AllocError>
        requires legal { IsLegal puzzle.now pair.placement }
        requires shared { AreSharedEdges puzzle.now.board shared.now }
        requires few { length shared.now ≤ 4 * MOST_CELLS }
        requires laid_out { AreLaidOut puzzle.now shared.now
            self.old.pairs.items self.old.starts.items self.old.edges.items }
        requires short { length self.old.pairs.items < MOST_CELLS * MOST_CHILDREN }
        ensures laid_out { IfOk result
            (λ _. AreLaidOut puzzle.now shared.now self.new.pairs.items self.new.starts.items self.new.edges.items) }
        ensures pairs { IfOk result (λ _. self.new.pairs.items ≡ self.old.pairs.items ++ pair ∷ []) }
    {
        add_edges(&mut self.edges, puzzle, shared, pair)?;
        self.pairs.push(pair)?;
        self.starts.push(self.edges.len() as u32)?;
        Ok(())
    }
}

// Adds the shared edges of the pair's cell with the colours that its placement gives to them.
fn add_edges(
    edges: &mut Vec<Edge>,
    puzzle: &Puzzle,
    shared: &[SharedEdge],
    pair: Pair,
) -> Result<(), AllocError>
    requires legal { IsLegal puzzle.now pair.placement }
    requires shared { AreSharedEdges puzzle.now.board shared.now }
    requires few { length shared.now ≤ 4 * MOST_CELLS }
    ensures { IfOk result (λ _. AddsEdges puzzle.now shared.now pair edges.old.items edges.new.items) }
{
    let mut item = u32::from(puzzle.board().cells()) + u32::from(puzzle.tile_count());
    for edge in shared {
        if let Some(side) = edge.side_at(pair.cell) {
            let shown = puzzle.colour(pair.placement, side);
            let colour = edge.given(puzzle, pair.cell, shown);
            edges.push(Edge { item, colour })?;
        }
        item += 1;
    }
    Ok(())
}
