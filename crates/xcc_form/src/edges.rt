//! The shared edges of a board (two sides that meet), which are the secondary items of its puzzles.

ghost use Rattle.std.specs.Prelude.{◌≡◌, ◌<◌, ◌≤◌, ◌+◌, ◌*◌, ℕ, IfOk, MatchOption, length};
ghost use Rattle.match_board.specs.Board.{cell_count, side_count};
ghost use Rattle.match_limits.specs.Listing.{IsListing, ByKey, HoldsBefore};
ghost use Rattle.xcc_form.specs.Options.{IsSharedEdge, AreSharedEdges, IsSideOf, colour_given, least_place};

use match_limits::{MOST_CELLS, MOST_COLOURS};
use match_puzzle::Puzzle;
use std::alloc::{AllocError, Global};

/// A secondary item (a shared edge) of an option, with its colour there.
#[derive(Clone, Copy, PartialEq, Eq)]
pub struct Edge {
    /// The number of the item. Secondary items follow the primary ones.
    pub item: u32,
    /// The colour, from 0 to 35: what the placement shows at the edge's lesser (cell, side), or the mate of what it
    /// shows at the other.
    pub colour: u8,
}

/// Two sides that meet: the lesser (cell, side), and the other.
#[derive(Clone, Copy)]
pub(crate) struct SharedEdge {
    pub(crate) cell: u16,
    pub(crate) side: u8,
    pub(crate) other_cell: u16,
    pub(crate) other_side: u8,
}

impl SharedEdge {
    /// The side of the cell that lies at this edge, if one does.
    pub(crate) fn side_at(self, cell: u16) -> Option<u8>
        ensures { MatchOption result
            ((side : ℕ) → IsSideOf self cell side → ⊥)
            (IsSideOf self cell) }
    {
        if self.cell == cell {
            Some(self.side)
        } else if self.other_cell == cell {
            Some(self.other_side)
        } else {
            None
        }
    }

    /// The colour that the cell gives to this edge when it shows `shown` there.
    pub(crate) fn given(self, puzzle: &Puzzle, cell: u16, shown: u8) -> u8
        requires { shown < MOST_COLOURS }
        ensures given { result ≡ colour_given puzzle.now self cell shown }
        ensures below { result < MOST_COLOURS }
    {
        if self.cell == cell {
            shown
        } else {
            puzzle.mate(shown)
        }
    }
}

/// The shared edges of a puzzle's board, in the order of their lesser (cell, side).
pub(crate) fn shared_edges(alloc: Global, puzzle: &Puzzle) -> Result<Vec<SharedEdge>, AllocError>
    ensures edges { IfOk result (λ v. AreSharedEdges puzzle.now.board v.items) }
    ensures few { IfOk result (λ v. length v.items ≤ 4 * MOST_CELLS) }
{
    let mut edges = Vec::new(alloc);
    for cell in 0..puzzle.board().cells() {
        add_edges_of(&mut edges, puzzle, cell)?;
    }
    Ok(edges)
}

// Adds the shared edges whose lesser (cell, side) is of this cell.
fn add_edges_of(edges: &mut Vec<SharedEdge>, puzzle: &Puzzle, cell: u16) -> Result<(), AllocError>
    requires cell { cell < cell_count puzzle.now.board }
    requires before { IsListing (ByKey least_place)
        (HoldsBefore least_place (IsSharedEdge puzzle.now.board) (cell, 0)) edges.old.items }
    ensures edges { IfOk result (λ _. IsListing (ByKey least_place)
        (HoldsBefore least_place (IsSharedEdge puzzle.now.board) (cell + 1, 0)) edges.new.items) }
    ensures few { IfOk result (λ _. length edges.new.items ≤ length edges.old.items + 4) }
{
    for side in 0..puzzle.board().sides() {
        if let Some(edge) = edge_from(puzzle, cell, side) {
            edges.push(edge)?;
        }
    }
    Ok(())
}

// The shared edge whose lesser (cell, side) is this one, if there is one.
fn edge_from(puzzle: &Puzzle, cell: u16, side: u8) -> Option<SharedEdge>
    requires cell { cell < cell_count puzzle.now.board }
    requires side { side < side_count puzzle.now.board }
    ensures { MatchOption result
        ((e : SharedEdge) → IsSharedEdge puzzle.now.board e → e.cell ≡ cell → e.side ≡ side → ⊥)
        (λ e. IsSharedEdge puzzle.now.board e × (e.cell ≡ cell) × (e.side ≡ side)
        × ((f : SharedEdge) → IsSharedEdge puzzle.now.board f → f.cell ≡ cell → f.side ≡ side → f ≡ e)) }
{
    let (other_cell, other_side) = puzzle.meets(cell, side)?;
    if cell < other_cell {
        Some(SharedEdge {
            cell,
            side,
            other_cell,
            other_side,
        })
    } else {
        None
    }
}
