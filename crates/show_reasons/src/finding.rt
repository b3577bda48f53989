//! Reasons are looked for.

ghost use Rattle.std.specs.Prelude.{◌≡◌, All, IfOk, OnOk};
ghost use Rattle.match_puzzle.specs.Prefix.{empty_prefix};
ghost use Rattle.match_puzzle.specs.Puzzle.{IsPuzzle};
ghost use Rattle.show_reasons.specs.Reasons.{AreReasons, AreReasonsBefore, NamesColours};

use crate::colours::{colour_reason, fills_inside};
use crate::reasons::Reason;
use match_limits::MOST_COLOURS;
use match_puzzle::{Item, Partial, Puzzle};
use std::alloc::{AllocError, Global};

/// All reasons that hold of the puzzle: those of colours, then those of cells, then those of tiles, each by number.
///
/// An `Err` where memory is refused. It goes through the tiles twice for each colour, and for each cell and each tile
/// costs as much as [`Partial::count`].
pub fn reasons_of(alloc: Global, puzzle: &Puzzle) -> Result<Vec<Reason>, AllocError>
    ensures reasons { IfOk result (λ reasons. AreReasons puzzle.now reasons.items) }
    ensures colours { IfOk result (λ reasons. All NamesColours reasons.items) }
{
    let mut reasons = Vec::new(alloc);
    let partial = Partial::new(alloc, puzzle)?;
    put_colours(&mut reasons, puzzle)?;
    put_cells(&mut reasons, &partial)?;
    put_tiles(&mut reasons, &partial)?;
    Ok(reasons)
}

fn put_colours(reasons: &mut Vec<Reason>, puzzle: &Puzzle) -> Result<(), AllocError>
    requires puzzle { IsPuzzle puzzle.now }
    requires before { AreReasonsBefore puzzle.now (0, 0) reasons.old.items }
    ensures { OnOk result (AreReasonsBefore puzzle.now (1, 0) reasons.new.items) }
{
    let outer = puzzle.board().border_len();
    let inside = fills_inside(puzzle, outer);
    for colour in 0..MOST_COLOURS {
        if let Some(reason) = colour_reason(puzzle, outer, inside, colour) {
            reasons.push(reason)?;
        }
    }
    Ok(())
}

fn put_cells(reasons: &mut Vec<Reason>, partial: &Partial<'_>) -> Result<(), AllocError>
    requires empty { partial.now.placed ≡ empty_prefix partial.now.puzzle }
    requires before { AreReasonsBefore partial.now.puzzle (1, 0) reasons.old.items }
    ensures { OnOk result (AreReasonsBefore partial.now.puzzle (2, 0) reasons.new.items) }
{
    for cell in 0..partial.puzzle().board().cells() {
        if partial.count(Item::Cell(cell)) == 0 {
            reasons.push(Reason::DeadCell { cell })?;
        }
    }
    Ok(())
}

fn put_tiles(reasons: &mut Vec<Reason>, partial: &Partial<'_>) -> Result<(), AllocError>
    requires empty { partial.now.placed ≡ empty_prefix partial.now.puzzle }
    requires before { AreReasonsBefore partial.now.puzzle (2, 0) reasons.old.items }
    ensures { OnOk result (AreReasons partial.now.puzzle reasons.new.items) }
{
    let puzzle = partial.puzzle();
    if !puzzle.have_all_to_stand() {
        // a tile that fits nowhere may be left over
        return Ok(());
    }
    for tile in 0..puzzle.tile_count() {
        if partial.count(Item::Tile(tile)) == 0 {
            reasons.push(Reason::DeadTile { tile })?;
        }
    }
    Ok(())
}
