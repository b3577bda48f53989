//! What is placed on the turning triangle, and what fits there then.

ghost use Rattle.std.specs.Prelude.{◌≡◌, ◌<◌, length};
ghost use Rattle.match_board.specs.Board.{cell_count};

use match_puzzle::{Pair, Partial, Placement, Puzzle};
use std::alloc::{AllocError, Global};
use std::test::Fail;
use test_samples::{pair, turned, turning_triangle};

const MIDDLE: Pair = Pair {
    cell: 2,
    placement: Placement { tile: 0, turn: 0 },
};

// Whether just these fit at the cell.
fn fit_at(
    alloc: Global,
    partial: &Partial<'_>,
    cell: u16,
    fitting: &[Placement],
) -> Result<bool, AllocError>
    requires { cell < cell_count partial.now.puzzle.board }
{
    let found = partial.puzzle().fits_cell(alloc, partial, cell)?;
    Ok(found.as_slice() == fitting)
}

// Whether the tile fits in just these ways.
fn fits_as(
    alloc: Global,
    partial: &Partial<'_>,
    tile: u16,
    fitting: &[Pair],
) -> Result<bool, AllocError>
    requires { tile < length partial.now.puzzle.words }
{
    let found = partial.puzzle().fits_tile(alloc, partial, tile)?;
    Ok(found.as_slice() == fitting)
}

// Whether the counts and what fits are those where nothing is placed, of a cell and of a tile.
fn is_nothing_placed(alloc: Global, nothing: &Partial<'_>) -> Result<bool, AllocError>
    requires cells { cell_count nothing.now.puzzle.board ≡ 4 }
    requires tiles { length nothing.now.puzzle.words ≡ 4 }
{
    let at_the_top = [turned(1, 2), turned(2, 2), turned(3, 2)];
    let of_the_first = [pair(2, 0, 0), pair(2, 0, 1), pair(2, 0, 2)];
    Ok(
        fit_at(alloc, nothing, 0, &at_the_top)?
            && fits_as(alloc, nothing, 0, &of_the_first)?
            && nothing.puzzle().count_cell(nothing, 2) == 12,
    )
}

// Whether they are those where the first tile alone is placed, in the middle.
fn is_middle_placed(alloc: Global, partial: &Partial<'_>) -> Result<bool, AllocError>
    requires cells { cell_count partial.now.puzzle.board ≡ 4 }
    requires tiles { length partial.now.puzzle.words ≡ 4 }
{
    let puzzle = partial.puzzle();
    let is_counted = puzzle.count_cell(partial, 2) == 0 && puzzle.count_tile(partial, 1) == 1;
    let is_held = partial.holds(&[MIDDLE]) && !partial.is_whole();
    Ok(
        is_counted
            && is_held
            && fit_at(alloc, partial, 0, &[turned(2, 2)])?
            && fits_as(alloc, partial, 3, &[pair(3, 3, 1)])?,
    )
}

// Whether both are so: what is placed in a copy isn't placed here.
fn are_apart(alloc: Global, nothing: &Partial<'_>, partial: &Partial<'_>) -> Result<bool, Fail>
    requires cells { cell_count nothing.now.puzzle.board ≡ 4 }
    requires tiles { length nothing.now.puzzle.words ≡ 4 }
    requires copied { partial.now.puzzle ≡ nothing.now.puzzle }
{
    Ok(is_middle_placed(alloc, partial)? && is_nothing_placed(alloc, nothing)?)
}

// Whether they are, on a triangle of four cells and tiles.
fn is_middle_apart(alloc: Global, puzzle: &Puzzle) -> Result<bool, Fail> {
    if puzzle.board().cells() != 4 || puzzle.tiles().len() != 4 {
        return Err(Fail::from("another puzzle"));
    }
    if puzzle.prefix_fault(&[MIDDLE]).is_some() {
        return Err(Fail::from("no prefix"));
    }
    let nothing = Partial::new(alloc, puzzle)?;
    let mut partial = nothing.copy(alloc)?;
    partial.place(MIDDLE.cell, MIDDLE.placement);
    are_apart(alloc, &nothing, &partial)
}

fn is_apart_on_triangle(alloc: Global) -> Result<bool, Fail> {
    let triangle = turning_triangle(alloc)?;
    is_middle_apart(alloc, &triangle)
}

#[test]
fn what_fits_round_the_middle(rt: HostRuntime) -> Result<(), Fail> {
    assert!(rt; is_apart_on_triangle(rt.alloc())?);
    Ok(())
}
