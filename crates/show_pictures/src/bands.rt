//! Bands along the sides that meet nothing, where a colour is asked for.

ghost use Rattle.std.specs.Prelude.{◌≡◌, ◌<◌, ◌↔◌, ◌++◌, ℕ, Some, IfOk, IfSome, OnOk, length, slice_get};
ghost use Rattle.match_board.specs.Board.{cell_count, side_count};
ghost use Rattle.match_puzzle.specs.Puzzle.{HasRule, IsPuzzle};
ghost use Rattle.show_pictures.specs.Elements.{AreBandLines, IsAskedOutside, IsAtSide, IsBand};
ghost use Rattle.show_pictures.specs.Joined.{IsJoined, ended};
ghost use Rattle.show_pictures.specs.declared.canvases.Site.{Site};
ghost use Rattle.match_limits.specs.declared.TheConstants.{MOST_COLOURS};

use crate::canvases::Canvas;
use crate::corners::{Corner, End, outer_corner};
use crate::forms::{Step, Way, side_of};
use crate::parts::element_along;
use match_puzzle::Puzzle;
use std::alloc::{AllocError, Global};

// A side of a cell where this colour is asked for.
#[derive(Clone, Copy)]
pub(crate) struct Ruled {
    pub(crate) cell: u16,
    pub(crate) side: u8,
    pub(crate) colour: u8,
}

/// The bands of a board's cells. Each cell that has some has a line.
pub(crate) fn band_lines(alloc: Global, canvas: &Canvas<'_>) -> Result<Vec<u8>, AllocError>
    requires { length canvas.now.sites.items ≡ cell_count canvas.now.puzzle.now.board }
    ensures { IfOk result (λ lines. AreBandLines canvas.now.puzzle.now canvas.now.left canvas.now.top
        canvas.now.sites.items lines.items) }
{
    let mut lines = Vec::new(alloc);
    for cell in 0..canvas.puzzle.board().cells() {
        let line = band_line(alloc, canvas, cell)?;
        put_ended(&mut lines, &line)?;
    }
    Ok(lines)
}

/// Writes the line and its end, unless the line is empty.
pub(crate) fn put_ended(lines: &mut Vec<u8>, line: &[u8]) -> Result<(), AllocError>
    ensures { OnOk result (lines.new.items ≡ lines.old.items ++ ended line.now) }
{
    if line.is_empty() {
        return Ok(());
    }
    lines.extend_from_slice(line)?;
    lines.push(b'\n')?;
    Ok(())
}

// The bands of a cell, side by side.
fn band_line(alloc: Global, canvas: &Canvas<'_>, cell: u16) -> Result<Vec<u8>, AllocError>
    requires many { length canvas.now.sites.items ≡ cell_count canvas.now.puzzle.now.board }
    requires cell { cell < cell_count canvas.now.puzzle.now.board }
    ensures { IfOk result (λ line. (site : Site) → slice_get canvas.now.sites.items cell ≡ Some site
        → IsJoined (IsBand canvas.now.puzzle.now canvas.now.left canvas.now.top site cell)
        (side_count canvas.now.puzzle.now.board) line.items) }
{
    let mut line = Vec::new(alloc);
    for side in 0..canvas.puzzle.board().sides() {
        let band = band_at(alloc, canvas, cell, side)?;
        line.extend_from_slice(&band)?;
    }
    Ok(line)
}

// The band at a side, or nothing where none is.
fn band_at(alloc: Global, canvas: &Canvas<'_>, cell: u16, side: u8) -> Result<Vec<u8>, AllocError>
    requires many { length canvas.now.sites.items ≡ cell_count canvas.now.puzzle.now.board }
    requires cell { cell < cell_count canvas.now.puzzle.now.board }
    requires side { side < side_count canvas.now.puzzle.now.board }
    requires puzzle { IsPuzzle canvas.now.puzzle.now }
    ensures { IfOk result (λ band. (site : Site) → slice_get canvas.now.sites.items cell ≡ Some site
        → IsBand canvas.now.puzzle.now canvas.now.left canvas.now.top site cell side band.items) }
{
    match asked_outside(canvas.puzzle, cell, side) {
        Some(colour) => {
            let band = band(alloc, canvas, Ruled { cell, side, colour })?;
            Ok(band)
        }
        None => Ok(Vec::new(alloc)),
    }
}

/// The colour that is asked for at a side that meets nothing.
pub(crate) fn asked_outside(puzzle: &Puzzle, cell: u16, side: u8) -> Option<u8>
    requires cell { cell < cell_count puzzle.now.board }
    requires side { side < side_count puzzle.now.board }
    requires puzzle { IsPuzzle puzzle.now }
    ensures rule { (colour : ℕ) → (result ≡ Some colour) ↔ IsAskedOutside puzzle.now cell side colour }
    ensures below { IfSome result (λ colour. colour < MOST_COLOURS) }
{
    match puzzle.meets(cell, side) {
        Some(_) => None,
        None => asked(puzzle, cell, side),
    }
}

/// The colour that the border or a clue asks for at a side.
pub(crate) fn asked(puzzle: &Puzzle, cell: u16, side: u8) -> Option<u8>
    requires cell { cell < cell_count puzzle.now.board }
    requires side { side < side_count puzzle.now.board }
    requires puzzle { IsPuzzle puzzle.now }
    ensures rule { (colour : ℕ) → (result ≡ Some colour) ↔ HasRule puzzle.now cell side colour }
    ensures below { IfSome result (λ colour. colour < MOST_COLOURS) }
{
    puzzle.rule(cell, side)
}

// From the beginning of a side along its edge, to the outer corner there, to that at its beginning, and back.
fn band(alloc: Global, canvas: &Canvas<'_>, ruled: Ruled) -> Result<Vec<u8>, AllocError>
    requires many { length canvas.now.sites.items ≡ cell_count canvas.now.puzzle.now.board }
    requires cell { ruled.cell < cell_count canvas.now.puzzle.now.board }
    requires side { ruled.side < side_count canvas.now.puzzle.now.board }
    requires colour { ruled.colour < MOST_COLOURS }
    ensures { IfOk result (λ band. (site : Site) → slice_get canvas.now.sites.items ruled.cell ≡ Some site
        → IsAtSide canvas.now.puzzle.now canvas.now.left canvas.now.top site ruled.side ruled.colour band.items) }
{
    let Ruled { cell, side, colour } = ruled;
    let site = canvas.sites[usize::from(cell)];
    let last = outer_corner(canvas, cell, side, End::Last);
    let first = outer_corner(canvas, cell, side, End::First);
    let (out, back) = (
        last.step(),
        back_to(first, last, side_of(site.form, side).way),
    );
    let mut band = element_along(alloc, canvas, site, side, colour)?;
    let round = format!(in alloc; "{out}{back}z\"/>")?;
    band.extend_from_slice(round.as_bytes())?;
    Ok(band)
}

// From the outer corner at the end of a side to that at its beginning.
fn back_to(first: Corner, last: Corner, way: Way) -> Step {
    Step {
        x: i32::from(first.x) - i32::from(last.x) - i32::from(way.x),
        y: i32::from(first.y) - i32::from(last.y) - i32::from(way.y),
    }
}
