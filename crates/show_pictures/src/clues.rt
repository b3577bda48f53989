//! Clues: the colours that they ask for, drawn in empty cells.

ghost use Rattle.std.specs.Prelude.{◌≡◌, ◌<◌, ◌++◌, Some, IfOk, OnOk, length, slice_get};
ghost use Rattle.match_board.specs.Board.{cell_count, side_count};
ghost use Rattle.match_limits.specs.declared.TheConstants.{MOST_COLOURS};
ghost use Rattle.match_puzzle.specs.Puzzle.{IsPuzzle};
ghost use Rattle.show_pictures.specs.Clued.{AreClueLines, IsClued, IsHatchedAt, ShowsClues, hatching_begin, pattern};
ghost use Rattle.show_pictures.specs.Clued.{with_pattern};
ghost use Rattle.show_pictures.specs.Joined.{IsJoined};
ghost use Rattle.show_pictures.specs.declared.canvases.Site.{Site};

use crate::bands::{Ruled, put_ended};
use crate::canvases::{Canvas, Point};
use crate::forms::side_of;
use crate::parts::{begin_at, part_path};
use match_board::Clue;
use match_puzzle::Puzzle;
use std::alloc::{AllocError, Global};
use text_words::put_number;

/// The colours that clues ask for, each drawn at its side in the cell. Each cell that has some has a line, and before
/// the lines comes the pattern with which they are hatched. Empty where clues ask for nothing.
pub(crate) fn clue_lines(alloc: Global, canvas: &Canvas<'_>) -> Result<Vec<u8>, AllocError>
    requires { length canvas.now.sites.items ≡ cell_count canvas.now.puzzle.now.board }
    ensures { IfOk result (λ text. ShowsClues canvas.now.puzzle.now canvas.now.left canvas.now.top
        canvas.now.sites.items text.items) }
{
    let lines = cell_lines(alloc, canvas)?;
    let mut text = Vec::new(alloc);
    put_with_pattern(&mut text, &lines)?;
    Ok(text)
}

// Writes the lines with the pattern before them, or nothing where there are none.
fn put_with_pattern(text: &mut Vec<u8>, lines: &[u8]) -> Result<(), AllocError>
    ensures { OnOk result (text.new.items ≡ text.old.items ++ with_pattern lines.now) }
{
    if lines.is_empty() {
        return Ok(());
    }
    put_pattern(text)?;
    text.extend_from_slice(lines)?;
    Ok(())
}

// A white and a black stroke side by side, so that the hatching stands out from every fill.
fn put_pattern(text: &mut Vec<u8>) -> Result<(), AllocError>
    ensures { OnOk result (text.new.items ≡ text.old.items ++ pattern) }
{
    text.extend_from_slice(b"<pattern id=\"clue\" patternUnits=\"userSpaceOnUse\" width=\"10\"")?;
    text.extend_from_slice(
        b" height=\"10\" patternTransform=\"rotate(45)\" stroke-opacity=\".6\">",
    )?;
    text.extend_from_slice(b"<path stroke=\"#fff\" d=\"M4 0v10\"/>")?;
    text.extend_from_slice(b"<path stroke=\"#222\" d=\"M5 0v10\"/></pattern>\n")?;
    Ok(())
}

// A line for each cell of which a clue asks for a colour.
fn cell_lines(alloc: Global, canvas: &Canvas<'_>) -> Result<Vec<u8>, AllocError>
    requires { length canvas.now.sites.items ≡ cell_count canvas.now.puzzle.now.board }
    ensures { IfOk result (λ lines. AreClueLines canvas.now.puzzle.now canvas.now.left canvas.now.top
        canvas.now.sites.items lines.items) }
{
    let mut lines = Vec::new(alloc);
    for cell in 0..canvas.puzzle.board().cells() {
        let line = cell_line(alloc, canvas, cell)?;
        put_ended(&mut lines, &line)?;
    }
    Ok(lines)
}

// The hatched parts of a cell, side by side.
fn cell_line(alloc: Global, canvas: &Canvas<'_>, cell: u16) -> Result<Vec<u8>, AllocError>
    requires many { length canvas.now.sites.items ≡ cell_count canvas.now.puzzle.now.board }
    requires cell { cell < cell_count canvas.now.puzzle.now.board }
    ensures { IfOk result (λ line. (site : Site) → slice_get canvas.now.sites.items cell ≡ Some site
        → IsJoined (IsClued canvas.now.puzzle.now canvas.now.left canvas.now.top site cell)
        (side_count canvas.now.puzzle.now.board) line.items) }
{
    let mut line = Vec::new(alloc);
    for side in 0..canvas.puzzle.board().sides() {
        let part = part_at(alloc, canvas, cell, side)?;
        line.extend_from_slice(&part)?;
    }
    Ok(line)
}

// The hatched part at a side, or nothing where no clue asks for a colour.
fn part_at(alloc: Global, canvas: &Canvas<'_>, cell: u16, side: u8) -> Result<Vec<u8>, AllocError>
    requires many { length canvas.now.sites.items ≡ cell_count canvas.now.puzzle.now.board }
    requires cell { cell < cell_count canvas.now.puzzle.now.board }
    requires side { side < side_count canvas.now.puzzle.now.board }
    requires puzzle { IsPuzzle canvas.now.puzzle.now }
    ensures { IfOk result (λ part. (site : Site) → slice_get canvas.now.sites.items cell ≡ Some site
        → IsClued canvas.now.puzzle.now canvas.now.left canvas.now.top site cell side part.items) }
{
    match canvas.puzzle.clue_colour(cell, side) {
        Some(colour) => {
            let part = hatched(alloc, canvas, Ruled { cell, side, colour })?;
            Ok(part)
        }
        None => Ok(Vec::new(alloc)),
    }
}

// A part in the fill of the colour, and its path once more, hatched.
fn hatched(alloc: Global, canvas: &Canvas<'_>, ruled: Ruled) -> Result<Vec<u8>, AllocError>
    requires many { length canvas.now.sites.items ≡ cell_count canvas.now.puzzle.now.board }
    requires cell { ruled.cell < cell_count canvas.now.puzzle.now.board }
    requires colour { ruled.colour < MOST_COLOURS }
    ensures { IfOk result (λ text. (site : Site) → slice_get canvas.now.sites.items ruled.cell ≡ Some site
        → IsHatchedAt canvas.now.puzzle.now canvas.now.left canvas.now.top site ruled.side ruled.colour text.items) }
{
    let Ruled { cell, side, colour } = ruled;
    let site = canvas.sites[usize::from(cell)];
    let form_side = side_of(site.form, side);
    let begin = canvas.point(site, form_side.begin);
    let path = part_path(alloc, canvas.puzzle, site.form, side, colour)?;
    let mut text = begin_at(alloc, canvas, site, side, colour)?;
    text.extend_from_slice(path.as_bytes())?;
    put_hatching_begin(&mut text, begin)?;
    text.extend_from_slice(path.as_bytes())?;
    Ok(text)
}

// The beginning of an element that is filled with the pattern, whose path begins at the point.
fn put_hatching_begin(text: &mut Vec<u8>, at: Point) -> Result<(), AllocError>
    ensures { OnOk result (text.new.items ≡ text.old.items ++ hatching_begin at.x at.y) }
{
    text.extend_from_slice(b"<path fill=\"url(#clue)\" d=\"M")?;
    put_number(text, at.x)?;
    text.push(b' ')?;
    put_number(text, at.y)?;
    Ok(())
}
