//! What clues ask for, drawn in empty cells.

ghost use Rattle.std.specs.Prelude.{◌≡◌, ◌<◌, OnOk, length};
ghost use Rattle.match_board.specs.Board.{cell_count};
ghost use Rattle.show_pictures.specs.Clued.{ShowsClues};
ghost use Rattle.show_pictures.specs.Grown.{Wraps};

use crate::bands::put_ended;
use crate::canvases::Canvas;
use crate::clues::clue_lines;
use crate::elements::put_group;
use crate::measures::size_beside_signs;
use crate::tiles::{SIGN_LETTERS, put_disc, side_sign};
use match_puzzle::Puzzle;
use std::alloc::{AllocError, Global};

/// Writes a hatched part for each side of which a clue asks for a colour, a disc for the number of each such cell, and
/// the signs of these colours.
pub fn put_clues(alloc: Global, text: &mut Vec<u8>, canvas: &Canvas<'_>) -> Result<(), AllocError>
    requires { length canvas.now.sites.items ≡ cell_count canvas.now.puzzle.now.board }
    ensures { OnOk result (Wraps (ShowsClues canvas.now.puzzle.now canvas.now.left canvas.now.top canvas.now.sites.items)
        text.old.items text.new.items) }
{
    let parts = clue_lines(alloc, canvas)?;
    put_group(text, b"stroke=\"#999\" stroke-linejoin=\"round\"", &parts)?;
    let discs = disc_lines(alloc, canvas)?;
    put_group(text, b"fill=\"#f6f6f6\" stroke=\"#999\"", &discs)?;
    let signs = sign_lines(alloc, canvas)?;
    put_group(text, SIGN_LETTERS, &signs)?;
    Ok(())
}

// The signs of what clues ask for, a line for each cell that has some.
fn sign_lines(alloc: Global, canvas: &Canvas<'_>) -> Result<Vec<u8>, AllocError>
    requires { length canvas.now.sites.items ≡ cell_count canvas.now.puzzle.now.board }
{
    let mut lines = Vec::new(alloc);
    for cell in 0..canvas.puzzle.board().cells() {
        let line = sign_line(alloc, canvas, cell)?;
        put_ended(&mut lines, &line)?;
    }
    Ok(lines)
}

fn sign_line(alloc: Global, canvas: &Canvas<'_>, cell: u16) -> Result<Vec<u8>, AllocError>
    requires many { length canvas.now.sites.items ≡ cell_count canvas.now.puzzle.now.board }
    requires cell { cell < cell_count canvas.now.puzzle.now.board }
{
    let site = canvas.sites[usize::from(cell)];
    let mut line = Vec::new(alloc);
    for side in 0..canvas.puzzle.board().sides() {
        if let Some(colour) = canvas.puzzle.clue_colour(cell, side) {
            let sign = side_sign(alloc, canvas, site, side, colour)?;
            line.extend_from_slice(sign.as_bytes())?;
        }
    }
    Ok(line)
}

// The discs of cells of which a clue asks for a colour, a line for each.
fn disc_lines(alloc: Global, canvas: &Canvas<'_>) -> Result<Vec<u8>, AllocError>
    requires { length canvas.now.sites.items ≡ cell_count canvas.now.puzzle.now.board }
{
    let mut lines = Vec::new(alloc);
    let size = size_beside_signs(canvas.puzzle.board().sides());
    for cell in 0..canvas.puzzle.board().cells() {
        if is_clued(canvas.puzzle, cell) {
            let site = canvas.sites[usize::from(cell)];
            put_disc(&mut lines, canvas, site, size)?;
            lines.push(b'\n')?;
        }
    }
    Ok(lines)
}

// Whether a clue asks for a colour at a side of the cell.
fn is_clued(puzzle: &Puzzle, cell: u16) -> bool
    requires { cell < cell_count puzzle.now.board }
{
    for side in 0..puzzle.board().sides() {
        if puzzle.clue_colour(cell, side).is_some() {
            return true;
        }
    }
    false
}
