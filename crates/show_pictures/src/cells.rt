//! Empty cells.

ghost use Rattle.std.specs.Prelude.{◌≡◌, ◌<◌, OnOk, length};
ghost use Rattle.match_board.specs.Board.{cell_count};
ghost use Rattle.show_pictures.specs.Grown.{Grows};

use crate::bands::asked;
use crate::canvases::Canvas;
use crate::edges::{Edge, edge_of};
use crate::elements::{outline, put_group};
use crate::measures::middle;
use crate::numbers::number;
use match_puzzle::Puzzle;
use std::alloc::{AllocError, Global};

/// Writes the outline of each cell, with the edges that are asked of its tile.
pub fn put_outlines(
    alloc: Global,
    text: &mut Vec<u8>,
    canvas: &Canvas<'_>,
) -> Result<(), AllocError>
    requires { length canvas.now.sites.items ≡ cell_count canvas.now.puzzle.now.board }
    ensures { OnOk result (Grows text.old.items text.new.items) }
{
    let outlines = outline_lines(alloc, canvas)?;
    put_group(
        text,
        b"fill=\"#f6f6f6\" stroke=\"#999\" stroke-linejoin=\"round\"",
        &outlines,
    )?;
    Ok(())
}

/// Writes the number of each cell.
pub fn put_numbers(alloc: Global, text: &mut Vec<u8>, canvas: &Canvas<'_>) -> Result<(), AllocError>
    requires { length canvas.now.sites.items ≡ cell_count canvas.now.puzzle.now.board }
    ensures { OnOk result (Grows text.old.items text.new.items) }
{
    let numbers = number_lines(alloc, canvas)?;
    put_group(
        text,
        b"font-family=\"monospace\" font-size=\"16\" text-anchor=\"middle\" fill=\"#666\"",
        &numbers,
    )?;
    Ok(())
}

fn outline_lines(alloc: Global, canvas: &Canvas<'_>) -> Result<Vec<u8>, AllocError>
    requires { length canvas.now.sites.items ≡ cell_count canvas.now.puzzle.now.board }
{
    let mut lines = Vec::new(alloc);
    for cell in 0..canvas.puzzle.board().cells() {
        let site = canvas.sites[usize::from(cell)];
        let outline = outline(alloc, canvas, site, edges_asked(canvas.puzzle, cell))?;
        lines.extend_from_slice(&outline)?;
        lines.push(b'\n')?;
    }
    Ok(lines)
}

fn number_lines(alloc: Global, canvas: &Canvas<'_>) -> Result<Vec<u8>, AllocError>
    requires { length canvas.now.sites.items ≡ cell_count canvas.now.puzzle.now.board }
{
    let mut lines = Vec::new(alloc);
    for cell in 0..canvas.puzzle.board().cells() {
        let site = canvas.sites[usize::from(cell)];
        let at = canvas.point(site, middle(site.form));
        let label = number(alloc, u32::from(cell), at, 6)?;
        lines.extend_from_slice(label.as_bytes())?;
        lines.push(b'\n')?;
    }
    Ok(lines)
}

// The edges that the border and a clue ask of a tile at the cell; a side of which nothing is asked is drawn straight.
fn edges_asked(puzzle: &Puzzle, cell: u16) -> [Edge; 4]
    requires { cell < cell_count puzzle.now.board }
{
    let mut edges = [Edge::Flat; 4];
    for side in 0..puzzle.board().sides() {
        if let Some(colour) = asked(puzzle, cell, side) {
            edges[usize::from(side)] = edge_of(puzzle, colour);
        }
    }
    edges
}
