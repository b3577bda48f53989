//! Bands with the signs of their colours.

ghost use Rattle.std.specs.Prelude.{◌≡◌, ◌<◌, OnOk, length};
ghost use Rattle.match_board.specs.Board.{cell_count};
ghost use Rattle.match_limits.specs.declared.TheConstants.{MOST_COLOURS};
ghost use Rattle.show_pictures.specs.Elements.{AreBandLines};
ghost use Rattle.show_pictures.specs.Grown.{Grows, Wraps};

use crate::bands::{asked_outside, band_lines, put_ended};
use crate::canvases::{Canvas, Point, Site};
use crate::edges::{Edge, edge_of};
use crate::elements::{put_group, sign};
use crate::forms::{Way, side_of};
use std::alloc::{AllocError, Global};

/// Writes a band for each outer side that is asked for a colour, with the signs of the colours where they are wanted.
pub fn put_bands(
    alloc: Global,
    text: &mut Vec<u8>,
    canvas: &Canvas<'_>,
    signs: bool,
) -> Result<(), AllocError>
    requires { length canvas.now.sites.items ≡ cell_count canvas.now.puzzle.now.board }
    ensures { OnOk result (Wraps (AreBandLines canvas.now.puzzle.now canvas.now.left canvas.now.top canvas.now.sites.items)
        text.old.items text.new.items) }
{
    let bands = band_lines(alloc, canvas)?;
    put_group(text, b"stroke=\"#fff\" stroke-linejoin=\"round\"", &bands)?;
    put_signs(alloc, text, canvas, signs)?;
    Ok(())
}

// The signs of the bands, where they are wanted.
fn put_signs(
    alloc: Global,
    text: &mut Vec<u8>,
    canvas: &Canvas<'_>,
    wanted: bool,
) -> Result<(), AllocError>
    requires { length canvas.now.sites.items ≡ cell_count canvas.now.puzzle.now.board }
    ensures { OnOk result (Grows text.old.items text.new.items) }
{
    if !wanted {
        return Ok(());
    }
    let signs = sign_lines(alloc, canvas)?;
    put_group(text, SIGN_LETTERS, &signs)?;
    Ok(())
}

const SIGN_LETTERS: &[u8] =
    b"font-family=\"monospace\" font-size=\"13\" text-anchor=\"middle\" font-weight=\"bold\"";

// The signs of bands, a line for each cell that has some.
fn sign_lines(alloc: Global, canvas: &Canvas<'_>) -> Result<Vec<u8>, AllocError>
    requires { length canvas.now.sites.items ≡ cell_count canvas.now.puzzle.now.board }
{
    let mut lines = Vec::new(alloc);
    for cell in 0..canvas.puzzle.board().cells() {
        let line = sign_line(alloc, canvas, cell)?;
        put_ended(&mut lines, &line)?;
    }
    Ok(lines)
}

fn sign_line(alloc: Global, canvas: &Canvas<'_>, cell: u16) -> Result<Vec<u8>, AllocError>
    requires many { length canvas.now.sites.items ≡ cell_count canvas.now.puzzle.now.board }
    requires cell { cell < cell_count canvas.now.puzzle.now.board }
{
    let site = canvas.sites[usize::from(cell)];
    let mut line = Vec::new(alloc);
    for side in 0..canvas.puzzle.board().sides() {
        if let Some(colour) = asked_outside(canvas.puzzle, cell, side) {
            let sign = band_sign(alloc, canvas, site, side, colour)?;
            line.extend_from_slice(sign.as_bytes())?;
        }
    }
    Ok(line)
}

// The sign in the middle of a band, or beside its knob or hollow.
fn band_sign(
    alloc: Global,
    canvas: &Canvas<'_>,
    site: Site,
    side: u8,
    colour: u8,
) -> Result<String, AllocError>
    requires { colour < MOST_COLOURS }
{
    let form_side = side_of(site.form, side);
    let begin = canvas.point(site, form_side.begin);
    let way = form_side.way;
    let along = match edge_of(canvas.puzzle, colour) {
        Edge::Flat => Way {
            x: way.x / 2,
            y: way.y / 2,
        },
        Edge::Knob | Edge::Hollow => Way {
            x: way.x / 4,
            y: way.y / 4,
        },
    };
    let outside = Way {
        x: form_side.out.x / 2,
        y: form_side.out.y / 2,
    };
    let middle = moved(moved(begin, along), outside);
    sign(alloc, canvas.puzzle, colour, middle)
}

// The point so far on, but no further left or up than the picture.
fn moved(point: Point, way: Way) -> Point {
    Point {
        x: point.x.saturating_add_signed(i64::from(way.x)),
        y: point.y.saturating_add_signed(i64::from(way.y)),
    }
}
