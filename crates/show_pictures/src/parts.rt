//! Parts of tiles and bands: what shows colours.

ghost use Rattle.std.specs.Prelude.{◌≡◌, ◌<◌, ◌+◌, All, IfOk, length};
ghost use Rattle.std.specs.String.{string_bytes};
ghost use Rattle.match_limits.specs.declared.TheConstants.{MOST_COLOURS};
ghost use Rattle.show_pictures.specs.Elements.{ArePartLines, IsAlong, IsPartLine, IsAtSide, element_begin};
ghost use Rattle.show_pictures.specs.Forms.{begin_of};

use crate::canvases::{Canvas, Point, Site};
use crate::edges::{edge_of, edge_path};
use crate::forms::{Form, side_of};
use crate::palette::fill_of;
use match_puzzle::{Placement, Puzzle};
use std::alloc::{AllocError, Global};
use text_words::put_number;

/// The parts of these placed tiles, a line for each tile. A tile's site is that with its place in the list.
pub(crate) fn part_lines(
    alloc: Global,
    canvas: &Canvas<'_>,
    placements: &[Placement],
) -> Result<Vec<u8>, AllocError>
    requires many { length placements.now ≡ length canvas.now.sites.items }
    requires tiles { All (λ x. x.tile < length canvas.now.puzzle.now.words) placements.now }
    ensures { IfOk result (λ lines. ArePartLines canvas.now.puzzle.now canvas.now.left canvas.now.top
        canvas.now.sites.items placements.now lines.items) }
{
    let mut lines = Vec::new(alloc);
    for index in 0..placements.len() {
        let line = part_line(alloc, canvas, canvas.sites[index], placements[index])?;
        lines.extend_from_slice(&line)?;
    }
    Ok(lines)
}

// A part for each side of a tile, in the fill of the colour that is shown there.
fn part_line(
    alloc: Global,
    canvas: &Canvas<'_>,
    site: Site,
    placement: Placement,
) -> Result<Vec<u8>, AllocError>
    requires { placement.tile < length canvas.now.puzzle.now.words }
    ensures { IfOk result (λ line. IsPartLine canvas.now.puzzle.now canvas.now.left canvas.now.top site placement line.items) }
{
    let mut line = Vec::new(alloc);
    for side in 0..canvas.puzzle.board().sides() {
        let part = part(
            alloc,
            canvas,
            site,
            side,
            canvas.puzzle.colour(placement, side),
        )?;
        line.extend_from_slice(&part)?;
    }
    line.push(b'\n')?;
    Ok(line)
}

// An element with the fill of the colour, and the path of a part.
fn part(
    alloc: Global,
    canvas: &Canvas<'_>,
    site: Site,
    side: u8,
    colour: u8,
) -> Result<Vec<u8>, AllocError>
    requires { colour < MOST_COLOURS }
    ensures { IfOk result (λ part. IsAtSide canvas.now.puzzle.now canvas.now.left canvas.now.top site side colour part.items) }
{
    let path = part_path(alloc, canvas.puzzle, site.form, side, colour)?;
    let mut part = begin_at(alloc, canvas, site, side, colour)?;
    part.extend_from_slice(path.as_bytes())?;
    Ok(part)
}

// From the beginning of a side along its edge, home to the middle of the tile, and back; and the end of the element.
pub(crate) fn part_path(
    alloc: Global,
    puzzle: &Puzzle,
    form: Form,
    side: u8,
    colour: u8,
) -> Result<String, AllocError>
    requires { colour < MOST_COLOURS }
    ensures { IfOk result (λ path. IsAlong puzzle.now colour (string_bytes path)) }
{
    let home = side_of(form, side).home.step();
    let along = path_along(alloc, puzzle, form, side, colour)?;
    let rest = format!(in alloc; "{home}z\"/>")?;
    let path = format!(in alloc; "{along}{rest}")?;
    Ok(path)
}

// The path along a side, with the colour's edge.
fn path_along(
    alloc: Global,
    puzzle: &Puzzle,
    form: Form,
    side: u8,
    colour: u8,
) -> Result<String, AllocError>
    requires { colour < MOST_COLOURS }
    ensures { IfOk result (λ path. IsAlong puzzle.now colour (string_bytes path)) }
{
    let edge = edge_of(puzzle, colour);
    let path = edge_path(alloc, form, side, edge)?;
    Ok(path)
}

// An element with the fill of the colour, whose path begins at the side and has gone along its edge.
pub(crate) fn element_along(
    alloc: Global,
    canvas: &Canvas<'_>,
    site: Site,
    side: u8,
    colour: u8,
) -> Result<Vec<u8>, AllocError>
    requires { colour < MOST_COLOURS }
    ensures { IfOk result (λ text. IsAtSide canvas.now.puzzle.now canvas.now.left canvas.now.top site side colour text.items) }
{
    let path = path_along(alloc, canvas.puzzle, site.form, side, colour)?;
    let mut element = begin_at(alloc, canvas, site, side, colour)?;
    element.extend_from_slice(path.as_bytes())?;
    Ok(element)
}

// The beginning of an element with the fill of the colour, whose path begins where the side does.
pub(crate) fn begin_at(
    alloc: Global,
    canvas: &Canvas<'_>,
    site: Site,
    side: u8,
    colour: u8,
) -> Result<Vec<u8>, AllocError>
    requires { colour < MOST_COLOURS }
    ensures { IfOk result (λ text. text.items ≡ element_begin canvas.now.puzzle.now colour
        (canvas.now.left + site.x + (begin_of site.form side).0) (canvas.now.top + site.y + (begin_of site.form side).1)) }
{
    let form_side = side_of(site.form, side);
    let at = canvas.point(site, form_side.begin);
    let text = begin_element(alloc, canvas.puzzle, colour, at)?;
    Ok(text)
}

// The beginning of an element with the fill of the colour, whose path begins at the point.
fn begin_element(
    alloc: Global,
    puzzle: &Puzzle,
    colour: u8,
    at: Point,
) -> Result<Vec<u8>, AllocError>
    requires { colour < MOST_COLOURS }
    ensures { IfOk result (λ text. text.items ≡ element_begin puzzle.now colour at.x at.y) }
{
    let mut text = Vec::from_slice(alloc, b"<path fill=\"#")?;
    text.extend_from_slice(&fill_of(puzzle, colour))?;
    text.extend_from_slice(b"\" d=\"M")?;
    put_number(&mut text, at.x)?;
    text.push(b' ')?;
    put_number(&mut text, at.y)?;
    Ok(text)
}
