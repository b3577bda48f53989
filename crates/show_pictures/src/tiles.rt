//! Tiles as they lie on a board or in the tray.

ghost use Rattle.std.specs.Prelude.{◌≡◌, ◌<◌, All, OnOk, length};
ghost use Rattle.match_limits.specs.declared.TheConstants.{MOST_COLOURS};
ghost use Rattle.show_pictures.specs.Arrows.{AreTileLines};
ghost use Rattle.show_pictures.specs.Grown.{Grows, Wraps};

use crate::arrows::arrow_lines;
use crate::canvases::{Canvas, Site};
use crate::edges::{Edge, edge_of};
use crate::elements::{outline, put_group, put_numbered, sign};
use crate::forms::side_of;
use crate::measures::{NumberSize, middle};
use crate::numbers::tile_number;
use crate::parts::part_lines;
use match_puzzle::{Placement, Puzzle};
use std::alloc::{AllocError, Global};

/// What is drawn on tiles.
#[derive(Clone, Copy)]
pub struct Labels {
    /// how wide their outlines are
    pub outline: u32,
    /// the sign of the colour at each side
    pub signs: bool,
    /// the number of the tile, so large
    pub numbers: Option<NumberSize>,
}

// What is drawn of all tiles before anything else of them is.
#[derive(Clone, Copy)]
enum Layer {
    Outlines,
    Signs,
    Discs(NumberSize),
    Numbers(NumberSize),
}

/// Writes these placed tiles, each at the site with its place in the list: a part for each side, and above the parts
/// outlines, signs, numbers on discs, and where tiles may not be turned an arrow that points north.
pub fn put_tiles(
    alloc: Global,
    text: &mut Vec<u8>,
    canvas: &Canvas<'_>,
    placements: &[Placement],
    labels: Labels,
) -> Result<(), AllocError>
    requires many { length placements.now ≡ length canvas.now.sites.items }
    requires tiles { All (λ x. x.tile < length canvas.now.puzzle.now.words) placements.now }
    ensures { OnOk result (Wraps (AreTileLines canvas.now.puzzle.now canvas.now.left canvas.now.top
        canvas.now.sites.items placements.now) text.old.items text.new.items) }
{
    let parts = part_lines(alloc, canvas, placements)?;
    put_group(text, b"stroke=\"#fff\" stroke-linejoin=\"round\"", &parts)?;
    put_lines_above(alloc, text, canvas, placements, labels)?;
    let arrows = arrow_lines(alloc, canvas)?;
    put_group(
        text,
        b"fill=\"#fff\" stroke=\"#222\" stroke-linejoin=\"round\"",
        &arrows,
    )?;
    Ok(())
}

// What is drawn above the parts.
fn put_lines_above(
    alloc: Global,
    text: &mut Vec<u8>,
    canvas: &Canvas<'_>,
    placements: &[Placement],
    labels: Labels,
) -> Result<(), AllocError>
    requires many { length placements.now ≡ length canvas.now.sites.items }
    requires tiles { All (λ x. x.tile < length canvas.now.puzzle.now.words) placements.now }
    ensures { OnOk result (Grows text.old.items text.new.items) }
{
    put_outlines(alloc, text, canvas, placements, labels.outline)?;
    put_signs(alloc, text, canvas, placements, labels.signs)?;
    put_numbers(alloc, text, canvas, placements, labels.numbers)?;
    Ok(())
}

fn put_outlines(
    alloc: Global,
    text: &mut Vec<u8>,
    canvas: &Canvas<'_>,
    placements: &[Placement],
    width: u32,
) -> Result<(), AllocError>
    requires many { length placements.now ≡ length canvas.now.sites.items }
    requires tiles { All (λ x. x.tile < length canvas.now.puzzle.now.words) placements.now }
    ensures { OnOk result (Grows text.old.items text.new.items) }
{
    let outlines = layer_lines(alloc, canvas, placements, Layer::Outlines)?;
    let stroke = format!(in alloc;
        "fill=\"none\" stroke=\"#222\" stroke-width=\"{width}\" stroke-linejoin=\"round\""
    )?;
    put_group(text, stroke.as_bytes(), &outlines)?;
    Ok(())
}

// The sign at each side, where they are wanted.
fn put_signs(
    alloc: Global,
    text: &mut Vec<u8>,
    canvas: &Canvas<'_>,
    placements: &[Placement],
    wanted: bool,
) -> Result<(), AllocError>
    requires many { length placements.now ≡ length canvas.now.sites.items }
    requires tiles { All (λ x. x.tile < length canvas.now.puzzle.now.words) placements.now }
    ensures { OnOk result (Grows text.old.items text.new.items) }
{
    if !wanted {
        return Ok(());
    }
    let signs = layer_lines(alloc, canvas, placements, Layer::Signs)?;
    put_group(text, SIGN_LETTERS, &signs)?;
    Ok(())
}

/// The letters of signs on tiles.
pub const SIGN_LETTERS: &[u8] =
    b"font-family=\"monospace\" font-size=\"14\" text-anchor=\"middle\" font-weight=\"bold\"";

// The number of each tile on a disc, where they are wanted.
fn put_numbers(
    alloc: Global,
    text: &mut Vec<u8>,
    canvas: &Canvas<'_>,
    placements: &[Placement],
    wanted: Option<NumberSize>,
) -> Result<(), AllocError>
    requires many { length placements.now ≡ length canvas.now.sites.items }
    requires tiles { All (λ x. x.tile < length canvas.now.puzzle.now.words) placements.now }
    ensures { OnOk result (Grows text.old.items text.new.items) }
{
    let Some(size) = wanted else {
        return Ok(());
    };
    let discs = layer_lines(alloc, canvas, placements, Layer::Discs(size))?;
    put_group(text, b"fill=\"#fff\" stroke=\"#222\"", &discs)?;
    let numbers = layer_lines(alloc, canvas, placements, Layer::Numbers(size))?;
    let high = size.letters;
    let letters = format!(in alloc;
        "font-family=\"monospace\" font-size=\"{high}\" text-anchor=\"middle\""
    )?;
    put_group(text, letters.as_bytes(), &numbers)?;
    Ok(())
}

// The layer, a line for each tile.
fn layer_lines(
    alloc: Global,
    canvas: &Canvas<'_>,
    placements: &[Placement],
    layer: Layer,
) -> Result<Vec<u8>, AllocError>
    requires many { length placements.now ≡ length canvas.now.sites.items }
    requires tiles { All (λ x. x.tile < length canvas.now.puzzle.now.words) placements.now }
{
    let mut lines = Vec::new(alloc);
    for index in 0..placements.len() {
        let site = canvas.sites[index];
        put_layer(alloc, &mut lines, canvas, site, placements[index], layer)?;
        lines.push(b'\n')?;
    }
    Ok(lines)
}

fn put_layer(
    alloc: Global,
    line: &mut Vec<u8>,
    canvas: &Canvas<'_>,
    site: Site,
    placement: Placement,
    layer: Layer,
) -> Result<(), AllocError>
    requires { placement.tile < length canvas.now.puzzle.now.words }
{
    match layer {
        Layer::Outlines => {
            let edges = edges_shown(canvas.puzzle, placement);
            line.extend_from_slice(outline(alloc, canvas, site, edges)?.as_slice())
        }
        Layer::Signs => put_tile_signs(alloc, line, canvas, site, placement),
        Layer::Discs(size) => put_disc(line, canvas, site, size),
        Layer::Numbers(size) => {
            let at = canvas.point(site, middle(site.form));
            let label = tile_number(alloc, placement, at, size.base)?;
            line.extend_from_slice(label.as_bytes())
        }
    }
}

// The edges of the colours that are shown.
fn edges_shown(puzzle: &Puzzle, placement: Placement) -> [Edge; 4]
    requires { placement.tile < length puzzle.now.words }
{
    let mut edges = [Edge::Flat; 4];
    for side in 0..puzzle.board().sides() {
        edges[usize::from(side)] = edge_of(puzzle, puzzle.colour(placement, side));
    }
    edges
}

fn put_tile_signs(
    alloc: Global,
    line: &mut Vec<u8>,
    canvas: &Canvas<'_>,
    site: Site,
    placement: Placement,
) -> Result<(), AllocError>
    requires { placement.tile < length canvas.now.puzzle.now.words }
{
    for side in 0..canvas.puzzle.board().sides() {
        let colour = canvas.puzzle.colour(placement, side);
        let sign = side_sign(alloc, canvas, site, side, colour)?;
        line.extend_from_slice(sign.as_bytes())?;
    }
    Ok(())
}

/// The sign of the colour at a side of a tile, beside a hollow.
pub fn side_sign(
    alloc: Global,
    canvas: &Canvas<'_>,
    site: Site,
    side: u8,
    colour: u8,
) -> Result<String, AllocError>
    requires { colour < MOST_COLOURS }
{
    let form_side = side_of(site.form, side);
    let middle = match edge_of(canvas.puzzle, colour) {
        Edge::Flat | Edge::Knob => form_side.sign,
        Edge::Hollow => form_side.hollow_sign,
    };
    sign(alloc, canvas.puzzle, colour, canvas.point(site, middle))
}

/// Writes the disc behind a number of this size, in the middle of the site.
pub fn put_disc(
    line: &mut Vec<u8>,
    canvas: &Canvas<'_>,
    site: Site,
    size: NumberSize,
) -> Result<(), AllocError> {
    let at = canvas.point(site, middle(site.form));
    put_numbered(
        line,
        &[
            ("<circle cx=\"", at.x),
            ("\" cy=\"", at.y),
            ("\" r=\"", u64::from(size.disc)),
        ],
        b"\"/>",
    )
}
