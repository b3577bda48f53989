//! Pages of A4 paper with tiles to cut out.

ghost use Rattle.std.specs.Prelude.{◌≡◌, ◌<◌, ◌≤◌, ◌++◌, List, All, IfOk, OnOk, length};
ghost use Rattle.match_limits.specs.declared.TheConstants.{MOST_TILES};
ghost use Rattle.show_pictures.specs.Arrows.{AreTileLines};
ghost use Rattle.show_pictures.specs.Cuts.{AreTilePages, IsTilePage, page_begin, scale_begin, side_length};
ghost use Rattle.show_pictures.specs.Grown.{Wraps};
ghost use Rattle.show_pictures.specs.declared.canvases.Site.{Site};

use crate::canvases::Canvas;
use crate::cut_layouts::{CutLayout, side_length};
use crate::cut_plans::{CutPlan, TileSize};
use crate::documents::END;
use crate::elements::put_numbered;
use crate::pictures::lone_labels;
use crate::tiles::{Labels, put_tiles};
use match_puzzle::{Placement, Puzzle};
use std::alloc::{AllocError, Global};
use text_words::put_number;

/// Pages with these tiles, in order, on each as many as there is room for.
pub(crate) fn tile_pages(
    alloc: Global,
    puzzle: &Puzzle,
    tiles: &[Placement],
    plan: CutPlan,
) -> Result<Vec<u8>, AllocError>
    requires tiles { All (λ x. x.tile < length puzzle.now.words) tiles.now }
    requires few { length tiles.now ≤ MOST_TILES }
    ensures { IfOk result (λ text. AreTilePages plan.size puzzle.now tiles.now text.items) }
{
    let layout = CutLayout::new(puzzle, plan);
    let most = layout.tiles_on_a_page();
    let mut at = PageNumber::first(tiles.len() as u16, most);
    let mut text = Vec::new(alloc);
    let mut rest = tiles;
    while !rest.is_empty() {
        let (here, behind) = rest.split_at(rest.len().min(usize::from(most)));
        let page = tile_page(alloc, puzzle, here, &layout, at)?;
        text.extend_from_slice(&page)?;
        rest = behind;
        at = at.next();
    }
    Ok(text)
}

// The number of a page, from 1, and how many pages of tiles there are.
#[derive(Clone, Copy)]
struct PageNumber {
    number: u16,
    last: u16,
}

impl PageNumber {
    // That of the first page of `count` tiles, of which each page has at most so many.
    fn first(count: u16, most: u16) -> PageNumber
        requires { 1 ≤ most }
    {
        PageNumber {
            number: 1,
            last: count.div_ceil(most),
        }
    }

    fn next(self) -> PageNumber {
        PageNumber {
            number: self.number.saturating_add(1),
            last: self.last,
        }
    }
}

// A page with these tiles.
fn tile_page(
    alloc: Global,
    puzzle: &Puzzle,
    tiles: &[Placement],
    layout: &CutLayout,
    at: PageNumber,
) -> Result<Vec<u8>, AllocError>
    requires tiles { All (λ x. x.tile < length puzzle.now.words) tiles.now }
    requires some { 1 ≤ length tiles.now }
    requires few { length tiles.now ≤ MOST_TILES }
    ensures { IfOk result (λ page. IsTilePage layout.now.plan.size puzzle.now
        (record { tiles = tiles.now; text = page.items })) }
{
    let size = layout.plan.size;
    let title = title_line(alloc, tiles, at)?;
    let foot = foot_lines(alloc, puzzle, size, at)?;
    let mut page = begin_page(alloc, puzzle)?;
    page.extend_from_slice(title.as_bytes())?;
    put_scale(&mut page, size)?;
    put_tiles_apart(alloc, &mut page, puzzle, tiles, layout)?;
    page.extend_from_slice(b"</g>\n")?;
    page.extend_from_slice(&foot)?;
    page.extend_from_slice(END)?;
    Ok(page)
}

/// The first tag of a page: A4 paper, with as many units of length to a millimetre as a tile's side has in a drawing.
pub(crate) fn begin_page(alloc: Global, puzzle: &Puzzle) -> Result<Vec<u8>, AllocError>
    ensures { IfOk result (λ page. page.items ≡ page_begin (side_length puzzle.now.board)) }
{
    let side = u64::from(side_length(puzzle));
    let mut page = Vec::from_slice(
        alloc,
        b"<svg class=\"page\" width=\"210mm\" height=\"297mm\" viewBox=\"0 0 ",
    )?;
    put_number(&mut page, 210 * side)?;
    page.push(b' ')?;
    put_number(&mut page, 297 * side)?;
    page.extend_from_slice(b"\" role=\"img\">\n")?;
    Ok(page)
}

// Writes the tag of a group in which a tile's side is so many millimetres long.
fn put_scale(page: &mut Vec<u8>, size: TileSize) -> Result<(), AllocError>
    ensures { OnOk result (page.new.items ≡ page.old.items ++ scale_begin size) }
{
    page.extend_from_slice(b"<g transform=\"scale(")?;
    put_number(page, u64::from(size.get()))?;
    page.extend_from_slice(b")\">\n")?;
    Ok(())
}

// Writes these tiles, apart from each other.
fn put_tiles_apart(
    alloc: Global,
    page: &mut Vec<u8>,
    puzzle: &Puzzle,
    tiles: &[Placement],
    layout: &CutLayout,
) -> Result<(), AllocError>
    requires tiles { All (λ x. x.tile < length puzzle.now.words) tiles.now }
    requires few { length tiles.now ≤ MOST_TILES }
    ensures { OnOk result ((sites : List Site) × (length sites ≡ length tiles.now)
        × Wraps (AreTileLines puzzle.now layout.now.corner layout.now.corner sites tiles.now)
        page.old.items page.new.items) }
{
    let canvas = Canvas {
        puzzle,
        sites: layout.sites(alloc, tiles.len() as u16)?,
        left: layout.corner,
        top: layout.corner,
    };
    let labels = thin_labels(puzzle, layout.plan.numbers);
    put_tiles(alloc, page, &canvas, tiles, labels)?;
    Ok(())
}

// What is drawn on the tiles: as in a picture by itself, but for thinner outlines, along which they are cut.
fn thin_labels(puzzle: &Puzzle, numbers: bool) -> Labels {
    let alone = lone_labels(puzzle, numbers);
    Labels {
        outline: 1,
        signs: alone.signs,
        numbers: alone.numbers,
    }
}

// What the page is to who can't see it.
fn title_line(alloc: Global, tiles: &[Placement], at: PageNumber) -> Result<String, AllocError>
    requires { 1 ≤ length tiles.now }
{
    let PageNumber { number, last } = at;
    let (from, to) = (tiles[0].tile, tiles[tiles.len() - 1].tile);
    format!(in alloc; "<title>Page {number} of {last}: tiles {from} to {to}</title>\n")
}

// The text below the tiles, and a bar by which the size of the print can be checked.
fn foot_lines(
    alloc: Global,
    puzzle: &Puzzle,
    size: TileSize,
    at: PageNumber,
) -> Result<Vec<u8>, AllocError> {
    let side = u64::from(side_length(puzzle));
    let mut lines = Vec::new(alloc);
    put_numbered(
        &mut lines,
        &[
            ("<text x=\"", 10 * side),
            ("\" y=\"", 287 * side),
            ("\" font-family=\"sans-serif\" font-size=\"", 3 * side),
            ("\">Page ", u64::from(at.number)),
            (" of ", u64::from(at.last)),
            (". Print at 100 %: a side is ", u64::from(size.get())),
        ],
        b" mm long, and the bar at the right 50 mm.</text>\n",
    )?;
    put_numbered(
        &mut lines,
        &[
            (
                "<path fill=\"none\" stroke=\"#222\" stroke-width=\"",
                side / 4,
            ),
            ("\" d=\"M", 150 * side),
            (" ", 284 * side),
            ("v", 4 * side),
            ("m0-", 2 * side),
            ("h", 50 * side),
            ("m0-", 2 * side),
            ("v", 4 * side),
        ],
        b"\"/>\n",
    )?;
    Ok(lines)
}
