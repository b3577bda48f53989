//! A puzzle or an arrangement as a picture.

ghost use Rattle.std.specs.Prelude.{◌≡◌, ◌<◌, ◌≤◌, List, All, IfOk, OnOk, length};
ghost use Rattle.match_limits.specs.declared.TheConstants.{MOST_TILES};
ghost use Rattle.show_pictures.specs.Arrows.{AreTileLines};
ghost use Rattle.show_pictures.specs.declared.canvases.Site.{Site};
ghost use Rattle.show_pictures.specs.Grown.{Wraps};
ghost use Rattle.show_pictures.specs.Pictures.{AreUnturned, IsArrangementPicture, IsEmptyBoard, IsFullBoard};
ghost use Rattle.show_pictures.specs.Pictures.{IsLonePicture, IsPuzzlePicture};
ghost use Rattle.show_pictures.specs.Sites.{AreSites};
ghost use Rattle.match_puzzle.specs.Arrangement.{IsArrangement};
ghost use Rattle.match_puzzle.specs.declared.placements.Placement.{Placement};

use crate::canvases::Canvas;
use crate::cells::{put_numbers, put_outlines};
use crate::clued_cells::put_clues;
use crate::descriptions::{describe_arrangement, describe_tiles};
use crate::documents::{END, begin_picture, board_words};
use crate::measures::size_beside_signs;
use crate::signed_bands::put_bands;
use crate::sites::{board_extent, sites_of};
use crate::tiles::{Labels, put_tiles};
use crate::trays::{Tray, spare_tiles, tray_sites, unturned};
use match_puzzle::{Placement, Puzzle};
use std::alloc::{AllocError, Global};

/// How much is left free round a board, and between a board and the tray.
pub const MARGIN: u32 = 40;

/// The arrangement with this number in its list as a picture; where they are wanted, with the number of each tile.
/// Below the board lie the tiles that it leaves over, with their numbers.
pub fn write_arrangement_picture(
    alloc: Global,
    puzzle: &Puzzle,
    arrangement: &[Placement],
    number: u32,
    numbers: bool,
) -> Result<Vec<u8>, AllocError>
    requires { IsArrangement puzzle.now arrangement.now }
    ensures { IfOk result (λ text. IsLonePicture puzzle.now arrangement.now text.items) }
{
    let spare = spare_tiles(alloc, puzzle, arrangement)?;
    let layout = lone_layout(puzzle, spare.len() as u16);
    let mut text = begin_arrangement(alloc, puzzle, arrangement, number, &layout)?;
    let labels = lone_labels(puzzle, numbers);
    put_full_board(alloc, &mut text, puzzle, arrangement, labels)?;
    put_spare(alloc, &mut text, puzzle, &spare, &layout)?;
    text.extend_from_slice(END)?;
    Ok(text)
}

// The layout of a board with an arrangement, and below it of `spare` tiles, if there are some.
fn lone_layout(puzzle: &Puzzle, spare: u16) -> Layout {
    let extent = board_extent(puzzle.board().figure());
    let tray = Tray::new(spare, extent.wide, puzzle.board().sides());
    let board_high = extent.high + 2 * MARGIN;
    let tray_high = if spare == 0 {
        0
    } else {
        tray.height() + MARGIN
    };
    Layout {
        tray,
        wide: extent.wide.max(tray.width()) + 2 * MARGIN,
        high: board_high + tray_high,
        board_left: MARGIN,
        tray_left: MARGIN,
        tray_top: board_high,
    }
}

fn begin_arrangement(
    alloc: Global,
    puzzle: &Puzzle,
    arrangement: &[Placement],
    number: u32,
    layout: &Layout,
) -> Result<Vec<u8>, AllocError>
    requires { IsArrangement puzzle.now arrangement.now }
{
    let words = board_words(alloc, puzzle.board().figure())?;
    let title = format!(in alloc; "Arrangement {number}: {words}")?;
    let description = describe_arrangement(alloc, puzzle, arrangement)?;
    begin_picture(
        alloc,
        u64::from(layout.wide),
        u64::from(layout.high),
        &title,
        &description,
    )
}

/// Ends a picture that has begun with a board and the arrangement on it. Tiles that are left over aren't drawn.
pub fn draw_arrangement(
    alloc: Global,
    puzzle: &Puzzle,
    begun: Vec<u8>,
    arrangement: &[Placement],
    labels: Labels,
) -> Result<Vec<u8>, AllocError>
    requires { IsArrangement puzzle.now arrangement.now }
    ensures { IfOk result (λ text. IsArrangementPicture puzzle.now arrangement.now text.items) }
{
    let mut text = begun;
    put_full_board(alloc, &mut text, puzzle, arrangement, labels)?;
    text.extend_from_slice(END)?;
    Ok(text)
}

/// Writes the board with the arrangement.
pub fn put_full_board(
    alloc: Global,
    text: &mut Vec<u8>,
    puzzle: &Puzzle,
    arrangement: &[Placement],
    labels: Labels,
) -> Result<(), AllocError>
    requires { IsArrangement puzzle.now arrangement.now }
    ensures { OnOk result (Wraps (IsFullBoard puzzle.now arrangement.now) text.old.items text.new.items) }
{
    let canvas = board_canvas(alloc, puzzle, MARGIN)?;
    put_bands(alloc, text, &canvas, labels.signs)?;
    put_tiles(alloc, text, &canvas, arrangement, labels)?;
    Ok(())
}

// The tiles below a full board, if there are some.
fn put_spare(
    alloc: Global,
    text: &mut Vec<u8>,
    puzzle: &Puzzle,
    spare: &[Placement],
    layout: &Layout,
) -> Result<(), AllocError>
    requires tiles { All (λ x. x.tile < length puzzle.now.words) spare.now }
    requires few { length spare.now ≤ MOST_TILES }
    ensures { OnOk result ((tray : List Site) × (length tray ≡ length spare.now)
        × Wraps (AreTileLines puzzle.now layout.now.tray_left layout.now.tray_top tray spare.now)
        text.old.items text.new.items) }
{
    if spare.is_empty() {
        return Ok(());
    }
    put_below(alloc, text, puzzle, spare, layout)
}

/// The empty board of a puzzle as a picture, with the colours that the border and clues ask for, and each tile below.
pub fn write_puzzle_picture(alloc: Global, puzzle: &Puzzle) -> Result<Vec<u8>, AllocError>
    ensures { IfOk result (λ text. IsPuzzlePicture puzzle.now text.items) }
{
    let layout = puzzle_layout(puzzle);
    let mut text = begin_puzzle(alloc, puzzle, &layout)?;
    put_empty_board(alloc, &mut text, puzzle, layout.board_left)?;
    put_tray(alloc, &mut text, puzzle, &layout)?;
    text.extend_from_slice(END)?;
    Ok(text)
}

// Where a board and the tray below it lie in a picture, and how large that is.
#[derive(Clone, Copy)]
struct Layout {
    tray: Tray,
    wide: u32,
    high: u32,
    board_left: u32,
    tray_left: u32,
    tray_top: u32,
}

// The layout of an empty board and all tiles, with both in the middle.
fn puzzle_layout(puzzle: &Puzzle) -> Layout {
    let board = puzzle.board();
    let extent = board_extent(board.figure());
    let tray = Tray::new(puzzle.tile_count(), extent.wide, board.sides());
    let (tray_width, tray_height) = (tray.width(), tray.height());
    let width = extent.wide.max(tray_width);
    Layout {
        tray,
        wide: width + 2 * MARGIN,
        high: extent.high + tray_height + 3 * MARGIN,
        board_left: MARGIN + (width - extent.wide) / 2,
        tray_left: MARGIN + (width - tray_width) / 2,
        tray_top: extent.high + 2 * MARGIN,
    }
}

fn begin_puzzle(alloc: Global, puzzle: &Puzzle, layout: &Layout) -> Result<Vec<u8>, AllocError> {
    let words = board_words(alloc, puzzle.board().figure())?;
    let title = format!(in alloc; "Puzzle: {words}")?;
    let description = describe_tiles(alloc, puzzle)?;
    begin_picture(
        alloc,
        u64::from(layout.wide),
        u64::from(layout.high),
        &title,
        &description,
    )
}

// The bands and the cells of the board, so far from the left edge, with what clues ask for in these.
fn put_empty_board(
    alloc: Global,
    text: &mut Vec<u8>,
    puzzle: &Puzzle,
    left: u32,
) -> Result<(), AllocError>
    ensures { OnOk result ((sites : List Site) × AreSites puzzle.now.board sites
        × Wraps (IsEmptyBoard puzzle.now left 40 sites) text.old.items text.new.items) }
{
    let canvas = board_canvas(alloc, puzzle, left)?;
    put_bands(alloc, text, &canvas, true)?;
    put_outlines(alloc, text, &canvas)?;
    put_clues(alloc, text, &canvas)?;
    put_numbers(alloc, text, &canvas)?;
    Ok(())
}

// Each tile, unturned, below the board.
fn put_tray(
    alloc: Global,
    text: &mut Vec<u8>,
    puzzle: &Puzzle,
    layout: &Layout,
) -> Result<(), AllocError>
    ensures { OnOk result ((tray : List Site) × (tiles : List Placement) × (length tray ≡ length tiles)
        × AreUnturned (length puzzle.now.words) tiles
        × Wraps (AreTileLines puzzle.now layout.now.tray_left layout.now.tray_top tray tiles)
        text.old.items text.new.items) }
{
    let tiles = unturned(alloc, puzzle.tile_count())?;
    put_below(alloc, text, puzzle, &tiles, layout)?;
    Ok(())
}

// These tiles in the tray, with their signs and numbers.
fn put_below(
    alloc: Global,
    text: &mut Vec<u8>,
    puzzle: &Puzzle,
    tiles: &[Placement],
    layout: &Layout,
) -> Result<(), AllocError>
    requires tiles { All (λ x. x.tile < length puzzle.now.words) tiles.now }
    requires few { length tiles.now ≤ MOST_TILES }
    ensures { OnOk result ((tray : List Site) × (length tray ≡ length tiles.now)
        × Wraps (AreTileLines puzzle.now layout.now.tray_left layout.now.tray_top tray tiles.now)
        text.old.items text.new.items) }
{
    let below = Canvas {
        puzzle,
        sites: tray_sites(alloc, layout.tray, tiles.len() as u16)?,
        left: layout.tray_left,
        top: layout.tray_top,
    };
    put_tiles(alloc, text, &below, tiles, lone_labels(puzzle, true))?;
    Ok(())
}

/// What is drawn on the tiles of a picture by itself, with numbers where they are wanted.
pub fn lone_labels(puzzle: &Puzzle, numbers: bool) -> Labels {
    let numbers = if numbers {
        Some(size_beside_signs(puzzle.board().sides()))
    } else {
        None
    };
    Labels {
        outline: 2,
        signs: true,
        numbers,
    }
}

/// The sites of the puzzle's cells, on a board that is `left` away from the left edge.
pub fn board_canvas<'a>(
    alloc: Global,
    puzzle: &'a Puzzle,
    left: u32,
) -> Result<Canvas<'a>, AllocError>
    ensures puzzle { IfOk result (λ canvas. canvas.puzzle.now ≡ puzzle.now) }
    ensures sites { IfOk result (λ canvas. AreSites puzzle.now.board canvas.sites.items) }
    ensures left { IfOk result (λ canvas. canvas.left ≡ left) }
    ensures top { IfOk result (λ canvas. canvas.top ≡ MARGIN) }
{
    Ok(Canvas {
        puzzle,
        sites: sites_of(alloc, puzzle)?,
        left,
        top: MARGIN,
    })
}
