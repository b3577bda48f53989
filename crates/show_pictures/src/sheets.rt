//! Several arrangements as one picture.

ghost use Rattle.std.specs.Prelude.{◌≡◌, ◌<◌, ◌≤◌, ◌+◌, ◌^◌, IfOk, length};
ghost use Rattle.match_puzzle.specs.Arrangement.{AreArrangements};
ghost use Rattle.show_pictures.specs.Joined.{IsJoined};
ghost use Rattle.show_pictures.specs.Pictures.{IsPictureAt, IsSheet};

use crate::canvases::Point;
use crate::descriptions::describe_list;
use crate::documents::{END, EvenRows, begin_picture, board_words, even_rows};
use crate::elements::{put_group, put_numbered};
use crate::measures::size_on_a_sheet;
use crate::numbers::number;
use crate::pictures::{MARGIN, draw_arrangement};
use crate::sites::{Extent, board_extent};
use crate::tiles::Labels;
use match_puzzle::{Arrangement, Puzzle};
use std::alloc::{AllocError, Global};

// The longer side of a thumbnail, how many stand in a row, and the room below each for its number.
const LONGER: u32 = 200;

const ACROSS: u16 = 5;

const CAPTION: u32 = 24;

/// What has a number on a sheet.
#[derive(Clone, Copy)]
pub struct Numbering {
    /// The number of the first arrangement.
    pub first: u32,
    /// Whether each tile has its number too.
    pub tiles: bool,
}

// How arrangements stand on a sheet.
#[derive(Clone, Copy)]
struct Sheet {
    first: u32,
    // that of a picture of its own
    full: Extent,
    // what is drawn on tiles there: large enough to be seen when it is made small
    labels: Labels,
    // that of a thumbnail
    small: Extent,
    rows: EvenRows,
}

impl Sheet {
    // The sheet of `count` arrangements of the puzzle.
    fn new(puzzle: &Puzzle, numbering: Numbering, count: u16) -> Sheet
        ensures { result.first ≡ numbering.first }
    {
        let board = board_extent(puzzle.board().figure());
        let full = Extent {
            wide: board.wide + 2 * MARGIN,
            high: board.high + 2 * MARGIN,
        };
        let longer = full.wide.max(full.high);
        Sheet {
            first: numbering.first,
            full,
            labels: small_labels(puzzle, longer.div_ceil(LONGER), numbering.tiles),
            small: Extent {
                wide: (LONGER * full.wide).div_ceil(longer),
                high: (LONGER * full.high).div_ceil(longer),
            },
            rows: even_rows(count, ACROSS),
        }
    }

    // The upper left corner of the thumbnail with this index, counted from 0.
    fn corner(self, index: u16) -> Point {
        let columns = self.rows.columns.max(1);
        Point {
            x: u64::from(index % columns) * u64::from(self.small.wide),
            y: u64::from(index / columns) * (u64::from(self.small.high) + u64::from(CAPTION)),
        }
    }
}

// What is drawn on the tiles of thumbnails, whose outlines are so wide, with numbers where they are wanted.
fn small_labels(puzzle: &Puzzle, outline: u32, numbers: bool) -> Labels {
    let numbers = if numbers {
        Some(size_on_a_sheet(puzzle.board().sides(), puzzle.tile_count()))
    } else {
        None
    };
    Labels {
        outline,
        signs: false,
        numbers,
    }
}

/// Up to 100 arrangements as one picture: each small, without signs, with its number below; where they are wanted, with
/// the number of each tile.
pub fn write_sheet(
    alloc: Global,
    puzzle: &Puzzle,
    arrangements: &[Arrangement],
    numbering: Numbering,
) -> Result<Vec<u8>, AllocError>
    requires some { 1 ≤ length arrangements.now }
    requires few { length arrangements.now ≤ 100 }
    requires first { numbering.first + length arrangements.now < 2 ^ 32 }
    requires arrangements { AreArrangements puzzle.now arrangements.now }
    ensures { IfOk result (λ text. IsSheet puzzle.now arrangements.now text.items) }
{
    let count = arrangements.len() as u16;
    let sheet = Sheet::new(puzzle, numbering, count);
    let mut text = begin_sheet(alloc, puzzle, arrangements, sheet)?;
    let pictures = thumbnails(alloc, puzzle, arrangements, sheet)?;
    let captions = caption_lines(alloc, &sheet, count)?;
    text.extend_from_slice(&pictures)?;
    put_group(
        &mut text,
        b"font-family=\"monospace\" font-size=\"14\" text-anchor=\"middle\"",
        &captions,
    )?;
    text.extend_from_slice(END)?;
    Ok(text)
}

// A picture of each arrangement, in order.
fn thumbnails(
    alloc: Global,
    puzzle: &Puzzle,
    arrangements: &[Arrangement],
    sheet: Sheet,
) -> Result<Vec<u8>, AllocError>
    requires few { length arrangements.now ≤ 100 }
    requires arrangements { AreArrangements puzzle.now arrangements.now }
    ensures { IfOk result (λ text. IsJoined (IsPictureAt puzzle.now arrangements.now) (length arrangements.now) text.items) }
{
    let labels = sheet.labels;
    let mut text = Vec::new(alloc);
    for index in 0..arrangements.len() {
        let frame = frame_line(alloc, &sheet, index as u16)?;
        let placements = arrangements[index].placements();
        let picture = draw_arrangement(alloc, puzzle, frame, placements, labels)?;
        text.extend_from_slice(&picture)?;
    }
    Ok(text)
}

// The first lines of the sheet.
fn begin_sheet(
    alloc: Global,
    puzzle: &Puzzle,
    arrangements: &[Arrangement],
    sheet: Sheet,
) -> Result<Vec<u8>, AllocError>
    requires few { length arrangements.now ≤ 100 }
    requires first { sheet.first + length arrangements.now < 2 ^ 32 }
{
    let words = board_words(alloc, puzzle.board().figure())?;
    let first = sheet.first;
    let last = (first + arrangements.len() as u32).saturating_sub(1);
    let title = format!(in alloc; "Arrangements {first} to {last}: {words}")?;
    let description = describe_list(alloc, puzzle, arrangements, first)?;
    let EvenRows { rows, columns } = sheet.rows;
    let wide = u64::from(columns) * u64::from(sheet.small.wide);
    let high = u64::from(rows) * (u64::from(sheet.small.high) + u64::from(CAPTION));
    begin_picture(alloc, wide, high, &title, &description)
}

// The first line of a thumbnail.
fn frame_line(alloc: Global, sheet: &Sheet, index: u16) -> Result<Vec<u8>, AllocError> {
    let corner = sheet.corner(index);
    let mut line = Vec::new(alloc);
    put_numbered(
        &mut line,
        &[
            ("<svg x=\"", corner.x),
            ("\" y=\"", corner.y),
            ("\" width=\"", u64::from(sheet.small.wide)),
            ("\" height=\"", u64::from(sheet.small.high)),
            ("\" viewBox=\"0 0 ", u64::from(sheet.full.wide)),
            (" ", u64::from(sheet.full.high)),
        ],
        b"\">\n",
    )?;
    Ok(line)
}

// The number below each thumbnail.
fn caption_lines(alloc: Global, sheet: &Sheet, count: u16) -> Result<Vec<u8>, AllocError> {
    let mut lines = Vec::new(alloc);
    for index in 0..count {
        let corner = sheet.corner(index);
        let middle = Point {
            x: corner.x.saturating_add(u64::from(sheet.small.wide / 2)),
            y: corner.y.saturating_add(u64::from(sheet.small.high)),
        };
        let caption = number(
            alloc,
            sheet.first.saturating_add(u32::from(index)),
            middle,
            6,
        )?;
        lines.extend_from_slice(caption.as_bytes())?;
        lines.push(b'\n')?;
    }
    Ok(lines)
}
