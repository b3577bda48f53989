//! Documents of A4 pages with the tiles of a puzzle, to be printed and cut out.

ghost use Rattle.std.specs.Prelude.{◌≡◌, ◌<◌, ◌≤◌, IfOk, IfErr, OnOk, length};
ghost use Rattle.match_puzzle.specs.Arrangement.{IsArrangement};
ghost use Rattle.show_pictures.specs.Cuts.{IsCutDocument, IsCutDocumentFrom, IsCutDocumentWith, ShowsTiles};
ghost use Rattle.show_pictures.specs.Grown.{Wraps};
ghost use Rattle.show_pictures.specs.Pictures.{IsFullBoard};
ghost use Rattle.show_pictures.specs.Plans.{IsNotDrawn};

use crate::cut_layouts::side_length;
use crate::cut_pages::{begin_page, tile_pages};
use crate::cut_plans::CutPlan;
use crate::descriptions::describe_arrangement;
use crate::documents::board_words;
use crate::elements::put_numbered;
use crate::pictures::{MARGIN, lone_labels, put_full_board};
use crate::plans::{NotDrawn, PicturePlan, arrangements_to_draw};
use crate::sites::board_extent;
use crate::trays::unturned;
use match_limits::{ArrangementNumber, Drawn};
use match_puzzle::{Arrangement, Placement, Puzzle};
use std::alloc::{AllocError, Global};

const BEFORE_TITLE: &[u8] = br##"<!DOCTYPE html>
<html lang="en">
<head>
<meta charset="utf-8">
<meta name="viewport" content="width=device-width, initial-scale=1">
<title>Tiles to cut out: "##;

const BEHIND_TITLE: &[u8] = br##"</title>
<style>
@page { size: A4 portrait; margin: 0 }
html { background: #ddd; color: #222; font: 16px/1.5 sans-serif }
body { margin: 0 }
p { max-width: 40em; margin: 0 auto; padding: 1em }
.page { display: block; max-width: 100%; height: auto; margin: 0 auto 2em; background: #fff }
@media print {
  html { background: none }
  p { display: none }
  .page { max-width: none; height: 297mm; margin: 0; break-inside: avoid; break-after: page }
  .page:last-child { break-after: auto }
}
</style>
</head>
<body>
<p>Print these pages on A4 paper at 100&#160;%, and cut along the lines round the tiles.</p>
"##;

const DOCUMENT_END: &[u8] = b"</body>\n</html>\n";

/// A document (HTML) of A4 pages with each tile of the puzzle once, to be printed and cut out. The tiles are unturned,
/// in the puzzle's order, and apart from each other. An error comes where memory is refused.
pub fn write_cut_pages(alloc: Global, puzzle: &Puzzle, plan: CutPlan) -> Result<Vec<u8>, AllocError>
    ensures { IfOk result (λ text. IsCutDocument plan.size puzzle.now text.items) }
{
    let mut text = begin_document(alloc, puzzle)?;
    put_each_tile(alloc, &mut text, puzzle, plan)?;
    text.extend_from_slice(DOCUMENT_END)?;
    Ok(text)
}

/// A document (HTML) of A4 pages with each tile of the puzzle once, to be printed and cut out, and on a last page the
/// board with the listed arrangement of this number, from 0.
///
/// An `Err` is `NoArrangement` with the number, where the list has no more arrangements than that; `Arrangement` with
/// the number and the first fault, where that is no arrangement of the puzzle; or `Memory` where memory is refused.
pub fn write_cut_pages_with(
    alloc: Global,
    puzzle: &Puzzle,
    listed: &[Arrangement],
    number: ArrangementNumber,
    plan: CutPlan,
) -> Result<Vec<u8>, NotDrawn>
    ensures draws { IfOk result (λ text. IsCutDocumentFrom number plan.size puzzle.now listed.now text.items) }
    ensures fails { IfErr result (IsNotDrawn number 0 puzzle.now listed.now) }
{
    let alone = PicturePlan {
        number,
        first: Drawn::new(0),
        numbers: plan.numbers,
    };
    let drawn = arrangements_to_draw(puzzle, listed, &alone)?;
    let text = write_with_solution(alloc, puzzle, drawn[0].placements(), number.get(), plan)?;
    Ok(text)
}

// The document with the tiles, and behind them the arrangement with this number.
fn write_with_solution(
    alloc: Global,
    puzzle: &Puzzle,
    arrangement: &[Placement],
    number: u32,
    plan: CutPlan,
) -> Result<Vec<u8>, AllocError>
    requires { IsArrangement puzzle.now arrangement.now }
    ensures { IfOk result (λ text. IsCutDocumentWith plan.size puzzle.now arrangement.now text.items) }
{
    let labels = lone_labels(puzzle, plan.numbers);
    let begin = begin_solution(alloc, puzzle, arrangement, number)?;
    let mut text = begin_document(alloc, puzzle)?;
    put_each_tile(alloc, &mut text, puzzle, plan)?;
    text.extend_from_slice(&begin)?;
    put_full_board(alloc, &mut text, puzzle, arrangement, labels)?;
    text.extend_from_slice(b"</svg>\n</svg>\n")?;
    text.extend_from_slice(DOCUMENT_END)?;
    Ok(text)
}

// The document's text before its first page.
fn begin_document(alloc: Global, puzzle: &Puzzle) -> Result<Vec<u8>, AllocError> {
    let words = board_words(alloc, puzzle.board().figure())?;
    let mut text = Vec::from_slice(alloc, BEFORE_TITLE)?;
    text.extend_from_slice(words.as_bytes())?;
    text.extend_from_slice(BEHIND_TITLE)?;
    Ok(text)
}

// Writes pages with each tile, unturned.
fn put_each_tile(
    alloc: Global,
    text: &mut Vec<u8>,
    puzzle: &Puzzle,
    plan: CutPlan,
) -> Result<(), AllocError>
    ensures { OnOk result (Wraps (ShowsTiles plan.size puzzle.now) text.old.items text.new.items) }
{
    let tiles = unturned(alloc, puzzle.tile_count())?;
    let pages = tile_pages(alloc, puzzle, &tiles, plan)?;
    text.extend_from_slice(&pages)?;
    Ok(())
}

// The page of the arrangement, up to the board, which is made as large as the page takes.
fn begin_solution(
    alloc: Global,
    puzzle: &Puzzle,
    arrangement: &[Placement],
    number: u32,
) -> Result<Vec<u8>, AllocError>
    requires { IsArrangement puzzle.now arrangement.now }
{
    let words = board_words(alloc, puzzle.board().figure())?;
    let name = format!(in alloc; "Solution: arrangement {number}, {words}")?;
    let description = describe_arrangement(alloc, puzzle, arrangement)?;
    let said = format!(in alloc; "<title>{name}</title>\n<desc>{description}</desc>\n")?;
    let mut text = begin_page(alloc, puzzle)?;
    text.extend_from_slice(said.as_bytes())?;
    put_heading(&mut text, puzzle, &name)?;
    put_board_frame(&mut text, puzzle)?;
    Ok(text)
}

fn put_heading(text: &mut Vec<u8>, puzzle: &Puzzle, heading: &str) -> Result<(), AllocError> {
    let side = u64::from(side_length(puzzle));
    put_numbered(
        text,
        &[
            ("<text x=\"", 10 * side),
            ("\" y=\"", 16 * side),
            ("\" font-family=\"sans-serif\" font-size=\"", 5 * side),
        ],
        b"\">",
    )?;
    text.extend_from_slice(heading.as_bytes())?;
    text.extend_from_slice(b"</text>\n")
}

// The first tag of the picture of a board within a page.
fn put_board_frame(text: &mut Vec<u8>, puzzle: &Puzzle) -> Result<(), AllocError> {
    let side = u64::from(side_length(puzzle));
    let extent = board_extent(puzzle.board().figure());
    put_numbered(
        text,
        &[
            ("<svg x=\"", 10 * side),
            ("\" y=\"", 20 * side),
            ("\" width=\"", 190 * side),
            ("\" height=\"", 267 * side),
            (
                "\" viewBox=\"0 0 ",
                u64::from(extent.wide) + 2 * u64::from(MARGIN),
            ),
            (" ", u64::from(extent.high) + 2 * u64::from(MARGIN)),
        ],
        b"\">\n",
    )
}
