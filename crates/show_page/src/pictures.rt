//! The pictures of a list that a page shows.

ghost use Rattle.std.specs.Prelude.{◌≡◌, ◌≤◌, IfOk, length, take};
ghost use Rattle.match_puzzle.specs.Arrangement.{AreArrangements};
ghost use Rattle.show_pictures.specs.Pictures.{IsLonePicture};
ghost use Rattle.show_pictures.specs.Plans.{IsListedAt};
ghost use Rattle.show_page.specs.Pictures.{IsFirstPicture, IsSheetOf};

use match_limits::Drawn;
use match_puzzle::{Arrangement, Puzzle};
use show_pictures::{Numbering, write_arrangement_picture, write_puzzle_picture, write_sheet};
use std::alloc::{AllocError, Global};

/// The pictures that a page shows: documents of SVG.
#[derive(Drop)]
pub struct PagePictures {
    /// The first listed arrangement by itself, or the puzzle where none is listed.
    pub first: Vec<u8>,
    /// A sheet of the first of those listed, or nothing where that would be less than two.
    pub sheet: Vec<u8>,
}

/// Draws the first listed arrangement, or the puzzle where none is listed, and a sheet of the first `most` of those
/// listed. It takes time in proportion to what is drawn. An error comes where memory is refused.
pub fn draw_pictures(
    alloc: Global,
    puzzle: &Puzzle,
    listed: &[Arrangement],
    most: Drawn,
) -> Result<PagePictures, AllocError>
    requires { AreArrangements puzzle.now listed.now }
    ensures first { IfOk result (λ pictures. IsFirstPicture puzzle.now listed.now pictures.first.items) }
    ensures sheet { IfOk result (λ pictures. IsSheetOf puzzle.now (take most listed.now) pictures.sheet.items) }
{
    let drawn = first_of(listed, most);
    let first = first_picture(alloc, puzzle, listed)?;
    let sheet = sheet_of(alloc, puzzle, drawn)?;
    Ok(PagePictures { first, sheet })
}

// The first `most` that are listed, or all where these are fewer.
fn first_of(listed: &[Arrangement], most: Drawn) -> &[Arrangement]
    ensures drawn { result.now ≡ take most listed.now }
    ensures few { length result.now ≤ 100 }
{
    let count = most.get() as usize;
    &listed[..count.min(listed.len())]
}

// The first listed arrangement, or the puzzle where none is listed.
fn first_picture(
    alloc: Global,
    puzzle: &Puzzle,
    listed: &[Arrangement],
) -> Result<Vec<u8>, AllocError>
    requires { AreArrangements puzzle.now listed.now }
    ensures { IfOk result (λ text. IsFirstPicture puzzle.now listed.now text.items) }
{
    if listed.is_empty() {
        return write_puzzle_picture(alloc, puzzle);
    }
    picture_of_first(alloc, puzzle, listed)
}

fn picture_of_first(
    alloc: Global,
    puzzle: &Puzzle,
    listed: &[Arrangement],
) -> Result<Vec<u8>, AllocError>
    requires some { 1 ≤ length listed.now }
    requires arrangements { AreArrangements puzzle.now listed.now }
    ensures { IfOk result (λ text. IsListedAt 0 (λ a. IsLonePicture puzzle.now a text.items) listed.now) }
{
    let placements = listed[0].placements();
    write_arrangement_picture(alloc, puzzle, placements, 0, false)
}

// A sheet of these, or nothing where they are less than two.
fn sheet_of(alloc: Global, puzzle: &Puzzle, drawn: &[Arrangement]) -> Result<Vec<u8>, AllocError>
    requires few { length drawn.now ≤ 100 }
    requires arrangements { AreArrangements puzzle.now drawn.now }
    ensures { IfOk result (λ text. IsSheetOf puzzle.now drawn.now text.items) }
{
    if drawn.len() < 2 {
        return Ok(Vec::new(alloc));
    }
    let numbering = Numbering {
        first: 0,
        tiles: false,
    };
    write_sheet(alloc, puzzle, drawn, numbering)
}
