//! Pictures of what a list has.

ghost use Rattle.std.specs.Prelude.{◌≤◌, IfOk, IfErr, length};
ghost use Rattle.match_puzzle.specs.Arrangement.{AreArrangements};
ghost use Rattle.show_pictures.specs.Plans.{IsNotDrawn};
ghost use Rattle.show_pictures.specs.Listed.{IsPictureFrom, IsPictureOf};

use crate::pictures::write_arrangement_picture;
use crate::plans::{NotDrawn, PicturePlan, arrangements_to_draw};
use crate::sheets::{Numbering, write_sheet};
use match_puzzle::{Arrangement, Puzzle};
use std::alloc::{AllocError, Global};

/// A picture of those arrangements of the list that the plan asks for.
///
/// An `Err` is `NoArrangement` with the number of the first, where the list has no more arrangements than that;
/// `Arrangement` with the first of those to be drawn that is no arrangement of the puzzle, and its first fault; or
/// `Memory` where memory is refused.
pub fn write_listed_picture(
    alloc: Global,
    puzzle: &Puzzle,
    listed: &[Arrangement],
    plan: &PicturePlan,
) -> Result<Vec<u8>, NotDrawn>
    ensures draws { IfOk result (λ text. IsPictureFrom plan.now.number plan.now.first puzzle.now listed.now text.items) }
    ensures fails { IfErr result (IsNotDrawn plan.now.number plan.now.first puzzle.now listed.now) }
{
    let drawn = arrangements_to_draw(puzzle, listed, plan)?;
    let picture = picture_of(alloc, puzzle, drawn, plan)?;
    Ok(picture)
}

// The picture of the first of these, or of all.
fn picture_of(
    alloc: Global,
    puzzle: &Puzzle,
    drawn: &[Arrangement],
    plan: &PicturePlan,
) -> Result<Vec<u8>, AllocError>
    requires some { 1 ≤ length drawn.now }
    requires few { length drawn.now ≤ 100 }
    requires arrangements { AreArrangements puzzle.now drawn.now }
    ensures { IfOk result (λ text. IsPictureOf plan.now.first puzzle.now drawn.now text.items) }
{
    let number = plan.number.get();
    if plan.first.get() > 0 {
        let numbering = Numbering {
            first: number,
            tiles: plan.numbers,
        };
        return write_sheet(alloc, puzzle, drawn, numbering);
    }
    let placements = drawn[0].placements();
    write_arrangement_picture(alloc, puzzle, placements, number, plan.numbers)
}
