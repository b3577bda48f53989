//! Draws boards as text.

ghost use Rattle.std.specs.Prelude.{◌≡◌, IfOk};
ghost use Rattle.show_text.specs.Drawing.{IsDrawing, digits_of};

use crate::rows::rows_of;
use crate::squares::write_squares;
use crate::triangles::{put_roof, put_triangles};
use match_board::Figure;
use match_puzzle::Partial;
use std::alloc::{AllocError, Global};

/// The board of a partial arrangement, drawn as text.
///
/// - A filled cell has its number, the number of its tile, and at each side the colour that the tile shows there.
/// - An empty cell has its number, and at each side the colour that the border or a clue asks for there, or a space.
/// - The number of the marked cell has a star after it. A mark that is no cell's number marks none.
/// - A square has three lines between its edges, and a triangle five lines. Where a shape has no cell there are spaces,
///   beside the edges of its neighbours.
/// - No line ends with a space, and each ends with LF.
///
/// An `Err` comes only where memory is refused. Time is in proportion to the text. Memory is for the text, for a line,
/// and for a few bytes at each place of the board.
pub fn write_drawing(
    alloc: Global,
    partial: &Partial<'_>,
    mark: Option<u16>,
) -> Result<Vec<u8>, AllocError>
    ensures { IfOk result (λ text. IsDrawing partial.now mark text.items) }
{
    let rows = rows_of(alloc, partial, mark)?;
    let board = partial.puzzle().board();
    match *board.figure() {
        Figure::Rectangle { width, .. } | Figure::Shape { width, .. } => {
            write_squares(alloc, &rows, width, digits(partial.puzzle().tile_count()))
        }
        Figure::Triangle { size } => {
            let mut text = Vec::new(alloc);
            put_triangles(alloc, &mut text, size, &rows)?;
            Ok(text)
        }
        Figure::Hexagon { size } => {
            let mut text = Vec::new(alloc);
            put_roof(alloc, &mut text, size)?;
            put_triangles(alloc, &mut text, size, &rows)?;
            Ok(text)
        }
    }
}

// How many digits the greatest number below `count` has, where `count` is at most 1,000.
fn digits(count: u16) -> u8
    ensures { result ≡ digits_of count }
{
    if count <= 10 {
        1
    } else if count <= 100 {
        2
    } else {
        3
    }
}
