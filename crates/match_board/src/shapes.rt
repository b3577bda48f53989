//! The cells of a shape, which are squares: some of the places of a rectangle.

ghost use Rattle.std.specs.Prelude.{◌≡◌, ◌<◌, ◌≤◌, ◌+◌, ◌*◌, ℕ, IfSome, true, length, replicate};
ghost use Rattle.match_board.specs.Board.{marks_from, mask_of, IsMarked, IsPlace, LiesAgainst};
ghost use Rattle.match_board.specs.declared.figures.Figure.TheVariants.{Shape};

use crate::rectangles;
use match_limits::{MOST_PLACES, MOST_PLAIN_CELLS};

/// How many cells the mask has among the first places, as many as are asked for.
pub fn marks(mask: &[bool], first: usize, more: usize) -> usize
    requires { first + more ≤ length mask.now }
    ensures count { result ≡ marks_from mask.now first more }
    ensures few { result ≤ more }
{
    let mut count = 0;
    for place in 0..more {
        if mask[first + place] {
            count += 1;
        }
    }
    count
}

/// The place in the row of the cell that has this many cells to its left.
pub fn place_with(width: u16, mask: &[bool; MOST_PLACES], first: u16, left: u16) -> u16
    requires room { first + width ≤ MOST_PLACES }
    requires left { left < marks_from mask.now first width }
    ensures within { result < width }
    ensures cell { IsMarked mask.now (first + result) }
    ensures left { marks_from mask.now first result ≡ left }
{
    let mut count = 0;
    for place in 0..width {
        if mask[usize::from(first + place)] {
            if count == left {
                return place;
            }
            count += 1;
        }
    }
    unreachable!()
}

/// The mask with as many places as a board keeps. The added places have no cells.
pub fn kept(mask: &[bool]) -> [bool; MOST_PLACES]
    requires { length mask.now ≤ MOST_PLACES }
    ensures { result ≡ mask_of mask.now }
{
    let mut kept = [false; MOST_PLACES];
    for (place, mark) in mask.iter().enumerate() {
        kept[place] = *mark;
    }
    kept
}

/// The mask with a cell at each of the first places, as many as are asked for.
pub fn full(places: u16) -> [bool; MOST_PLACES]
    requires { places ≤ MOST_PLAIN_CELLS }
    ensures { result ≡ mask_of (replicate places true) }
{
    let every = [true; MOST_PLAIN_CELLS as usize];
    kept(&every[..usize::from(places)])
}

/// The place next to this place on the side, and which side of that place lies there, if it has a cell.
pub fn beside(
    width: u16,
    height: u16,
    mask: &[bool; MOST_PLACES],
    row: u16,
    place: u16,
    side: u8,
) -> Option<(u16, u16, u8)>
    requires room { height * width ≤ MOST_PLACES }
    requires row { row < height }
    requires place { place < width }
    requires side { side < 4 }
    ensures side { IfSome result (λ n. n.2 < 4) }
    ensures found { IfSome result
        (λ n. IsPlace (Shape width height mask.now) n.0 n.1
        × LiesAgainst (Shape width height mask.now) row place side n.0 n.1 n.2) }
    ensures only { (r p k : ℕ) → IsPlace (Shape width height mask.now) r p
        → LiesAgainst (Shape width height mask.now) row place side r p k → result ≡ Some (r, p, k) }
{
    let (row, place, side) = rectangles::beside(width, height, row, place, side)?;
    if mask[usize::from(row * width + place)] {
        Some((row, place, side))
    } else {
        None
    }
}
