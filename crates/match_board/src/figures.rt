//! The figure that a board covers: where its cells stand, and which of their sides meet.

ghost use Rattle.std.specs.Prelude.{◌≡◌, ◌<◌, ◌≤◌, ℕ, IfSome, MatchBool};
ghost use Rattle.match_board.specs.Board.{cell_count, row_count, row_length, side_count, Meets, StandsAt, IsPlace};
ghost use Rattle.match_board.specs.Board.{LiesAgainst, IsBoard, IsPlain, IsFilled, cells_left};

use crate::{hexagons, rectangles, shapes, triangles};
use match_limits::{MOST_PLACES, MOST_SIDES};

/// The figure that a board covers, and how large it is.
#[derive(Clone, Copy, PartialEq, Eq, Debug)]
pub enum Figure {
    /// Columns and rows of squares; their sides are 0 north, 1 east, 2 south and 3 west.
    Rectangle {
        width: u16,
        height: u16,
    },
    /// A triangle of triangles that points up, with `size` of them at each side.
    Triangle {
        size: u16,
    },
    /// A hexagon of triangles with level top and bottom, with `size` of them at each side.
    Hexagon {
        size: u16,
    },
    /// Some of the squares of a rectangle: the places, row by row, at which the mask is true. Behind the rectangle's
    /// places it is false.
    Shape {
        width: u16,
        height: u16,
        mask: [bool; MOST_PLACES],
    },
}

impl Figure {
    /// How many cells there are. Those of a shape are counted where its board is made.
    #[tactic(auto, using(crate::proofs::Places::above_in_rectangle, crate::proofs::Places::above_in_triangle, crate::proofs::Places::cells_in_hexagon))]
    pub(crate) fn cells(&self) -> u64
        requires { IsPlain self.now }
        ensures { result ≡ cell_count self.now }
    {
        match *self {
            Figure::Rectangle { width, height } => u64::from(width) * u64::from(height),
            Figure::Triangle { size } => u64::from(size) * u64::from(size),
            Figure::Hexagon { size } => 6 * u64::from(size) * u64::from(size),
            Figure::Shape { .. } => unreachable!(),
        }
    }

    /// How many sides a cell has.
    pub(crate) fn sides(&self) -> u8
        ensures count { result ≡ side_count self.now }
        ensures few { result ≤ 4 }
    {
        match *self {
            Figure::Rectangle { .. } | Figure::Shape { .. } => MOST_SIDES,
            Figure::Triangle { .. } | Figure::Hexagon { .. } => 3,
        }
    }

    /// How many rows there are.
    pub fn rows(&self) -> u16
        requires { IsBoard self.now }
        ensures { result ≡ row_count self.now }
    {
        match *self {
            Figure::Rectangle { height, .. } => height,
            Figure::Triangle { size } => size,
            Figure::Hexagon { size } => 2 * size,
            Figure::Shape { height, .. } => height,
        }
    }

    /// How many places the row has.
    pub fn row_length(&self, row: u16) -> u16
        requires board { IsBoard self.now }
        requires row { row < row_count self.now }
        ensures { result ≡ row_length self.now row }
    {
        match *self {
            Figure::Rectangle { width, .. } | Figure::Shape { width, .. } => width,
            Figure::Triangle { .. } => 2 * row + 1,
            Figure::Hexagon { size } => hexagons::row_length(size, row),
        }
    }

    /// Whether there is a cell at the place of the row.
    pub fn is_filled(&self, row: u16, place: u16) -> bool
        requires board { IsBoard self.now }
        requires row { row < row_count self.now }
        requires place { place < row_length self.now row }
        ensures { MatchBool result (IsFilled self.now row place) (IsFilled self.now row place → ⊥) }
    {
        match *self {
            Figure::Rectangle { .. } | Figure::Triangle { .. } | Figure::Hexagon { .. } => true,
            Figure::Shape {
                width,
                ref mask,
                ..
            } => mask[usize::from(row * width + place)],
        }
    }

    /// The cell and the side that this side of the cell meets; `None` at the border.
    pub(crate) fn meets(&self, cell: u16, side: u8) -> Option<(u16, u8)>
        requires board { IsBoard self.now }
        requires cell { cell < cell_count self.now }
        requires side { side < side_count self.now }
        ensures within { IfSome result
            (λ other. (other.0 < cell_count self.now) × (other.1 < side_count self.now)) }
        ensures found { IfSome result (λ other. Meets self.now cell side other.0 other.1) }
        ensures only { (c k : ℕ) → Meets self.now cell side c k → result ≡ Some (c, k) }
    {
        let (row, place) = self.place_of(cell);
        let (row, place, side) = self.beside(row, place, side)?;
        Some((self.number_of(row, place), side))
    }

    // The row of the cell, and its place there.
    fn place_of(&self, cell: u16) -> (u16, u16)
        requires board { IsBoard self.now }
        requires cell { cell < cell_count self.now }
        ensures { StandsAt self.now cell result.0 result.1 }
    {
        let mut left = cell;
        for row in 0..self.rows() {
            let cells = self.cells_left(row, self.row_length(row));
            if left < cells {
                return (row, self.place_with(row, left));
            }
            left -= cells;
        }
        unreachable!()
    }

    // The cell at this place of the row.
    fn number_of(&self, row: u16, place: u16) -> u16
        requires board { IsBoard self.now }
        requires there { IsPlace self.now row place }
        ensures { StandsAt self.now result row place }
    {
        let mut above = 0;
        for higher in 0..row {
            above += self.cells_left(higher, self.row_length(higher));
        }
        above + self.cells_left(row, place)
    }

    // How many cells of the row stand left of the place.
    fn cells_left(&self, row: u16, place: u16) -> u16
        requires board { IsBoard self.now }
        requires row { row < row_count self.now }
        requires place { place ≤ row_length self.now row }
        ensures { result ≡ cells_left self.now row place }
    {
        match *self {
            Figure::Rectangle { .. } | Figure::Triangle { .. } | Figure::Hexagon { .. } => place,
            Figure::Shape {
                width,
                ref mask,
                ..
            } => shapes::marks(mask, usize::from(row * width), usize::from(place)) as u16,
        }
    }

    // The place of the row at which there is a cell with `left` cells left of it.
    fn place_with(&self, row: u16, left: u16) -> u16
        requires board { IsBoard self.now }
        requires row { row < row_count self.now }
        requires left { left < cells_left self.now row (row_length self.now row) }
        ensures there { IsPlace self.now row result }
        ensures left { cells_left self.now row result ≡ left }
    {
        match *self {
            Figure::Rectangle { .. } | Figure::Triangle { .. } | Figure::Hexagon { .. } => left,
            Figure::Shape {
                width,
                ref mask,
                ..
            } => shapes::place_with(width, mask, row * width, left),
        }
    }

    // The place that a side of this place lies against, and its side there.
    fn beside(&self, row: u16, place: u16, side: u8) -> Option<(u16, u16, u8)>
        requires board { IsBoard self.now }
        requires here { IsPlace self.now row place }
        requires side { side < side_count self.now }
        ensures side { IfSome result (λ n. n.2 < side_count self.now) }
        ensures found { IfSome result
            (λ n. IsPlace self.now n.0 n.1
            × LiesAgainst self.now row place side n.0 n.1 n.2) }
        ensures only { (r p k : ℕ) → IsPlace self.now r p
            → LiesAgainst self.now row place side r p k → result ≡ Some (r, p, k) }
    {
        match *self {
            Figure::Rectangle { width, height } => rectangles::beside(
                width, height, row, place, side,
            ),
            Figure::Triangle { size } => triangles::beside(size, row, place, side),
            Figure::Hexagon { size } => hexagons::beside(size, row, place, side),
            Figure::Shape {
                width,
                height,
                ref mask,
            } => shapes::beside(width, height, mask, row, place, side),
        }
    }
}
