//! A board: its cells, and which of their sides meet.

ghost use Rattle.std.specs.Prelude.{◌≡◌, ◌↔◌, ◌<◌, ◌≤◌, ◌*◌, ℕ, ◌+◌, List, Some, length, IfOk, IfSome, MatchBool};
ghost use Rattle.match_board.specs.Board.{cell_count, side_count, Meets, IsBoard, IsBorderOrder, IsBorderPair};
ghost use Rattle.match_board.specs.Board.{IsBorderBefore, HasRoom, IsPlain, shape_of, second_figure};
ghost use Rattle.match_board.specs.FaultText.{board_fault_text};
ghost use Rattle.match_board.specs.declared.figures.Figure.TheVariants.{Rectangle, Triangle, Hexagon};

use crate::figures::Figure;
use crate::shapes;
use match_limits::{MOST_CELLS, MOST_PLACES, MOST_PLAIN_CELLS};
use std::error::Error;
use std::fmt;
use std::marker::Model;

/// Why a board can't be made: it would have no cells, or too many.
#[derive(Clone, Copy, PartialEq, Eq, Debug)]
pub enum BoardFault {
    Empty,
    TooLarge,
}

impl fmt::Display for BoardFault {
    ghost output = { λ fault. Some (board_fault_text fault) };

    fn fmt<W: fmt::Write>(&self, f: &mut fmt::Formatter<W>) -> fmt::Result {
        f.write_str(match self {
            BoardFault::Empty => "board empty",
            BoardFault::TooLarge => "board too-large",
        })
    }
}

impl Error for BoardFault {}

/// A board: a rectangle of squares, or a triangle or a hexagon of triangles, with 1 to 100 cells; or a shape, which has
/// 1 to 256 of the squares of a rectangle.
///
/// Cells are numbered from 0, row by row, from the top and from the left. The sides of a square are
/// 0 north, 1 east, 2 south and 3 west. Those of a triangle that points up are 0 north-east, 1 south
/// and 2 north-west, and of one that points down 0 south-west, 1 north and 2 south-east: sides of
/// triangles that meet have the same number. A side towards a missing cell of a shape meets nothing.
#[derive(Clone, Copy, PartialEq, Eq, Debug)]
pub struct Board {
    figure: Figure,
    // how many cells there are
    count: u16,
}

impl Model for Board {
    ghost use Rattle.std.specs.Prelude.{◌≡◌};
    ghost use Rattle.match_board.specs.Board.{IsBoard, cell_count};
    ghost use Rattle.match_board.specs.declared.figures.Figure.{Figure};

    ghost Value = { Figure };

    ghost view = { λ b. b.figure };

    ghost invariant = { λ b. IsBoard b.figure × (b.count ≡ cell_count b.figure) };

    ghost inverse = { λ s. record { figure = s; count = cell_count s } };
}

impl Board {
    /// The rectangle of this width and height.
    ///
    /// `Empty` where either is 0, and `TooLarge` where there are over 100 cells.
    #[tactic(auto, using(crate::proofs::Places::above_in_rectangle))]
    pub fn rect(width: u16, height: u16) -> Result<Board, BoardFault>
        ensures board { IfOk result (λ b. b ≡ Rectangle width height) }
        ensures fits { IfOk result IsBoard }
        ensures empty { (result ≡ Err BoardFault.Empty) ↔ (width * height ≡ 0) }
        ensures too_large { (result ≡ Err BoardFault.TooLarge) ↔ (MOST_PLAIN_CELLS < width * height) }
    {
        Board::of(Figure::Rectangle { width, height })
    }

    /// The triangle that points up, with this many cells at each side: `size * size` cells in all.
    ///
    /// `Empty` where the size is 0, and `TooLarge` where there are over 100 cells.
    #[tactic(auto, using(crate::proofs::Places::empty_triangle))]
    pub fn triangle(size: u16) -> Result<Board, BoardFault>
        ensures board { IfOk result (λ b. b ≡ Triangle size) }
        ensures fits { IfOk result IsBoard }
        ensures empty { (result ≡ Err BoardFault.Empty) ↔ (size ≡ 0) }
        ensures too_large { (result ≡ Err BoardFault.TooLarge) ↔ (MOST_PLAIN_CELLS < cell_count (Triangle size)) }
    {
        Board::of(Figure::Triangle { size })
    }

    /// The hexagon with level top and bottom, with this many cells at each side: `6 * size * size`
    /// cells in all.
    ///
    /// `Empty` where the size is 0, and `TooLarge` where there are over 100 cells.
    #[tactic(auto, using(crate::proofs::Places::empty_hexagon))]
    pub fn hexagon(size: u16) -> Result<Board, BoardFault>
        ensures board { IfOk result (λ b. b ≡ Hexagon size) }
        ensures fits { IfOk result IsBoard }
        ensures empty { (result ≡ Err BoardFault.Empty) ↔ (size ≡ 0) }
        ensures too_large { (result ≡ Err BoardFault.TooLarge) ↔ (MOST_PLAIN_CELLS < cell_count (Hexagon size)) }
    {
        Board::of(Figure::Hexagon { size })
    }

    /// The shape that has a cell at each place of a rectangle of this width and height at which the mask is true. The
    /// mask has the rectangle's places, row by row.
    ///
    /// `Empty` where there is no cell, and `TooLarge` where there are over 1,024 places or over 256 cells.
    pub fn shape(width: u16, height: u16, mask: &[bool]) -> Result<Board, BoardFault>
        requires { length mask.now ≡ height * width }
        ensures board { IfOk result (λ b. b ≡ shape_of width height mask.now) }
        ensures fits { IfOk result IsBoard }
        ensures empty { (result ≡ Err BoardFault.Empty) ↔ (cell_count (shape_of width height mask.now) ≡ 0) }
        ensures too_large { (result ≡ Err BoardFault.TooLarge)
            ↔ (1 ≤ cell_count (shape_of width height mask.now)) × (HasRoom (shape_of width height mask.now) → ⊥) }
    {
        let cells = shapes::marks(mask, 0, mask.len());
        if cells == 0 {
            return Err(BoardFault::Empty);
        }
        if mask.len() > MOST_PLACES || cells > usize::from(MOST_CELLS) {
            return Err(BoardFault::TooLarge);
        }
        let mask = shapes::kept(mask);
        Ok(Board {
            figure: Figure::Shape {
                width,
                height,
                mask,
            },
            count: cells as u16,
        })
    }

    /// The board that covers a rectangle, a triangle or a hexagon.
    ///
    /// `Empty` where it has no cells, and `TooLarge` where it has over 100.
    pub fn of(figure: Figure) -> Result<Board, BoardFault>
        requires { IsPlain figure }
        ensures board { IfOk result (λ b. b ≡ figure) }
        ensures fits { IfOk result IsBoard }
        ensures empty { (result ≡ Err BoardFault.Empty) ↔ (cell_count figure ≡ 0) }
        ensures too_large { (result ≡ Err BoardFault.TooLarge) ↔ (1 ≤ cell_count figure) × (HasRoom figure → ⊥) }
    {
        let cells = figure.cells();
        if cells == 0 {
            return Err(BoardFault::Empty);
        }
        if cells > u64::from(MOST_PLAIN_CELLS) {
            return Err(BoardFault::TooLarge);
        }
        Ok(Board {
            figure,
            count: cells as u16,
        })
    }

    /// A rectangle becomes the shape that has all its cells. Other boards stay as they are.
    pub fn second_form(&self) -> Board
        ensures { result ≡ second_figure self.now }
    {
        match self.figure {
            Figure::Rectangle { width, height } => Board {
                figure: Figure::Shape {
                    width,
                    height,
                    mask: shapes::full(self.count),
                },
                count: self.count,
            },
            _ => *self,
        }
    }

    /// The figure that the board covers.
    pub fn figure(&self) -> &Figure
        ensures { result.now ≡ self.now }
    {
        &self.figure
    }

    /// How many cells there are, from 1 to 256.
    pub fn cells(&self) -> u16
        ensures count { result ≡ cell_count self.now }
        ensures board { IsBoard self.now }
        ensures some { 1 ≤ result }
        ensures most { result ≤ MOST_CELLS }
    {
        self.count
    }

    /// How many sides a cell has: 4 in a rectangle or a shape, 3 in a triangle or a hexagon.
    pub fn sides(&self) -> u8
        ensures count { result ≡ side_count self.now }
        ensures few { result ≤ 4 }
    {
        self.figure.sides()
    }

    /// How many border pairs there are: sides of cells that meet nothing.
    ///
    /// It calls `meets` for each side of each cell.
    pub fn border_len(&self) -> u16
        ensures { (pairs : List (ℕ × ℕ)) × IsBorderOrder self.now pairs × (length pairs ≡ result) }
    {
        let mut count = 0;
        for cell in 0..self.cells() {
            count += self.border_sides(cell);
        }
        count
    }

    /// How many border pairs the cell has.
    pub fn border_sides(&self, cell: u16) -> u16
        requires { cell < cell_count self.now }
        ensures few { result ≤ 4 }
        ensures counts { (before : List (ℕ × ℕ)) → IsBorderBefore self.now (cell, 0) before
            → (pairs : List (ℕ × ℕ))
            × IsBorderBefore self.now (cell + 1, 0) pairs
            × (length pairs ≡ length before + result) }
    {
        let mut count = 0;
        for side in 0..self.sides() {
            if self.is_border(cell, side) {
                count += 1;
            }
        }
        count
    }

    /// Whether the side of the cell meets nothing.
    pub fn is_border(&self, cell: u16, side: u8) -> bool
        requires cell { cell < cell_count self.now }
        requires side { side < side_count self.now }
        ensures { MatchBool result
            (IsBorderPair self.now cell side)
            (IsBorderPair self.now cell side → ⊥) }
    {
        match self.meets(cell, side) {
            None => true,
            Some(_) => false,
        }
    }

    /// The cell and the side that this side of the cell meets; `None` at the border.
    ///
    /// It goes through the rows down to the cell.
    pub fn meets(&self, cell: u16, side: u8) -> Option<(u16, u8)>
        requires cell { cell < cell_count self.now }
        requires side { side < side_count self.now }
        ensures within { IfSome result
            (λ other. (other.0 < cell_count self.now) × (other.1 < side_count self.now)) }
        ensures found { IfSome result (λ other. Meets self.now cell side other.0 other.1) }
        ensures symmetric { IfSome result (λ other. Meets self.now other.0 other.1 cell side) }
        ensures only { (c k : ℕ) → Meets self.now cell side c k → result ≡ Some (c, k) }
    {
        self.figure.meets(cell, side)
    }
}
