//! What may be wrong with a puzzle or an arrangement.

ghost use Rattle.std.specs.Prelude.{◌≡◌, Some};
ghost use Rattle.match_puzzle.specs.FaultText.{puzzle_fault_text, arrangement_fault_text, prefix_fault_text};
ghost use Rattle.match_puzzle.specs.declared.faults.PuzzleFault.TheVariants.{Memory};

use std::alloc::AllocError;
use std::{error, fmt};

/// Why these parts are no puzzle. Faults are looked for in the order in which they are listed here.
#[derive(Clone, Copy, PartialEq, Eq, Debug)]
pub enum PuzzleFault {
    /// Cells have three sides, and tiles may not be turned.
    FixedTriangles,
    /// The number of tiles isn't that of the cells; in version 3, there are fewer tiles than cells, or more than 256.
    TileCount,
    /// The tile with this number, from 0, hasn't as many sides as a cell has. It is the first such tile.
    TileSides(u32),
    /// The border's rule at this place, from 0, asks for a colour of 36 or more. It is the first such place.
    BadColour(u32),
    /// The border's list hasn't as many rules as the board has outer sides.
    BorderLength,
    /// The colour with this number is the first that has no mate in the list, or a mate that has another mate. Where
    /// the list is longer than there are colours, this is the number of colours, 36.
    Mates(u32),
    /// The clue with this number, from 0, is the first whose cell isn't on the board or doesn't come after that of the
    /// clue before, that hasn't as many sides as a cell, or that asks for another colour than the border does.
    Clue(u32),
    Memory,
}

impl fmt::Display for PuzzleFault {
    ghost output = { λ fault. Some (puzzle_fault_text fault) };

    fn fmt<W: fmt::Write>(&self, f: &mut fmt::Formatter<W>) -> fmt::Result {
        match self {
            PuzzleFault::FixedTriangles => f.write_str("fixed-triangles"),
            PuzzleFault::TileCount => f.write_str("tile-count"),
            PuzzleFault::TileSides(tile) => write!(f, "tile-sides {tile}"),
            PuzzleFault::BadColour(place) => write!(f, "bad-colour {place}"),
            PuzzleFault::BorderLength => f.write_str("border-length"),
            PuzzleFault::Mates(place) => write!(f, "mates {place}"),
            PuzzleFault::Clue(number) => write!(f, "clue {number}"),
            PuzzleFault::Memory => f.write_str("out of memory"),
        }
    }
}

impl error::Error for PuzzleFault {}

impl From<AllocError> for PuzzleFault {
    ghost from_gives = { λ _ e. e ≡ Memory };

    fn from(_error: AllocError) -> PuzzleFault {
        PuzzleFault::Memory
    }
}

/// Why a list of placements is no arrangement: the first kind of fault here that occurs, at the least cell.
#[derive(Clone, Copy, PartialEq, Eq, Debug)]
pub enum ArrangementFault {
    /// There are not as many placements as cells.
    Length,
    /// The placement at this cell names no tile of the puzzle.
    TileRange(u32),
    /// The tile at this cell may not be turned so.
    Turn(u32),
    /// The tile at this cell is at an earlier cell too.
    TileTwice(u32),
    /// This side of this cell shows another colour than the border or a clue asks for.
    BorderBroken(u32, u32),
    /// This side of this cell meets another side, and what it shows isn't the mate of what that side shows.
    EdgeBroken(u32, u32),
}

impl fmt::Display for ArrangementFault {
    ghost output = { λ fault. Some (arrangement_fault_text fault) };

    fn fmt<W: fmt::Write>(&self, f: &mut fmt::Formatter<W>) -> fmt::Result {
        match self {
            ArrangementFault::Length => f.write_str("length"),
            ArrangementFault::TileRange(cell) => write!(f, "tile {cell}"),
            ArrangementFault::Turn(cell) => write!(f, "turn {cell}"),
            ArrangementFault::TileTwice(cell) => write!(f, "twice {cell}"),
            ArrangementFault::BorderBroken(cell, side) => write!(f, "border {cell} {side}"),
            ArrangementFault::EdgeBroken(cell, side) => write!(f, "edge {cell} {side}"),
        }
    }
}

impl error::Error for ArrangementFault {}

/// Why a list of pairs is no prefix: the fault of the first pair that has one. Where it has several, the first kind
/// here.
#[derive(Clone, Copy, PartialEq, Eq, Debug)]
pub enum PrefixFault {
    /// The pair at this place names no cell of the board, or none after the cell before it.
    Cell(u32),
    /// The pair at this place names no tile of the puzzle, or one that an earlier pair has.
    Tile(u32),
    /// The tile of the pair at this place may not be turned so.
    Turn(u32),
}

impl fmt::Display for PrefixFault {
    ghost output = { λ fault. Some (prefix_fault_text fault) };

    fn fmt<W: fmt::Write>(&self, f: &mut fmt::Formatter<W>) -> fmt::Result {
        match self {
            PrefixFault::Cell(place) => write!(f, "cell {place}"),
            PrefixFault::Tile(place) => write!(f, "tile {place}"),
            PrefixFault::Turn(place) => write!(f, "turn {place}"),
        }
    }
}

impl error::Error for PrefixFault {}
