//! Why there is no list, or no puzzle, of a text.

ghost use Rattle.std.specs.Prelude.{◌≡◌, Some};
ghost use Rattle.match_text.specs.declared.faults.PuzzleTextFault.TheVariants as puzzle_text;
ghost use Rattle.match_text.specs.Faults.{of_puzzle_text, of_puzzle};
ghost use Rattle.match_text.specs.FaultText.{puzzle_text_fault_text};

use match_board::BoardFault;
use match_puzzle::PuzzleFault;
use std::error::Error;
use std::fmt;
use text_words::{ReadFault, TextFault};

/// Why a text gives no list.
pub type ListTextFault = ReadFault;

/// Why a text gives no puzzle. Faults are looked for in the order in which they are listed here.
#[derive(Clone, Copy, PartialEq, Eq, Debug)]
pub enum PuzzleTextFault {
    Text(TextFault),
    /// The text has no fault, but the board that it describes is none.
    Board(BoardFault),
    /// The text and its board have no fault, but the puzzle has one.
    Puzzle(PuzzleFault),
    Memory,
}

impl fmt::Display for PuzzleTextFault {
    ghost output = { λ fault. Some (puzzle_text_fault_text fault) };

    fn fmt<W: fmt::Write>(&self, f: &mut fmt::Formatter<W>) -> fmt::Result {
        match self {
            PuzzleTextFault::Text(fault) => write!(f, "{fault}"),
            PuzzleTextFault::Board(fault) => write!(f, "{fault}"),
            PuzzleTextFault::Puzzle(fault) => write!(f, "{fault}"),
            PuzzleTextFault::Memory => f.write_str("out of memory"),
        }
    }
}

impl Error for PuzzleTextFault {}

impl From<ReadFault> for PuzzleTextFault {
    ghost from_gives = { λ fault e. e ≡ of_puzzle_text fault };

    fn from(fault: ReadFault) -> PuzzleTextFault {
        match fault {
            ReadFault::Text(fault) => PuzzleTextFault::Text(fault),
            ReadFault::Memory => PuzzleTextFault::Memory,
        }
    }
}

impl From<BoardFault> for PuzzleTextFault {
    ghost from_gives = { λ fault e. e ≡ puzzle_text.Board fault };

    fn from(fault: BoardFault) -> PuzzleTextFault {
        PuzzleTextFault::Board(fault)
    }
}

impl From<PuzzleFault> for PuzzleTextFault {
    ghost from_gives = { λ fault e. e ≡ of_puzzle fault };

    fn from(fault: PuzzleFault) -> PuzzleTextFault {
        match fault {
            PuzzleFault::Memory => PuzzleTextFault::Memory,
            fault => PuzzleTextFault::Puzzle(fault),
        }
    }
}
