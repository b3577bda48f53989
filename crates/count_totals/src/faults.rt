//! What may be wrong with counted parts.

ghost use Rattle.std.specs.Prelude.{◌≡◌, Some};
ghost use Rattle.count_totals.specs.FaultText.{clash_text, parts_fault_text};
ghost use Rattle.count_totals.specs.declared.faults.PartsFault.TheVariants as faults;

use std::alloc::AllocError;
use std::error::Error;
use std::fmt;

/// What of a line doesn't go with those before it.
#[derive(Clone, Copy, PartialEq, Eq, Debug)]
pub enum Clash {
    /// It names another puzzle.
    Puzzle,
    /// It names another split.
    Split,
    /// It names one of `parts` parts, and a line before it names one of `earlier`.
    Parts {
        parts: u32,
        earlier: u32,
    },
    /// It names the part of this number with another count than this, which one before has.
    Count {
        number: u32,
        parts: u32,
        earlier: u64,
    },
}

#[tactic(auto, unfolding(crate::specs::FaultText::clash_text))]
impl fmt::Display for Clash {
    ghost output = { λ clash. Some (clash_text clash) };

    fn fmt<W: fmt::Write>(&self, f: &mut fmt::Formatter<W>) -> fmt::Result {
        match self {
            Clash::Puzzle => f.write_str("another puzzle"),
            Clash::Split => f.write_str("another split"),
            Clash::Parts { parts, earlier } => {
                write!(f, "of {parts} parts, and of {earlier} before")
            }
            Clash::Count {
                number,
                parts,
                earlier,
            } => write!(f, "part {number}/{parts} was {earlier} before"),
        }
    }
}

/// Why lines of counted parts have no total: the first fault, or want of memory.
#[derive(Clone, Copy, PartialEq, Eq, Debug)]
pub enum PartsFault {
    /// The last line, of this number, has no line end.
    Ends(u32),
    /// The line of this number is none that a count prints.
    Unknown(u32),
    /// The line of this number doesn't go with those before it.
    Clashes(u32, Clash),
    /// No line names a puzzle.
    NoPuzzle,
    /// No line names a split.
    NoSplit,
    /// No line names a part.
    NoPart,
    /// No line names the part of this number, of `parts` parts.
    Missing { number: u32, parts: u32 },
    Memory,
}

#[tactic(auto, unfolding(crate::specs::FaultText::parts_fault_text))]
impl fmt::Display for PartsFault {
    ghost output = { λ fault. Some (parts_fault_text fault) };

    fn fmt<W: fmt::Write>(&self, f: &mut fmt::Formatter<W>) -> fmt::Result {
        match self {
            PartsFault::Ends(line) => write!(f, "line {line}: no line end"),
            PartsFault::Unknown(line) => write!(f, "line {line}: no line of count --part"),
            PartsFault::Clashes(line, clash) => write!(f, "line {line}: {clash}"),
            PartsFault::NoPuzzle => f.write_str("no line puzzle"),
            PartsFault::NoSplit => f.write_str("no line split"),
            PartsFault::NoPart => f.write_str("no line part"),
            PartsFault::Missing { number, parts } => write!(f, "part {number}/{parts} is missing"),
            PartsFault::Memory => f.write_str("out of memory"),
        }
    }
}

impl Error for PartsFault {}

impl From<AllocError> for PartsFault {
    ghost from_gives = { λ _ e. e ≡ faults.Memory };

    fn from(_error: AllocError) -> PartsFault {
        PartsFault::Memory
    }
}
