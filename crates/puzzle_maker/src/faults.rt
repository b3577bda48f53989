//! Why no puzzle is made, and why a candidate won't do.

ghost use Rattle.std.specs.Prelude.{◌≡◌, Some};
ghost use Rattle.puzzle_maker.specs.FaultText.{make_fault_text};
ghost use Rattle.puzzle_maker.specs.Refusals.{IsMakeFaultBy, IsRefusalBy, IsRefusalOf};
ghost use Rattle.puzzle_maker.specs.declared.faults.MakeFault.TheVariants as makes;
ghost use Rattle.puzzle_maker.specs.declared.faults.Refusal.TheVariants as refusals;

use match_puzzle::PuzzleFault;
use puzzle_drafts::Misfit;
use std::alloc::{AllocError, AllocFailed};
use std::{error, fmt};
use thiserror::Error;
use xcc_form::CompileFault;

/// Why no puzzle is made.
#[derive(Clone, Copy, PartialEq, Eq, Debug)]
pub enum MakeFault {
    /// No puzzle can be as is asked. Nothing was drawn.
    Misfit(Misfit),
    /// As many candidates were tried as may be, and none will do.
    GaveUp,
    /// The options of a candidate are too many for it to be searched: to count its arrangements, to choose clues, or to
    /// guess its work.
    TooMany,
    Memory,
}

impl fmt::Display for MakeFault {
    ghost output = { λ fault. Some (make_fault_text fault) };

    fn fmt<W: fmt::Write>(&self, f: &mut fmt::Formatter<W>) -> fmt::Result {
        match self {
            MakeFault::Misfit(misfit) => write!(f, "{misfit}"),
            MakeFault::GaveUp => f.write_str("gave up"),
            MakeFault::TooMany => f.write_str("too many options"),
            MakeFault::Memory => f.write_str("out of memory"),
        }
    }
}

impl error::Error for MakeFault {}

impl From<AllocError> for MakeFault {
    ghost from_gives = { λ _ e. e ≡ makes.Memory };

    fn from(_error: AllocError) -> MakeFault {
        MakeFault::Memory
    }
}

impl From<CompileFault> for MakeFault {
    ghost from_gives = { IsMakeFaultBy };

    fn from(fault: CompileFault) -> MakeFault {
        match fault {
            CompileFault::TooMany => MakeFault::TooMany,
            CompileFault::Memory => MakeFault::Memory,
        }
    }
}

/// Why a candidate won't do.
#[derive(Clone, Copy, PartialEq, Eq, Debug, Error)]
pub enum Flaw {
    /// Two of its tiles are equal, or one is its own turn.
    #[error("equal tiles")]
    EqualTiles,
    /// It has more arrangements than this.
    #[error("more arrangements than {0}")]
    ManyArrangements(u8),
    /// It isn't what was drawn. This doesn't happen, but no proof says so.
    #[error("not as drawn")]
    NotAsDrawn,
}

/// Why a candidate isn't taken.
#[derive(Clone, Copy, Debug)]
pub(crate) enum Refusal {
    Flaw(Flaw),
    TooMany,
    Memory,
}

impl From<PuzzleFault> for Refusal {
    ghost from_gives = { IsRefusalOf };

    fn from(fault: PuzzleFault) -> Refusal {
        match fault {
            PuzzleFault::Memory => Refusal::Memory,
            _ => Refusal::Flaw(Flaw::NotAsDrawn),
        }
    }
}

impl From<CompileFault> for Refusal {
    ghost from_gives = { IsRefusalBy };

    fn from(fault: CompileFault) -> Refusal {
        match fault {
            CompileFault::TooMany => Refusal::TooMany,
            CompileFault::Memory => Refusal::Memory,
        }
    }
}

impl From<AllocError> for Refusal {
    ghost from_gives = { λ _ e. e ≡ refusals.Memory };

    fn from(_error: AllocError) -> Refusal {
        Refusal::Memory
    }
}

impl<T: Drop> From<AllocFailed<T>> for Refusal {
    ghost from_gives = { λ _ e. e ≡ refusals.Memory };

    fn from(_failed: AllocFailed<T>) -> Refusal {
        Refusal::Memory
    }
}
