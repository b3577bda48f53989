//! Why a puzzle was not solved.

ghost use Rattle.std.specs.Prelude.{◌≡◌, Some};
ghost use Rattle.solver.specs.declared.faults.SolveFault.TheVariants.{Memory};
ghost use Rattle.solver.specs.Solving.{solve_of_compile};
ghost use Rattle.solver.specs.FaultText.{solve_fault_text};

use std::alloc::AllocError;
use std::error::Error;
use std::fmt;
use xcc_form::CompileFault;

/// Why a puzzle was not solved.
#[derive(Clone, Copy, PartialEq, Eq, Debug)]
pub enum SolveFault {
    /// The fuel of a lemma (the most branch nodes) was spent before its search was done.
    GaveUp,
    /// The options of the puzzle have over 200,000 items together, more than are searched.
    TooMany,
    /// More arrangements were found than may be listed: over 1,000,000.
    Full,
    Memory,
}

impl fmt::Display for SolveFault {
    ghost output = { λ fault. Some (solve_fault_text fault) };

    fn fmt<W: fmt::Write>(&self, f: &mut fmt::Formatter<W>) -> fmt::Result {
        f.write_str(match self {
            SolveFault::GaveUp => "gave up",
            SolveFault::TooMany => "too many options",
            SolveFault::Full => "too many arrangements",
            SolveFault::Memory => "out of memory",
        })
    }
}

impl Error for SolveFault {}

impl From<CompileFault> for SolveFault {
    ghost from_gives = { λ fault e. e ≡ solve_of_compile fault };

    fn from(fault: CompileFault) -> SolveFault {
        match fault {
            CompileFault::TooMany => SolveFault::TooMany,
            CompileFault::Memory => SolveFault::Memory,
        }
    }
}

impl From<AllocError> for SolveFault {
    ghost from_gives = { λ _ e. e ≡ Memory };

    fn from(_error: AllocError) -> SolveFault {
        SolveFault::Memory
    }
}
