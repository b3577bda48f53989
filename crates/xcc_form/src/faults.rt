//! Why a puzzle cannot be compiled, and why there is no solution or arrangement.

ghost use Rattle.std.specs.Prelude.{◌≡◌};
ghost use Rattle.xcc_form.specs.declared.faults.CompileFault.TheVariants as compile_faults;
ghost use Rattle.xcc_form.specs.declared.faults.FormFault.TheVariants as form_faults;

use std::alloc::{AllocError, AllocFailed};
use thiserror::Error;

/// Why a puzzle is not compiled: its options have over 200,000 items together, or memory ran out.
#[derive(Clone, Copy, PartialEq, Eq, Debug, Error)]
pub enum CompileFault {
    #[error("too many options")]
    TooMany,
    #[error("out of memory")]
    Memory,
}

impl From<AllocError> for CompileFault {
    ghost from_gives = { λ _ e. e ≡ compile_faults.Memory };

    fn from(_error: AllocError) -> CompileFault {
        CompileFault::Memory
    }
}

/// Why a conversion between arrangements and solutions has no result: what was given is neither, or memory ran out.
#[derive(Clone, Copy, PartialEq, Eq, Debug, Error)]
pub enum FormFault {
    /// The placements are no arrangement of the puzzle, or the options are no solution.
    #[error("not a solution")]
    NotASolution,
    #[error("out of memory")]
    Memory,
}

impl From<AllocError> for FormFault {
    ghost from_gives = { λ _ e. e ≡ form_faults.Memory };

    fn from(_error: AllocError) -> FormFault {
        FormFault::Memory
    }
}

impl<T: Drop> From<AllocFailed<T>> for FormFault {
    ghost from_gives = { λ _ e. e ≡ form_faults.Memory };

    fn from(_failed: AllocFailed<T>) -> FormFault {
        FormFault::Memory
    }
}
