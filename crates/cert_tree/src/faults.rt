//! What may be wrong with pieces.

ghost use Rattle.std.specs.Prelude.{◌≡◌, Some};
ghost use Rattle.cert_tree.specs.FaultText.{assemble_fault_text};
ghost use Rattle.cert_tree.specs.declared.faults.AssembleFault.TheVariants as assemble;

use std::alloc::{AllocError, AllocFailed};
use std::error::Error;
use std::fmt;

/// Why pieces can't be assembled. Faults are looked for in the order in which they are listed here, and each names the
/// least number that has it.
#[derive(Clone, Copy, PartialEq, Eq, Debug)]
pub enum AssembleFault {
    /// A piece has this number, which is at or past the count.
    Stranger(u32),
    /// More than one piece has this number.
    Double(u32),
    /// No piece has this number, which is below the count.
    Missing(u32),
    Memory,
}

impl fmt::Display for AssembleFault {
    ghost output = { λ fault. Some (assemble_fault_text fault) };

    fn fmt<W: fmt::Write>(&self, f: &mut fmt::Formatter<W>) -> fmt::Result {
        match self {
            AssembleFault::Stranger(number) => write!(f, "stranger {number}"),
            AssembleFault::Double(number) => write!(f, "double {number}"),
            AssembleFault::Missing(number) => write!(f, "missing {number}"),
            AssembleFault::Memory => f.write_str("out of memory"),
        }
    }
}

impl Error for AssembleFault {}

impl From<AllocError> for AssembleFault {
    ghost from_gives = { λ _ e. e ≡ assemble.Memory };

    fn from(_error: AllocError) -> AssembleFault {
        AssembleFault::Memory
    }
}

impl<T: Drop> From<AllocFailed<T>> for AssembleFault {
    ghost from_gives = { λ _ e. e ≡ assemble.Memory };

    fn from(_error: AllocFailed<T>) -> AssembleFault {
        AssembleFault::Memory
    }
}
