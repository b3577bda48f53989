//! Why nothing is found.

ghost use Rattle.std.specs.Prelude.{◌≡◌};
ghost use Rattle.find_search.specs.declared.faults.FindFault.TheVariants.{Memory as memory};

use std::alloc::{AllocError, AllocFailed};

/// Why a search for some arrangements gave no answer.
#[derive(Clone, Copy, Debug, Drop, PartialEq, Eq)]
pub enum FindFault {
    /// The symmetries take one of the arrangements to more than 1,000,000.
    TooMany,
    /// Memory was refused.
    Memory,
}

impl From<AllocError> for FindFault {
    ghost from_gives = { λ _ e. e ≡ memory };

    fn from(_error: AllocError) -> FindFault {
        FindFault::Memory
    }
}

impl<T: Drop> From<AllocFailed<T>> for FindFault {
    ghost from_gives = { λ _ e. e ≡ memory };

    fn from(_error: AllocFailed<T>) -> FindFault {
        FindFault::Memory
    }
}
