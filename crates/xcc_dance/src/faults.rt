//! Why a search has no outcome.

ghost use Rattle.std.specs.Prelude.{◌≡◌};
ghost use Rattle.xcc_dance.specs.declared.faults.SearchFault.TheVariants as search_faults;

use std::alloc::AllocError;
use thiserror::Error;

/// Why a search has no outcome: it failed before, or memory ran out.
#[derive(Clone, Copy, PartialEq, Eq, Debug, Error)]
pub enum SearchFault {
    /// An earlier run gave up, or ran out of memory.
    #[error("failed")]
    Failed,
    #[error("out of memory")]
    Memory,
}

impl From<AllocError> for SearchFault {
    ghost from_gives = { λ _ e. e ≡ search_faults.Memory };

    fn from(_error: AllocError) -> SearchFault {
        SearchFault::Memory
    }
}
