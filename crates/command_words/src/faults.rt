//! Why words are no order.

ghost use Rattle.std.specs.Prelude.{◌≡◌};
ghost use Rattle.command_words.specs.Orders.{IsFaultOf};
ghost use Rattle.command_words.specs.declared.faults.WordsFault.TheVariants.{Memory};

use clap::error::ErrorKind;
use std::alloc::AllocError;
use thiserror::Error;

/// Why words are no order.
#[derive(Debug, Drop, Error)]
pub enum WordsFault {
    /// The words are wrong, or ask for help. The error has the text for the user, and says on which stream to print it.
    #[error("{0}")]
    Words(clap::Error),
    #[error("out of memory")]
    Memory,
}

impl From<clap::Error> for WordsFault {
    ghost from_gives = { IsFaultOf };

    fn from(error: clap::Error) -> WordsFault {
        match error.kind() {
            ErrorKind::OutOfMemory => WordsFault::Memory,
            _ => WordsFault::Words(error),
        }
    }
}

impl From<AllocError> for WordsFault {
    ghost from_gives = { λ _ e. e ≡ Memory };

    fn from(_error: AllocError) -> WordsFault {
        WordsFault::Memory
    }
}
