//! What is said beside a fault.

ghost use Rattle.std.specs.Prelude.{◌≡◌};
ghost use Rattle.command_runs.specs.declared.faults.RunFault.TheVariants as runs;
ghost use Rattle.command_runs.specs.Runs.{unhinted};

use crate::faults::RunFault;
use byte_streams::Documents;
use show_hints::{certificate_hint, list_hint, puzzle_hint};
use std::alloc::{AllocError, Global};

/// Why a run stopped, and a hint, if there is one: what has to be changed in a text that has a fault, what may help
/// where a puzzle was not solved, or why a file is refused. Nothing depends on the hint.
#[derive(Drop)]
pub struct HintedFault {
    pub fault: RunFault,
    pub hint: Option<String>,
}

impl From<RunFault> for HintedFault {
    ghost from_gives = { λ fault e. e.fault ≡ fault };

    fn from(fault: RunFault) -> HintedFault {
        HintedFault { fault, hint: None }
    }
}

impl From<AllocError> for HintedFault {
    ghost from_gives = { λ _ e. e.fault ≡ runs.Memory };

    fn from(_error: AllocError) -> HintedFault {
        HintedFault {
            fault: RunFault::Memory,
            hint: None,
        }
    }
}

/// The outcome of a run, without its hint.
pub(crate) fn without_hint<E>(ended: Result<E, HintedFault>) -> Result<E, RunFault>
    ensures { result ≡ unhinted ended }
{
    match ended {
        Ok(ends) => Ok(ends),
        Err(hinted) => Err(hinted.fault),
    }
}

/// The outcome of a run, with this hint beside its fault.
pub(crate) fn with_hint<E>(
    ended: Result<E, RunFault>,
    hint: Option<String>,
) -> Result<E, HintedFault>
    ensures { unhinted result ≡ ended }
{
    match ended {
        Ok(ends) => Ok(ends),
        Err(fault) => Err(HintedFault { fault, hint }),
    }
}

/// What has to be changed in the text that has the fault. `None` where there is nothing to say, or memory is refused.
pub(crate) fn hint_of(
    alloc: Global,
    documents: &Documents<'_>,
    fault: &RunFault,
) -> Option<String> {
    let hint = match fault {
        RunFault::Puzzle(fault) => puzzle_hint(alloc, documents.puzzle, fault),
        RunFault::List(fault) => list_hint(alloc, documents.list, fault),
        RunFault::Certificate(fault) => certificate_hint(alloc, documents.certificate, fault),
        _ => Ok(None),
    };
    match hint {
        Ok(hint) => hint,
        Err(_) => None,
    }
}

/// What has to be changed in the text of the puzzle or of the list, whichever has the fault, where no certificate was
/// read. A text that wasn't read is empty here. `None` where there is nothing to say, or memory is refused.
pub(crate) fn hint_on(
    alloc: Global,
    puzzle: &[u8],
    list: &[u8],
    fault: &RunFault,
) -> Option<String> {
    let documents = Documents {
        puzzle,
        list,
        certificate: b"",
    };
    hint_of(alloc, &documents, fault)
}
