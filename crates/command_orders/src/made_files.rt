//! Makes the files of a list and a certificate beside their names, and puts them there once everything is written.

ghost use Rattle.std.specs.Prelude.{◌≡◌, ◌⊎◌, IfOk, IfErr, OnErr};
ghost use Rattle.byte_streams.specs.MadeFiles.{MakesBoth, Undid};

use crate::files::hint_on;
use byte_streams::{FileFault, FileSystem, MadeFiles, NotMade, NotPut, ProductNames, make_both};
use command_runs::{HintedFault, RunFault};
use std::alloc::Global;

// Makes both files, the list's first, or neither; then the hint says why.
pub(crate) fn make_files<S: FileSystem>(
    alloc: Global,
    names: &ProductNames<'_>,
    system: &mut S,
) -> Result<MadeFiles<S::Writer>, HintedFault>
    ensures made { IfOk result (MakesBoth S.FileSystem names.now system.old system.new) }
    ensures undone { OnErr result (Undid names.now.list.now names.now.certificate.now S.does system.old system.new) }
    ensures fault { IfErr result (λ hinted. (hinted.fault ≡ RunFault.Write) ⊎ (hinted.fault ≡ RunFault.Memory)) }
{
    match make_both(alloc, names, system) {
        Ok(made) => Ok(made),
        Err(failed) => Err(not_made(alloc, failed)),
    }
}

// Why a file was not made.
fn not_made(alloc: Global, failed: NotMade<'_>) -> HintedFault
    ensures { (result.fault ≡ RunFault.Write) ⊎ (result.fault ≡ RunFault.Memory) }
{
    match failed.fault {
        FileFault::Refused(refusal) => {
            HintedFault {
                fault: RunFault::Write,
                hint: hint_on(alloc, failed.name, refusal),
            }
        }
        FileFault::Memory => HintedFault::from(RunFault::Memory),
    }
}

// The fault for a file that could not be put under its name.
pub(crate) fn not_put(alloc: Global, refused: &NotPut<'_>) -> HintedFault
    ensures { result.fault ≡ RunFault.Write }
{
    HintedFault {
        fault: RunFault::Write,
        hint: hint_on(alloc, refused.name, refused.refusal),
    }
}

// The fault for a name that leads to another file than the one that was put there.
pub(crate) fn replaced(alloc: Global, name: &str) -> HintedFault
    ensures { result.fault ≡ RunFault.Replaced }
{
    HintedFault {
        fault: RunFault::Replaced,
        hint: format!(in alloc;
            "{name}: it is another file by now; solve again, with other names"
        ).ok(),
    }
}
