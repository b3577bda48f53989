//! Files, by their names.

ghost use Rattle.std.specs.Prelude.{◌≡◌, ◌≢◌, ◌↔◌, false, IfOk, IfErr, IsTrue};
ghost use Rattle.command_orders.specs.Files.{HaveDifferentNames, puzzle_name};

use byte_streams::{Document, FileSystem, Refusal};
use command_runs::{HintedFault, RunFault};
use command_words::{Files, Place};
use std::alloc::{AllocError, Global};

/// Opens the file of a document; nothing of it is read yet. `Read` of the document comes where it can't be opened, and
/// the hint says why.
pub fn open<S: FileSystem>(
    alloc: Global,
    system: &S,
    name: &str,
    document: Document,
) -> Result<S::Reader, HintedFault>
    ensures opened { IfOk result (S.opens system.now name.now) }
    ensures unread { IfOk result (λ reader. (S.Reader.ended reader ≡ false) × (S.Reader.errors reader ≡ 0)) }
    ensures fault { IfErr result (λ hinted. (hinted.fault ≡ RunFault.Read document) × S.refuses system.now name.now) }
{
    match system.open(name) {
        Ok(file) => Ok(file),
        Err(refusal) => Err(HintedFault {
            fault: RunFault::Read(document),
            hint: hint_on(alloc, name, refusal),
        }),
    }
}

// Which file is refused, and why, unless memory is refused to it.
pub(crate) fn hint_on(alloc: Global, name: &str, refusal: Refusal) -> Option<String> {
    let words = refusal.words();
    format!(in alloc; "{name}: {words}").ok()
}

/// Whether the three files have different names.
pub fn have_different_names(puzzle: &str, list: &str, certificate: &str) -> bool
    ensures { IsTrue result
        ↔ ((puzzle.now ≢ list.now) × (puzzle.now ≢ certificate.now) × (list.now ≢ certificate.now)) }
{
    puzzle != list && puzzle != certificate && list != certificate
}

// The name of the file that has the puzzle of a solve: the system has one for standard input too.
fn puzzle_name(files: &Files) -> &str
    ensures { result.now ≡ puzzle_name files.now }
{
    match &files.puzzle {
        Place::File(name) => name,
        Place::Input => "/dev/stdin",
    }
}

// Whether the three files have different names and, as far as the system says, are three files.
pub(crate) fn are_apart<S: FileSystem>(
    alloc: Global,
    files: &Files,
    system: &S,
) -> Result<bool, AllocError>
    ensures { IfOk result (λ are. IsTrue are → HaveDifferentNames files.now) }
{
    let puzzle = puzzle_name(files);
    let list = &files.list;
    let certificate = &files.certificate;
    Ok(
        have_different_names(puzzle, list, certificate)
            && !system.may_lead_to_one(alloc, puzzle, list)?
            && !system.may_lead_to_one(alloc, puzzle, certificate)?
            && !system.may_lead_to_one(alloc, list, certificate)?,
    )
}
