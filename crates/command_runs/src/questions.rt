//! The questions that documents ask.

ghost use Rattle.std.specs.Prelude.{◌≡◌, ◌≤◌, IfErr, IfOk};
ghost use Rattle.match_limits.specs.declared.TheConstants.{MOST_WORKERS};
ghost use Rattle.puzzle_symmetry.specs.Complete.{IsCompleteList};
ghost use Rattle.cert_check.specs.Answer.{IsAnswer};
ghost use Rattle.cert_check.specs.declared.faults.Answer.TheVariants.{Complete, Refused};
ghost use Rattle.byte_streams.specs.Documents.{AreShort};
ghost use Rattle.byte_streams.specs.LentTexts.{texts_of};
ghost use Rattle.command_runs.specs.Checking.{ReadsQuestion};

use crate::faults::RunFault;
use byte_streams::Documents;
use cert_check::{Answer, Fault, Open, Prepared, Question};
use cert_text::read_certificate;
use cert_tree::Certificate;
use match_puzzle::{Arrangement, Puzzle};
use match_text::{read_list, read_puzzle};
use std::alloc::{AllocError, Global};
use std::marker::Model;
use std::thread::Threads;
use text_crew::{ReadTexts, read_texts_with};

/// A question with its parts: the puzzle, the list, of at most 1,000,000 arrangements, and the certificate.
#[derive(Drop)]
pub struct OwnedQuestion {
    puzzle: Puzzle,
    listed: Vec<Arrangement>,
    certificate: Certificate,
}

impl Model for OwnedQuestion {
    ghost use Rattle.std.specs.Prelude.{◌≤◌, length};
    ghost use Rattle.std.specs.Coded.{codes};
    ghost use Rattle.match_limits.specs.declared.TheConstants.{MOST_ARRANGEMENTS};
    ghost use Rattle.cert_tree.specs.contracts.heads.Head as head;
    ghost use Rattle.cert_tree.specs.HeadCode.{tree_code};
    ghost use Rattle.cert_check.specs.Setting.{Question, question_of};

    ghost Value = { Question };

    ghost coded = { Prim.hlevel (codes, tree_code head.the_row.coded) };

    ghost view = { λ q. question_of q.puzzle q.listed.items q.certificate };

    ghost invariant = { λ q. length q.listed.items ≤ MOST_ARRANGEMENTS };
}

impl OwnedQuestion {
    ghost use Rattle.std.specs.Prelude.{◌≡◌};

    /// Returns the question.
    pub fn question(&self) -> Question<'_>
        ensures { result ≡ self.now }
    {
        Question::new(&self.puzzle, &self.listed, &self.certificate)
    }
}

/// Reads the question that the documents ask. An `Err` is their first fault, in the order of the documents; `Memory`
/// comes only where memory is refused.
pub fn read_question(alloc: Global, documents: &Documents<'_>) -> Result<OwnedQuestion, RunFault>
    requires { AreShort (texts_of documents.now) }
    ensures { ReadsQuestion (texts_of documents.now) result }
{
    let puzzle = read_puzzle(alloc, documents.puzzle)?;
    let listed = read_list(alloc, documents.list)?;
    let certificate = read_certificate(alloc, documents.certificate)?;
    Ok(OwnedQuestion {
        puzzle,
        listed,
        certificate,
    })
}

/// Reads the question that the documents ask, with `workers` workers that read the certificate beside the list. An
/// `Err` is their first fault, in the order of the documents; `Memory` comes only where memory is refused.
pub fn read_question_with<R: Threads + Sync>(
    rt: &R,
    alloc: Global,
    documents: &Documents<'_>,
    workers: u8,
) -> Result<OwnedQuestion, RunFault>
    requires short { AreShort (texts_of documents.now) }
    requires workers { (1 ≤ workers) × (workers ≤ MOST_WORKERS) }
    ensures { ReadsQuestion (texts_of documents.now) result }
{
    let puzzle = read_puzzle(alloc, documents.puzzle)?;
    let ReadTexts {
        listed,
        certificate,
    } = read_texts_with(rt, alloc, documents.list, documents.certificate, workers)?;
    let listed = listed?;
    let certificate = certificate?;
    Ok(OwnedQuestion {
        puzzle,
        listed,
        certificate,
    })
}

/// Checks a question on one thread. Returns it, prepared, where the list is complete; else the fault for which it is
/// refused. An `Err` comes where memory is refused.
pub(crate) fn checked<'a>(
    alloc: Global,
    question: &'a Question<'_>,
) -> Result<Result<Prepared<'a>, Fault>, AllocError>
    ensures same { IfOk result (λ r. IfOk r (λ prepared. prepared ≡ question.now)) }
    ensures answer { IfOk result (λ r. IfOk r (λ prepared. IsAnswer question.now Complete)) }
    ensures complete { IfOk result (λ r. IfOk r (λ prepared.
        IsCompleteList question.now.puzzle question.now.symmetries question.now.listed)) }
    ensures refused { IfOk result (λ r. IfErr r (λ fault. IsAnswer question.now (Refused fault))) }
{
    let prepared = match question.prepare(alloc, question.list_fault())? {
        Ok(prepared) => prepared,
        Err(fault) => return Ok(Err(fault)),
    };
    let found = prepared.trees_fault(alloc, &Open)?;
    match prepared.answer(found) {
        Answer::Complete => Ok(Ok(prepared)),
        Answer::Refused(fault) => Ok(Err(fault)),
    }
}
