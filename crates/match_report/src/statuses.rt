//! The result of a check, and how it is said.

ghost use Rattle.std.specs.Prelude.{◌≡◌, IfOk, length};
ghost use Rattle.cert_check.specs.Answer.{IsAnswer};
ghost use Rattle.match_report.specs.AnswerText.{answer_line};
ghost use Rattle.match_report.specs.Statuses.{status_of};

use crate::answers::write_answer;
use cert_check::{Answer, Question};
use std::alloc::{AllocError, Global};

/// The result of a check.
#[derive(Clone, Copy, PartialEq, Eq, Debug)]
pub enum Status {
    /// The list is complete.
    Complete,
    /// The certificate does not show that the list is complete.
    Refused,
}

impl Status {
    // The status of an answer.
    fn of_answer(answer: &Answer) -> Status
        ensures { result ≡ status_of answer.now }
    {
        match answer {
            Answer::Complete => Status::Complete,
            Answer::Refused(_) => Status::Refused,
        }
    }
}

/// The line of an answer, and its status.
#[derive(Drop)]
pub struct Verdict {
    pub line: Vec<u8>,
    pub status: Status,
}

/// Returns what to say about a question that has this answer.
///
/// An `Err` comes only where memory is refused.
pub fn write_verdict(
    alloc: Global,
    question: &Question<'_>,
    answer: &Answer,
) -> Result<Verdict, AllocError>
    requires { IsAnswer question.now answer.now }
    ensures line { IfOk result (λ verdict. verdict.line.items ≡ answer_line answer.now (length question.now.listed)) }
    ensures status { IfOk result (λ verdict. verdict.status ≡ status_of answer.now) }
{
    // its contract says that this is a puzzle
    let _ = question.puzzle().board();
    let line = write_answer(alloc, answer, question.listed().len() as u32)?;
    Ok(Verdict {
        line,
        status: Status::of_answer(answer),
    })
}
