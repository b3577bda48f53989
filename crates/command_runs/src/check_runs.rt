//! Runs of the checker.

ghost use Rattle.std.specs.Prelude.{IfOk};
ghost use Rattle.byte_streams.specs.Moves.{reading_of, writing_of};
ghost use Rattle.byte_streams.specs.Origins.{joined_source, three_sources};
ghost use Rattle.byte_streams.specs.Targets.{one_sink};
ghost use Rattle.command_runs.specs.Checking.{CheckFails, CheckGives, IsAnswered};
ghost use Rattle.command_runs.specs.Runs.{MadeOf, Runs, unhinted};

use crate::faults::RunFault;
use crate::hints::{HintedFault, hint_of, with_hint, without_hint};
use crate::questions::read_question_with;
use crate::running::run_by;
use crate::watches::{CheckSize, CheckWatch, Watched};
use byte_streams::{
    Inputs, JoinedSource, MadeText, OneSink, Outputs, OwnedDocuments, Sink, Source, ThreeSources,
};
use cert_check::{Open, Question, check_question};
use match_limits::{Forks, Workers};
use match_report::{Status, Verdict, write_verdict};
use std::alloc::{AllocError, Global};
use std::thread::Threads;

/// How a list is checked.
#[derive(Clone, Copy)]
pub struct CheckPlan {
    pub workers: Workers,
    pub forks: Forks,
}

/// Reads a puzzle, a list and a certificate, each to its end and in this order, and writes only the answer about them.
/// The answer is the same for any number of workers and of forks.
///
/// `Read` and `TooLong` name the document; those after it are not touched then. A fault of a document is the first one,
/// in the order of the documents. After a fault other than `Write` nothing was written.
pub fn run_check<P: Source, L: Source, C: Source, W: Sink, R: Threads + Sync>(
    rt: &R,
    alloc: Global,
    puzzle: &mut P,
    list: &mut L,
    certificate: &mut C,
    workers: Workers,
    forks: Forks,
    writer: &mut W,
) -> Result<Status, RunFault>
    ensures { Runs (three_sources (reading_of P.Source puzzle.old puzzle.new) (reading_of L.Source list.old list.new)
        (reading_of C.Source certificate.old certificate.new)) CheckGives CheckFails
        (one_sink (writing_of W.Sink writer.old writer.new)) result }
{
    let mut inputs = ThreeSources {
        puzzle,
        list,
        certificate,
    };
    let plan = CheckPlan { workers, forks };
    let check = Watched {
        plan,
        watch: &Open,
        hints: false,
    };
    let ended = run_check_watched(
        rt,
        alloc,
        &check,
        &mut inputs,
        &mut OneSink { sink: writer },
    );
    without_hint(ended)
}

/// Reads a puzzle, a list and a certificate, and writes the answer about them, wherever the documents come from and the
/// answer goes to. The watch is told of the check while it runs. Where a hint is wanted and a text has a fault, the
/// hint says what has to be changed there, unless memory is refused to it.
pub fn run_check_watched<
    I: Inputs<Texts = OwnedDocuments>,
    O: Outputs<Made = MadeText>,
    R: Threads + Sync,
    G: CheckWatch + Sync,
>(
    rt: &R,
    alloc: Global,
    check: &Watched<'_, CheckPlan, G>,
    inputs: &mut I,
    outputs: &mut O,
) -> Result<Status, HintedFault>
    ensures same { I.same inputs.old inputs.new × O.same outputs.old outputs.new }
    ensures run { Runs (I.reads inputs.old inputs.new) CheckGives CheckFails (O.writes outputs.old outputs.new)
        (unhinted result) }
{
    let mut hint = None;
    let make = |texts: &OwnedDocuments| -> Result<(MadeText, Status), RunFault>
        ensures { MadeOf CheckGives CheckFails texts.now result }
    {
        let made = answer_of(rt, alloc, texts, check);
        if let (true, Err(fault)) = (check.hints, &made) {
            hint = hint_of(alloc, &texts.lend(), fault);
        }
        made
    };
    let ended = run_by(alloc, inputs, make, outputs);
    with_hint(ended, hint)
}

/// Reads a puzzle, a list and a certificate, joined, to the end, and writes only the answer about them. The answer is
/// the same for any number of workers and of forks.
///
/// `Read` and `TooLong` are about the input. A fault of a document is the first one, in the order of the documents.
/// After a fault other than `Write` nothing was written.
pub fn run_joined<S: Source, W: Sink, R: Threads + Sync>(
    rt: &R,
    alloc: Global,
    reader: &mut S,
    workers: Workers,
    forks: Forks,
    writer: &mut W,
) -> Result<Status, RunFault>
    ensures { Runs (joined_source (reading_of S.Source reader.old reader.new)) CheckGives CheckFails
        (one_sink (writing_of W.Sink writer.old writer.new)) result }
{
    let plan = CheckPlan { workers, forks };
    let check = Watched {
        plan,
        watch: &Open,
        hints: false,
    };
    let mut input = JoinedSource { input: reader };
    let ended = run_check_watched(rt, alloc, &check, &mut input, &mut OneSink { sink: writer });
    without_hint(ended)
}

// The line of the answer about the texts.
fn answer_of<R: Threads + Sync, G: CheckWatch + Sync>(
    rt: &R,
    alloc: Global,
    texts: &OwnedDocuments,
    check: &Watched<'_, CheckPlan, G>,
) -> Result<(MadeText, Status), RunFault>
    ensures { MadeOf CheckGives CheckFails texts.now result }
{
    let workers = check.plan.workers.get() as u8;
    let owned = read_question_with(rt, alloc, &texts.lend(), workers)?;
    let verdict = verdict_of(rt, alloc, &owned.question(), check)?;
    Ok((MadeText::new(verdict.line), verdict.status))
}

// What to say about the answer to a question.
fn verdict_of<R: Threads + Sync, G: CheckWatch + Sync>(
    rt: &R,
    alloc: Global,
    question: &Question<'_>,
    check: &Watched<'_, CheckPlan, G>,
) -> Result<Verdict, AllocError>
    ensures { IfOk result (IsAnswered question.now) }
{
    let plan = check.plan;
    let (workers, forks) = (plan.workers.get() as u8, plan.forks.get() as u8);
    check.watch.begins(size_of_question(question));
    let answer = check_question(rt, alloc, question, workers, forks, check.watch)?;
    let verdict = write_verdict(alloc, question, &answer)?;
    Ok(verdict)
}

fn size_of_question(question: &Question<'_>) -> CheckSize {
    CheckSize {
        listed: question.listed().len(),
        symmetries: question.certificate().symmetries().len(),
        lemmas: question.lemmas().len() as usize,
    }
}
