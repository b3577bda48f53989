//! The check of a certificate by a crew: several workers (threads) that share the lemmas as jobs.

ghost use Rattle.std.specs.Prelude.{◌≡◌, ◌<◌, ◌≤◌, ◌^◌, IfOk, IfErr, OnErr, length};
ghost use Rattle.std.specs.Thread.{IsSync};
ghost use Rattle.match_limits.specs.declared.TheConstants.{MOST_WORKERS, MOST_FORKS};
ghost use Rattle.cert_check.specs.Setting.{question_of};
ghost use Rattle.match_limits.specs.First.{IsFirst};
ghost use Rattle.cert_check.specs.Walk.{TellsOfArrangements, TellsOfRepeats, TellsOfTrees};
ghost use Rattle.match_puzzle.specs.Arrangement.{AreArrangements};
ghost use Rattle.cert_check.specs.Answer.{IsAnswer, IsSound, IsCovering, Occurs, fault_rank};
ghost use Rattle.cert_check.specs.Jobs.{IsJob, IsFinding};

use crate::faults::{Answer, Fault, TreeFault};
use crate::gates::Gate;
use crate::jobs::{Walks, first_found, walk_tree};
use crate::list_faults::list_fault_with;
use crate::prepared::Prepared;
use crate::questions::Question;
use crate::repeats::first_repeated;
use cert_tree::Certificate;
use match_puzzle::{Arrangement, ArrangementFault, Puzzle};
use std::alloc::{AllocError, Global};
use std::thread::Threads;
use steal_crew::{both, run_from_last};

// The first lemma whose tree has a fault, with its first fault; `None` where all trees hold. Each lemma is a job of a
// crew.
fn trees_fault<R: Threads + Sync, G: Gate + Sync>(
    rt: &R,
    alloc: Global,
    prepared: &Prepared<'_>,
    workers: u8,
    forks: u8,
    gate: &G,
) -> Result<Option<(u32, TreeFault)>, AllocError>
    requires workers { (1 ≤ workers) × (workers ≤ MOST_WORKERS) }
    requires forks { forks ≤ MOST_FORKS }
    ensures { IfOk result (TellsOfTrees prepared.now) }
{
    let count = prepared.question().lemmas().len() as u32;
    let walks = Walks {
        walk: &|number: u32| -> Result<Option<Box<TreeFault>>, AllocError>
            requires { IsSync R.row × IsSync G.row × IsJob prepared.now forks number }
            ensures { IfOk result (IsFinding prepared.entry.now number) }
        { walk_tree(rt, alloc, prepared, forks, gate, number) },
    };
    let found = run_from_last(rt, alloc, &walks, count, workers)?;
    first_found(alloc, &found)
}

// What [`Question::prepare`] returns. The list is verified while repetitions are looked for in it.
fn prepare<'a, R: Threads + Sync>(
    rt: &R,
    alloc: Global,
    question: &'a Question<'a>,
) -> Result<Result<Prepared<'a>, Fault>, AllocError>
    ensures prepared { IfOk result (λ r. IfOk r (λ prepared. prepared ≡ question.now)) }
    ensures fault { IfOk result (λ r. IfErr r (IsFirst fault_rank (Occurs question.now))) }
    ensures memory { OnErr result (AreArrangements question.now.puzzle question.now.listed) }
{
    let puzzle = question.puzzle();
    let listed = question.listed();
    let found = both(
        rt,
        || -> Result<Option<(u32, ArrangementFault)>, AllocError>
            requires { IsSync R.row × (length listed.now < 2 ^ 32) }
            ensures { IfOk result (TellsOfArrangements puzzle.entry.now listed.entry.now) }
        { Ok(list_fault_with(rt, puzzle, listed)) },
        || -> Result<Option<u32>, AllocError>
            requires { length listed.now < 2 ^ 32 }
            ensures { IfOk result (TellsOfRepeats listed.entry.now) }
        { first_repeated(alloc, listed) },
    );
    let Ok((bad, repeated)) = found else {
        // if memory is refused, no listed entry has a fault
        return question.prepare(alloc, question.list_fault());
    };
    match bad {
        None => question.prepare_listed(alloc, repeated),
        Some(_) => question.prepare(alloc, bad),
    }
}

// The answer to a question whose trees alone are still to be checked.
fn answer_by_crew<R: Threads + Sync, G: Gate + Sync>(
    rt: &R,
    alloc: Global,
    prepared: &Prepared<'_>,
    workers: u8,
    forks: u8,
    gate: &G,
) -> Result<Answer, AllocError>
    requires workers { (1 ≤ workers) × (workers ≤ MOST_WORKERS) }
    requires forks { forks ≤ MOST_FORKS }
    ensures answer { IfOk result (IsAnswer prepared.now) }
    ensures complete { IfOk result (IsSound prepared.now) }
    ensures covered { IfOk result (IsCovering prepared.now) }
    ensures arrangements { AreArrangements prepared.now.puzzle prepared.now.listed }
{
    // its contract says that each listed entry is an arrangement
    let _ = prepared.question();
    let found = trees_fault(rt, alloc, prepared, workers, forks, gate)?;
    Ok(prepared.answer(found))
}

/// Answers the question with 1 to 64 workers and 0 to 6 forks. Neither they nor the gate change the answer.
///
/// As many threads as the machine has processors verify the list; the caller looks for repetitions in it. Then each
/// lemma is a job of a crew. The worker that takes it tells the gate, and walks its tree on a board of its own. In a
/// tree of at least 10,000 nodes, in the first `forks` levels, the two halves of a branch's children are walked at the
/// same time. All lemmas are walked, and the first of those with a fault counts. One worker without forks does
/// everything in turn, on the caller's thread, and stops at the first fault.
///
/// It joins threads: one for each worker but the caller, and with forks one more for each branch with several children
/// in these levels, of which at most 2^`forks` - 1 run at once for a worker. Forks pay where a tree has many nodes
/// below them. An `Err` comes where memory is refused to any of the workers.
pub fn check_question<R: Threads + Sync, G: Gate + Sync>(
    rt: &R,
    alloc: Global,
    question: &Question<'_>,
    workers: u8,
    forks: u8,
    gate: &G,
) -> Result<Answer, AllocError>
    requires workers { (1 ≤ workers) × (workers ≤ MOST_WORKERS) }
    requires forks { forks ≤ MOST_FORKS }
    ensures answer { IfOk result (IsAnswer question.now) }
    // The main theorem: a list that is called complete is.
    ensures complete { IfOk result (IsSound question.now) }
    ensures covered { IfOk result (IsCovering question.now) }
    // If memory is refused, no listed entry has a fault.
    ensures memory { OnErr result (AreArrangements question.now.puzzle question.now.listed) }
{
    if workers == 1 && forks == 0 {
        return question.check(alloc, gate);
    }
    match prepare(rt, alloc, question)? {
        Ok(prepared) => answer_by_crew(rt, alloc, &prepared, workers, forks, gate),
        Err(fault) => Ok(Answer::Refused(fault)),
    }
}

/// Answers as [`check`](crate::check) does, with workers, forks and gate as in [`check_question`].
pub fn check_with<R: Threads + Sync, G: Gate + Sync>(
    rt: &R,
    alloc: Global,
    puzzle: &Puzzle,
    listed: &[Arrangement],
    certificate: &Certificate,
    workers: u8,
    forks: u8,
    gate: &G,
) -> Result<Answer, AllocError>
    requires listed { length listed.now < 2 ^ 32 }
    requires workers { (1 ≤ workers) × (workers ≤ MOST_WORKERS) }
    requires forks { forks ≤ MOST_FORKS }
    ensures answer { IfOk result (IsAnswer (question_of puzzle.now listed.now certificate.now)) }
    // The main theorem: a list that is called complete is.
    ensures complete { IfOk result (IsSound (question_of puzzle.now listed.now certificate.now)) }
    ensures covered { IfOk result (IsCovering (question_of puzzle.now listed.now certificate.now)) }
    // If memory is refused, no listed entry has a fault.
    ensures memory { OnErr result (AreArrangements puzzle.now listed.now) }
{
    let question = Question::new(puzzle, listed, certificate);
    check_question(rt, alloc, &question, workers, forks, gate)
}
