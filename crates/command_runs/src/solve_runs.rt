//! Runs of the solver.

ghost use Rattle.std.specs.Prelude.{◌≡◌, ℕ, List, ◌<◌, ◌^◌, IfErr, IfOk, Ok, length, true};
ghost use Rattle.match_text.specs.Lists.{list_of};
ghost use Rattle.match_text.specs.Puzzles.{PuzzleReads};
ghost use Rattle.match_puzzle.specs.Arrangement.{AreArrangements};
ghost use Rattle.text_crew.specs.Texts.{ReadsBack};
ghost use Rattle.byte_streams.specs.Moves.{reading_of, writing_of};
ghost use Rattle.byte_streams.specs.Origins.{one_source};
ghost use Rattle.byte_streams.specs.Targets.{three_sinks};
ghost use Rattle.byte_streams.specs.declared.faults.Document.TheVariants as documents;
ghost use Rattle.command_runs.specs.Runs.{MadeOf, Runs, unhinted};
ghost use Rattle.command_runs.specs.Solving.{AreProducts, IsFound, IsFoundComplete, IsNotChecked, SolveFails, SolveFailsBy, SolveFailsOf, SolveGives};
ghost use Rattle.command_runs.specs.Solving.{SolveGivesOf, checked_line, first_board, report_text, shares_of};

use crate::advice::{solve_hint, word_before};
use crate::faults::RunFault;
use crate::hints::{HintedFault, with_hint, without_hint};
use crate::running::run_by;
use crate::watches::{SolveWatch, Watched};
use byte_streams::{
    Document, Inputs, MadeText, OneSource, Outputs, Products, Sink, Source, Text, ThreeSinks,
};
use cert_check::{Answer, Open, Question, check_question};
use cert_tree::Certificate;
use match_limits::{Depth, Fuel, MOST_WORKERS, Workers};
use match_puzzle::{Arrangement, Puzzle};
use match_report::{Taken, write_answer, write_board, write_tally, write_verdict};
use match_text::read_puzzle;
use solver::{SearchPlan, Solved, Suggested, Unwatched, solve_watched};
use std::alloc::{AllocError, Global};
use std::sync::Wait;
use std::thread::Threads;
use text_crew::write_texts_with;
use text_words::put_number_line;

/// How a puzzle is solved.
#[derive(Clone, Copy)]
pub struct SolvePlan {
    pub search: SearchPlan,
    /// Whether what was found is checked before anything is written.
    pub check: bool,
}

/// Reads a puzzle to its end, and searches for all its arrangements. Writes their list, then a certificate for it, then
/// a report: how many were found, by how many lemmas, who took which lemma, and the first arrangement as it lies on the
/// board.
///
/// Branches in the first `depth` levels, 0 to 3, become lemmas before the search begins. Each lemma (a numbered claim
/// of the certificate) has at most `fuel` branch nodes, 1 to 1,000,000; `workers` workers search, 1 to 64.
///
/// `Read` and `TooLong` are about the puzzle. `Puzzle` comes where its text has a fault; `Solve` where the search gave
/// up, or the puzzle has too many options or arrangements. After a fault other than `Write` nothing was written.
pub fn run_solve<R: Threads + Wait + Sync, P: Source, L: Sink, C: Sink, W: Sink>(
    rt: &R,
    alloc: Global,
    puzzle: &mut P,
    depth: Depth,
    fuel: Fuel,
    workers: Workers,
    list: &mut L,
    certificate: &mut C,
    writer: &mut W,
) -> Result<(), RunFault>
    ensures { Runs (one_source documents.Puzzle (reading_of P.Source puzzle.old puzzle.new)) (SolveGives workers)
        (SolveFails workers) (three_sinks (writing_of L.Sink list.old list.new)
        (writing_of C.Sink certificate.old certificate.new) (writing_of W.Sink writer.old writer.new)) result }
{
    let mut inputs = OneSource {
        source: puzzle,
        document: Document::Puzzle,
    };
    let mut outputs = ThreeSinks {
        list,
        certificate,
        report: writer,
    };
    let search = SearchPlan {
        depth: Some(depth),
        fuel,
        workers,
        symmetries: Suggested::All,
    };
    let plan = SolvePlan {
        search,
        check: false,
    };
    let search = Watched {
        plan,
        watch: &Unwatched,
        hints: false,
    };
    without_hint(run_solve_watched(rt, alloc, &search, &mut inputs, &mut outputs))
}

/// Solves as [`run_solve`] does, by this plan, wherever the puzzle comes from and the texts go to. The watch is told of
/// the search while it runs. Each symmetry of the certificate is one of those that the plan asks for.
///
/// Where the plan has a check, what was found is checked before anything is written. What is written is then a complete
/// list with its certificate, and the report ends with the line `complete N`. `Refused` comes where the check refuses
/// what was found; the watch is told its answer, unless memory is refused to that.
///
/// Where a hint is wanted, it says what has to be changed in a text that has a fault; for a search that gave up or found
/// too many, how many arrangements may be expected, and what may help. There is no hint where memory is refused to it.
pub fn run_solve_watched<
    R: Threads + Wait + Sync,
    T: SolveWatch + Sync,
    I: Inputs<Texts = Text>,
    O: Outputs<Made = Products>,
>(
    rt: &R,
    alloc: Global,
    search: &Watched<'_, SolvePlan, T>,
    inputs: &mut I,
    outputs: &mut O,
) -> Result<(), HintedFault>
    ensures same { I.same inputs.old inputs.new × O.same outputs.old outputs.new }
    ensures run { let plan = search.now.plan in Runs (I.reads inputs.old inputs.new) (SolveGivesOf plan)
        (SolveFailsBy plan.search.workers plan.check) (O.writes outputs.old outputs.new) (unhinted result) }
{
    let mut hint = None;
    let make = |text: &Text| -> Result<(Products, ()), RunFault>
        ensures { let plan = search.entry.now.plan in
            MadeOf (SolveGivesOf plan) (SolveFailsBy plan.search.workers plan.check) text.now result }
    {
        let made = make_products(rt, alloc, text, search);
        if let (true, Err(fault)) = (search.hints, &made) {
            hint = solve_hint(alloc, text.bytes(), &search.plan.search, fault);
        }
        made
    };
    let ended = run_by(alloc, inputs, make, outputs);
    with_hint(ended, hint)
}

// What to write for a puzzle's text.
fn make_products<R: Threads + Wait + Sync, T: SolveWatch + Sync>(
    rt: &R,
    alloc: Global,
    text: &Text,
    search: &Watched<'_, SolvePlan, T>,
) -> Result<(Products, ()), RunFault>
    ensures { MadeOf (SolveGivesOf search.now.plan) (SolveFailsOf search.now.plan) text.now result }
{
    let puzzle = read_puzzle(alloc, text.bytes())?;
    tell_before(alloc, &puzzle, search);
    solved(rt, alloc, &puzzle, search)
}

// Where hints are wanted, says that more arrangements may be expected than a list can have.
fn tell_before<T: SolveWatch>(alloc: Global, puzzle: &Puzzle, search: &Watched<'_, SolvePlan, T>) {
    if !search.hints {
        return;
    }
    if let Some(advice) = word_before(alloc, puzzle, &search.plan.search) {
        search.watch.expects_many(&advice);
    }
}

// What to write for a puzzle that was read.
fn solved<R: Threads + Wait + Sync, T: SolveWatch + Sync>(
    rt: &R,
    alloc: Global,
    puzzle: &Puzzle,
    search: &Watched<'_, SolvePlan, T>,
) -> Result<(Products, ()), RunFault>
    ensures { (text : List ℕ) → PuzzleReads text (Ok puzzle.now)
        → MadeOf (SolveGivesOf search.now.plan) (SolveFailsOf search.now.plan) text result }
{
    // There are at most 64, and so are the lines of the report.
    let _workers_in_range = search.plan.search.workers.get();
    let Solved {
        list: listed,
        certificate,
        tally,
    } = solve_watched(rt, alloc, puzzle, search.plan.search, search.watch)?;
    let shares = shares(alloc, tally)?;
    let found = Found {
        puzzle,
        listed: &listed,
        certificate: &certificate,
        shares: &shares,
    };
    check_if_asked(rt, alloc, &found, search)?;
    let products = products_of(rt, alloc, &found, search)?;
    Ok((products, ()))
}

// What a solve of a puzzle found, and who took which lemma.
#[derive(Clone, Copy)]
struct Found<'a> {
    puzzle: &'a Puzzle,
    listed: &'a [Arrangement],
    certificate: &'a Certificate,
    shares: &'a [Taken],
}

// Checks what was found, where that is asked for. An `Err` is `Refused`, or `Memory`.
fn check_if_asked<R: Threads + Wait + Sync, T: SolveWatch + Sync>(
    rt: &R,
    alloc: Global,
    found: &Found<'_>,
    search: &Watched<'_, SolvePlan, T>,
) -> Result<(), RunFault>
    requires found { IsFound found.now }
    ensures complete { IfOk result (λ _. search.now.plan.check ≡ true → IsFoundComplete found.now) }
    ensures refused { IfErr result (IsNotChecked search.now.plan.check found.now) }
{
    if !search.plan.check {
        return Ok(());
    }
    search.watch.checks();
    let question = Question::new(found.puzzle, found.listed, found.certificate);
    let workers = search.plan.search.workers.get() as u8;
    match check_question(rt, alloc, &question, workers, 0, &Open)? {
        Answer::Complete => Ok(()),
        refused => {
            // Want of memory for the line doesn't hide the refusal.
            if let Ok(verdict) = write_verdict(alloc, &question, &refused) {
                search.watch.refuses(&verdict.line);
            }
            Err(RunFault::Refused)
        }
    }
}

// The texts of what was found. Those of the list and of the certificate read back as these.
fn products_of<R: Threads + Wait + Sync, T: SolveWatch + Sync>(
    rt: &R,
    alloc: Global,
    found: &Found<'_>,
    search: &Watched<'_, SolvePlan, T>,
) -> Result<Products, AllocError>
    requires found { IsFound found.now }
    ensures made { IfOk result (AreProducts found.now.puzzle.now found.now.listed.now found.now.certificate.now
        found.now.shares.now search.now.plan.check) }
    ensures list_reads { IfOk result (λ made. list_of made.list ≡ Ok found.now.listed.now) }
    ensures certificate_reads { IfOk result (λ made. ReadsBack made.certificate found.now.certificate.now) }
{
    let workers = search.plan.search.workers.get() as u8;
    let texts = write_texts_with(rt, alloc, found.listed, found.certificate, workers)?;
    let report = report_on(alloc, found, search.plan.check)?;
    search
        .watch
        .made(bytes_in(&texts.list), bytes_in(&texts.certificate));
    Ok(Products {
        list: MadeText::of_parts(texts.list),
        certificate: MadeText::of_parts(texts.certificate),
        report: MadeText::new(report),
    })
}

// How many bytes these parts have, for the watch.
fn bytes_in(parts: &[Vec<u8>]) -> usize {
    let mut sum: usize = 0;
    for part in parts {
        sum = sum.saturating_add(part.len());
    }
    sum
}

// The numbers that each worker took.
fn shares(alloc: Global, tally: Vec<Vec<u32>>) -> Result<Vec<Taken>, AllocError>
    ensures { IfOk result (λ shares. shares.items ≡ shares_of tally.items) }
{
    tally.into_iter().map(Taken::new).collect(alloc)
}

// The report: how many were found, by how many lemmas, who took them, and the first arrangement; and the answer where
// they were checked.
fn report_on(alloc: Global, found: &Found<'_>, check: bool) -> Result<Vec<u8>, AllocError>
    requires { IsFound found.now }
    ensures { IfOk result (λ text. text.items ≡ report_text found.now.puzzle.now found.now.listed.now
        (length found.now.certificate.now.lemmas) found.now.shares.now check) }
{
    let mut text = Vec::new(alloc);
    put_number_line(&mut text, b"found", found.listed.len() as u64)?;
    put_number_line(
        &mut text,
        b"lemmas",
        found.certificate.lemmas().len() as u64,
    )?;
    text.extend_from_slice(&write_tally(alloc, found.shares)?)?;
    text.extend_from_slice(&board_of_first(alloc, found.puzzle, found.listed)?)?;
    text.extend_from_slice(&line_of_check(alloc, found.listed, check)?)?;
    Ok(text)
}

// The answer that these are complete, where they were checked.
fn line_of_check(alloc: Global, listed: &[Arrangement], check: bool) -> Result<Vec<u8>, AllocError>
    requires { length listed.now < 2 ^ 32 }
    ensures { IfOk result (λ text. text.items ≡ checked_line check (length listed.now)) }
{
    if !check {
        return Ok(Vec::new(alloc));
    }
    write_answer(alloc, &Answer::Complete, listed.len() as u32)
}

// The first arrangement as it lies on the board, if there is one.
fn board_of_first(
    alloc: Global,
    puzzle: &Puzzle,
    listed: &[Arrangement],
) -> Result<Vec<u8>, AllocError>
    requires { AreArrangements puzzle.now listed.now }
    ensures { IfOk result (λ text. text.items ≡ first_board puzzle.now listed.now) }
{
    match listed.first() {
        None => Ok(Vec::new(alloc)),
        Some(arrangement) => write_board(alloc, puzzle, arrangement.placements()),
    }
}
