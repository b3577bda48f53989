//! Runs that count the arrangements of a puzzle by a search.

ghost use Rattle.std.specs.Prelude.{◌≡◌, ◌<◌, ◌≤◌, ◌++◌, ◌⊎◌, IfOk, IfErr, MatchOption, OnOk, codes, length, vec_len};
ghost use Rattle.match_puzzle.specs.Arrangement.{HasArrangements};
ghost use Rattle.show_text.specs.Facts.{number_line};
ghost use Rattle.xcc_form.specs.Chosen.{IsSelection};
ghost use Rattle.count_search.specs.Branches.{AllChoose, HaveTogether, IsSplit};
ghost use Rattle.count_search.specs.declared.splits.TheConstants.{MOST_BRANCHES};
ghost use Rattle.byte_streams.specs.Moves.{reading_of, writing_of};
ghost use Rattle.byte_streams.specs.Origins.{one_source};
ghost use Rattle.byte_streams.specs.Targets.{one_sink};
ghost use Rattle.byte_streams.specs.declared.faults.Document.TheVariants as documents;
ghost use Rattle.count_totals.specs.Lines.{text_of};
ghost use Rattle.command_words.specs.Parts.{first_in, parts_with};
ghost use Rattle.command_words.specs.declared.orders.Extent.TheVariants as extents;
ghost use Rattle.command_runs.specs.Census.{AreCounts, AreNotCounted, CensusFails, CensusGives, CountsAll, CountsMore};
ghost use Rattle.command_runs.specs.Census.{CountsParts, CountsUpTo, IsNotCounted, PrintsCount, count_lines, part_lines};
ghost use Rattle.command_runs.specs.Census.{split_of};
ghost use Rattle.sha2.specs.Sha256.{sha256};
ghost use Rattle.command_runs.specs.Runs.{MadeOf, Runs, unhinted};

use crate::faults::RunFault;
use crate::hints::{HintedFault, hint_on, with_hint};
use crate::running::run_by;
use crate::suggested::suggested_symmetries;
use byte_streams::{Document, MadeText, OneSink, OneSource, Sink, Source, Text};
use command_words::{Extent, Parts};
use count_search::{
    Branch, CensusWatch, Count, count_arrangements, count_if_short, count_with_crew, hash_of,
    part_of, split,
};
use count_totals::{CountedPart, Line, SplitLine, put_line};
use match_limits::Workers;
use match_puzzle::Puzzle;
use match_symmetry::Suggested;
use match_text::read_puzzle;
use sha2::{Digest, Sha256};
use solver::SolveFault;
use std::alloc::{AllocError, Global};
use std::thread::Threads;
use text_words::put_number_line;
use xcc_form::{Xcc, compile};

// The least number of branches of a split for a search that may end early, if it has as many: enough for symmetries to
// merge them, and few enough to begin at once.
const SHORT: u32 = 256;

// The least number of branches of a split that workers share.
const SHARED: u32 = 4_096;

// The least number of branches of a split that is counted in parts.
const DEALT: u32 = 100_000;

/// What a search counts, with how many workers, and who watches it.
#[derive(Drop)]
pub struct CensusPlan<'w, W: CensusWatch> {
    pub extent: Extent,
    pub workers: Workers,
    pub watch: &'w W,
}

/// Reads a puzzle to its end, counts its arrangements by a search, and writes what `plan.extent` asks for:
///
/// - for all: a line `arrangements N`
/// - for whether there are more than `M`: `arrangements more than M` where there are, otherwise `arrangements N`
/// - for parts of the search: `puzzle DIGEST`, `split BRANCHES HASH`, and for each part `K` of `N`, in their order,
///   `part K/N arrangements M`
///
/// DIGEST is the SHA-256 of the puzzle's text. The parts of one split (the search cut into branches) add up; one call
/// makes one split.
///
/// `Read` and `TooLong` are about the puzzle. `Puzzle` comes where its text has a fault, with a hint of what has to be
/// changed there. `Solve(TooMany)` comes where its options have over 200,000 items together, and `Solve(Full)` where
/// 2^64 arrangements or more are counted, in one of several parts. After a fault other than `Write` nothing was
/// written.
pub fn run_census<P: Source, W: Sink, R: Threads + Sync, T: CensusWatch + Sync>(
    rt: &R,
    alloc: Global,
    puzzle: &mut P,
    plan: &CensusPlan<'_, T>,
    writer: &mut W,
) -> Result<(), HintedFault>
    ensures { Runs (one_source documents.Puzzle (reading_of P.Source puzzle.old puzzle.new)) (CensusGives plan.now.extent)
        (CensusFails plan.now.extent) (one_sink (writing_of W.Sink writer.old writer.new)) (unhinted result) }
{
    let mut inputs = OneSource {
        source: puzzle,
        document: Document::Puzzle,
    };
    let mut hint = None;
    let make = |text: &Text| -> Result<(MadeText, ()), RunFault>
        ensures { MadeOf (CensusGives plan.entry.now.extent) (CensusFails plan.entry.now.extent) text.now result }
    {
        let made = counted(rt, alloc, text, plan);
        if let Err(fault) = &made {
            hint = hint_on(alloc, text.bytes(), b"", fault);
        }
        made
    };
    let ended = run_by(alloc, &mut inputs, make, &mut OneSink { sink: writer });
    with_hint(ended, hint)
}

// What to print for the puzzle with this text.
fn counted<R: Threads + Sync, T: CensusWatch + Sync>(
    rt: &R,
    alloc: Global,
    text: &Text,
    plan: &CensusPlan<'_, T>,
) -> Result<(MadeText, ()), RunFault>
    ensures { MadeOf (CensusGives plan.now.extent) (CensusFails plan.now.extent) text.now result }
{
    let puzzle = read_puzzle(alloc, text.bytes())?;
    let spelled = SpelledPuzzle {
        text,
        puzzle: &puzzle,
    };
    let printed = count_text(rt, alloc, spelled, plan)?;
    Ok((MadeText::new(printed), ()))
}

// A puzzle and its text.
#[derive(Clone, Copy)]
struct SpelledPuzzle<'a, 'p> {
    text: &'a Text,
    puzzle: &'p Puzzle,
}

// What to print for the puzzle.
fn count_text<R: Threads + Sync, T: CensusWatch + Sync>(
    rt: &R,
    alloc: Global,
    spelled: SpelledPuzzle<'_, '_>,
    plan: &CensusPlan<'_, T>,
) -> Result<Vec<u8>, RunFault>
    ensures prints { IfOk result (λ text.
        PrintsCount plan.now.extent spelled.entry.text.now spelled.entry.puzzle.now text.items) }
    ensures fails { IfErr result (IsNotCounted plan.now.extent spelled.entry.puzzle.now) }
{
    match plan.extent {
        Extent::All => all_counted(rt, alloc, spelled.puzzle, plan),
        Extent::Most(most) => counted_to(alloc, spelled.puzzle, most, plan.watch),
        Extent::Parts(parts) => parts_counted(rt, alloc, spelled, parts, plan),
    }
}

// Counts all arrangements.
fn all_counted<R: Threads + Sync, T: CensusWatch + Sync>(
    rt: &R,
    alloc: Global,
    puzzle: &Puzzle,
    plan: &CensusPlan<'_, T>,
) -> Result<Vec<u8>, RunFault>
    ensures prints { IfOk result (λ text. CountsAll puzzle.now text.items) }
    ensures fails { IfErr result (IsNotCounted extents.All puzzle.now) }
{
    let xcc = compile(alloc, puzzle)?;
    let count = whole_count(rt, alloc, &xcc, plan)?;
    Ok(count_line(alloc, b"arrangements", count)?)
}

// How many arrangements there are: by a short search, if there is one, otherwise by branches that workers share.
fn whole_count<R: Threads + Sync, T: CensusWatch + Sync>(
    rt: &R,
    alloc: Global,
    xcc: &Xcc<'_>,
    plan: &CensusPlan<'_, T>,
) -> Result<u64, RunFault>
    ensures counted { IfOk result (HasArrangements xcc.now.puzzle) }
    ensures fails { IfErr result (IsNotCounted extents.All xcc.now.puzzle) }
{
    let _compiled = xcc.puzzle();
    let short = count_if_short(alloc, xcc)?;
    if let Some(count) = short {
        plan.watch.begins(1);
        plan.watch.counted(count);
        return Ok(count);
    }
    let branches = branches_of(alloc, xcc, SHARED)?;
    plan.watch.begins(branches.len());
    counted_together(rt, alloc, xcc, branches, plan)
}

// How many arrangements these branches have together.
fn counted_together<R: Threads + Sync, T: CensusWatch + Sync>(
    rt: &R,
    alloc: Global,
    xcc: &Xcc<'_>,
    branches: Vec<Branch>,
    plan: &CensusPlan<'_, T>,
) -> Result<u64, RunFault>
    requires selections { AllChoose (IsSelection xcc.now) branches.items }
    requires few { vec_len branches ≤ MOST_BRANCHES }
    ensures counted { IfOk result (HaveTogether xcc.now branches.items) }
    ensures fails { IfErr result (AreNotCounted extents.All xcc.now branches.items) }
{
    let count = Count {
        xcc,
        branches,
        watch: plan.watch,
    };
    let counted = count_with_crew(rt, alloc, count, plan.workers.get() as u8)?;
    let Some(count) = counted else {
        return Err(RunFault::Solve(SolveFault::Full));
    };
    Ok(count)
}

// How many arrangements there are, or that there are more than `most`.
fn counted_to<T: CensusWatch>(
    alloc: Global,
    puzzle: &Puzzle,
    most: u64,
    watch: &T,
) -> Result<Vec<u8>, RunFault>
    ensures prints { IfOk result (λ text. CountsUpTo most puzzle.now text.items ⊎ CountsMore most puzzle.now text.items) }
    ensures fails { IfErr result (IsNotCounted (extents.Most most) puzzle.now) }
{
    let xcc = compile(alloc, puzzle)?;
    let branches = branches_of(alloc, &xcc, SHORT)?;
    watch.begins(branches.len());
    let count = Count {
        xcc: &xcc,
        branches,
        watch,
    };
    let counted = count_arrangements(alloc, count, most)?;
    Ok(bounded_line(alloc, counted, most)?)
}

// The line that says how many there are, or that there are more than `most`.
fn bounded_line(alloc: Global, counted: Option<u64>, most: u64) -> Result<Vec<u8>, AllocError>
    ensures { IfOk result (λ text. MatchOption counted
        (text.items ≡ number_line (codes "arrangements more than") most)
        (λ count. text.items ≡ number_line (codes "arrangements") count)) }
{
    match counted {
        Some(count) => count_line(alloc, b"arrangements", count),
        None => count_line(alloc, b"arrangements more than", most),
    }
}

// How many arrangements each of these parts of the search has, and of which puzzle and which split.
fn parts_counted<R: Threads + Sync, T: CensusWatch + Sync>(
    rt: &R,
    alloc: Global,
    spelled: SpelledPuzzle<'_, '_>,
    parts: Parts,
    plan: &CensusPlan<'_, T>,
) -> Result<Vec<u8>, RunFault>
    ensures prints { IfOk result (λ text. CountsParts parts spelled.entry.text.now spelled.entry.puzzle.now text.items) }
    ensures fails { IfErr result (IsNotCounted (extents.Parts parts) spelled.entry.puzzle.now) }
{
    let xcc = compile(alloc, spelled.puzzle)?;
    let branches = branches_of(alloc, &xcc, DEALT)?;
    plan.watch.begins(dealt_to(&parts, branches.len()));
    let counts = counts_of(rt, alloc, &xcc, &branches, &parts, plan)?;
    Ok(parts_text(alloc, spelled.text.bytes(), &branches, &parts, &counts)?)
}

// How many of the branches belong to these parts.
fn dealt_to(parts: &Parts, branches: usize) -> usize {
    let all = parts.count() as usize;
    let earlier = parts.earlier() as usize;
    let last = earlier + parts.chosen() as usize;
    dealt_before(branches, last, all).saturating_sub(dealt_before(branches, earlier, all))
}

// How many of the branches belong to the first `parts` of all parts.
fn dealt_before(branches: usize, parts: usize, all: usize) -> usize
    requires { 0 < all }
{
    let each = branches / all;
    let left = branches % all;
    each.saturating_mul(parts).saturating_add(left.min(parts))
}

// How many arrangements each of the parts has that these branches belong to.
fn counts_of<R: Threads + Sync, T: CensusWatch + Sync>(
    rt: &R,
    alloc: Global,
    xcc: &Xcc<'_>,
    branches: &[Branch],
    parts: &Parts,
    plan: &CensusPlan<'_, T>,
) -> Result<Vec<u64>, RunFault>
    requires selections { AllChoose (IsSelection xcc.now) branches.now }
    requires few { length branches.now ≤ MOST_BRANCHES }
    ensures counted { IfOk result (λ v. AreCounts xcc.now branches.now parts.now v.items) }
    ensures fails { IfErr result (AreNotCounted (extents.Parts parts.now) xcc.now branches.now) }
{
    let mut counts = Vec::new(alloc);
    for later in 0..parts.chosen() {
        let dealt = part_of(alloc, branches, parts.earlier() + later, parts.count())?;
        let count = counted_together(rt, alloc, xcc, dealt, plan)?;
        let Ok(()) = counts.push(count) else {
            return Err(RunFault::Memory);
        };
    }
    Ok(counts)
}

// The lines of a puzzle with this text, of its split, and of the parts with their counts.
fn parts_text(
    alloc: Global,
    spelled: &[u8],
    branches: &[Branch],
    parts: &Parts,
    counts: &[u64],
) -> Result<Vec<u8>, AllocError>
    requires branches { length branches.now ≤ MOST_BRANCHES }
    requires counts { length counts.now ≤ 1000000 }
    ensures { IfOk result (λ text. text.items
        ≡ text_of (count_lines spelled.now branches.now parts.now counts.now)) }
{
    let mut text = Vec::new(alloc);
    put_line(alloc, &mut text, &Line::Puzzle(digest_of(spelled)))?;
    put_line(alloc, &mut text, &Line::Split(split_line(branches)))?;
    put_part_lines(alloc, &mut text, parts, counts)?;
    Ok(text)
}

// Writes the lines of these parts, with their counts.
fn put_part_lines(
    alloc: Global,
    text: &mut Vec<u8>,
    parts: &Parts,
    counts: &[u64],
) -> Result<(), AllocError>
    requires { length counts.now ≤ 1000000 }
    ensures { OnOk result (text.new.items
        ≡ text.old.items ++ text_of (part_lines (parts_with parts.now) (first_in parts.now) counts.now)) }
{
    let all = parts.count();
    let mut number = parts.earlier() + 1;
    for count in counts {
        let part = CountedPart {
            number,
            parts: all,
            count: *count,
        };
        put_line(alloc, text, &Line::Part(part))?;
        number += 1;
    }
    Ok(())
}

// The SHA-256 of the bytes.
fn digest_of(text: &[u8]) -> [u8; 32]
    ensures { result ≡ sha256 text.now }
{
    Sha256::digest(text)
}

// The branches of a split into at least `least`, merged by symmetries of the puzzle.
fn branches_of(alloc: Global, xcc: &Xcc<'_>, least: u32) -> Result<Vec<Branch>, AllocError>
    ensures split { IfOk result (λ v. IsSplit xcc.now v.items) }
    ensures selections { IfOk result (λ v. AllChoose (IsSelection xcc.now) v.items) }
    ensures few { IfOk result (λ v. vec_len v ≤ MOST_BRANCHES) }
{
    let symmetries = suggested_symmetries(alloc, xcc.puzzle(), Suggested::All)?;
    split(alloc, xcc, &symmetries, least)
}

// A line of this word and this number.
fn count_line(alloc: Global, word: &[u8], number: u64) -> Result<Vec<u8>, AllocError>
    ensures { IfOk result (λ text. text.items ≡ number_line word.now number) }
{
    let mut text = Vec::new(alloc);
    put_number_line(&mut text, word, number)?;
    Ok(text)
}

// How large a split is, and its hash.
fn split_line(branches: &[Branch]) -> SplitLine
    requires { length branches.now ≤ MOST_BRANCHES }
    ensures { result ≡ split_of branches.now }
{
    SplitLine {
        branches: branches.len() as u64,
        hash: hash_of(branches),
    }
}
