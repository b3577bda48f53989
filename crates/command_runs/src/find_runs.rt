//! Runs that find some arrangements of a puzzle.

ghost use Rattle.std.specs.Prelude.{[], IfErr, IfOk, map};
ghost use Rattle.byte_streams.specs.Moves.{reading_of, writing_of};
ghost use Rattle.byte_streams.specs.Origins.{one_source};
ghost use Rattle.byte_streams.specs.Targets.{one_sink};
ghost use Rattle.byte_streams.specs.declared.faults.Document.TheVariants as documents;
ghost use Rattle.puzzle_symmetry.specs.Motion.{AreOfPuzzle, line_of};
ghost use Rattle.command_runs.specs.Finding.{FindFails, FindGives, IsNotFound, PrintsFound, TellOrbitsApart};
ghost use Rattle.command_runs.specs.Runs.{MadeOf, Runs, unhinted};

use crate::faults::RunFault;
use crate::hints::{HintedFault, hint_on, with_hint};
use crate::running::run_by;
use crate::suggested::suggested_symmetries;
use byte_streams::{Document, MadeText, OneSink, OneSource, Sink, Source, Text};
use command_words::MostFound;
use find_search::{Find, FindWatch, find_with_crew};
use match_limits::Workers;
use match_puzzle::Puzzle;
use match_symmetry::{Suggested, Symmetry};
use match_text::{read_puzzle, write_list};
use std::alloc::{AllocError, Global};
use std::random::RandomSource;
use std::thread::Threads;
use xcc_form::compile;

/// Which arrangements a search is to find, with how many workers, and who watches it.
#[derive(Drop)]
pub struct FindPlan<'w, W: FindWatch> {
    /// How many it finds at most.
    pub first: MostFound,
    /// By which symmetries orbits are told apart, of which only one arrangement each is wanted; `None` where all
    /// arrangements that differ are wanted.
    pub orbits: Option<Suggested>,
    /// What the random numbers of the first worker begin with.
    pub seed: u64,
    pub workers: Workers,
    pub watch: &'w W,
}

/// Reads a puzzle to its end, searches for some of its arrangements, and writes their list: at most `plan.first`. Where
/// it writes fewer, there is no other. With orbits it writes at most one of each, and there is no other but images of
/// these under the symmetries that the plan asks for, as far as those were found.
///
/// `Read` and `TooLong` are about the puzzle. `Puzzle` comes where its text has a fault, with a hint of what has to be
/// changed there. `Solve(TooMany)` comes where its options have over 200,000 items together, and `Expand` where one
/// orbit has over 1,000,000 arrangements. After a fault other than `Write` nothing was written.
pub fn run_find<P: Source, W: Sink, R: Threads + Sync + RandomSource, T: FindWatch + Sync>(
    rt: &R,
    alloc: Global,
    puzzle: &mut P,
    plan: &FindPlan<'_, T>,
    writer: &mut W,
) -> Result<(), HintedFault>
    ensures { Runs (one_source documents.Puzzle (reading_of P.Source puzzle.old puzzle.new))
        (FindGives plan.now.first plan.now.orbits) (FindFails plan.now.orbits)
        (one_sink (writing_of W.Sink writer.old writer.new)) (unhinted result) }
{
    let mut inputs = OneSource {
        source: puzzle,
        document: Document::Puzzle,
    };
    let mut hint = None;
    let make = |text: &Text| -> Result<(MadeText, ()), RunFault>
        ensures { MadeOf (FindGives plan.entry.now.first plan.entry.now.orbits) (FindFails plan.entry.now.orbits) text.now
            result }
    {
        let made = found(rt, alloc, text, plan);
        if let Err(fault) = &made {
            hint = hint_on(alloc, text.bytes(), b"", fault);
        }
        made
    };
    let ended = run_by(alloc, &mut inputs, make, &mut OneSink { sink: writer });
    with_hint(ended, hint)
}

// What to print for the puzzle with this text.
fn found<R: Threads + Sync + RandomSource, T: FindWatch + Sync>(
    rt: &R,
    alloc: Global,
    text: &Text,
    plan: &FindPlan<'_, T>,
) -> Result<(MadeText, ()), RunFault>
    ensures { MadeOf (FindGives plan.now.first plan.now.orbits) (FindFails plan.now.orbits) text.now result }
{
    let puzzle = read_puzzle(alloc, text.bytes())?;
    let printed = found_text(rt, alloc, &puzzle, plan)?;
    Ok((MadeText::new(printed), ()))
}

// The list of what is found.
fn found_text<R: Threads + Sync + RandomSource, T: FindWatch + Sync>(
    rt: &R,
    alloc: Global,
    puzzle: &Puzzle,
    plan: &FindPlan<'_, T>,
) -> Result<Vec<u8>, RunFault>
    ensures prints { IfOk result (λ text. PrintsFound plan.now.first plan.now.orbits puzzle.now text.items) }
    ensures fails { IfErr result (IsNotFound plan.now.orbits puzzle.now) }
{
    let xcc = compile(alloc, puzzle)?;
    let symmetries = symmetries_of(alloc, puzzle, plan.orbits)?;
    let find = Find {
        xcc: &xcc,
        symmetries: &symmetries,
        most: plan.first.get(),
        seed: plan.seed,
        watch: plan.watch,
    };
    let listed = find_with_crew(rt, alloc, find, plan.workers.get() as u8)?;
    let text = write_list(alloc, &listed)?;
    Ok(text)
}

// The symmetries by which orbits are told apart.
fn symmetries_of<'a>(
    alloc: Global,
    puzzle: &'a Puzzle,
    orbits: Option<Suggested>,
) -> Result<Vec<Symmetry<'a>>, AllocError>
    ensures puzzle { IfOk result (λ v. AreOfPuzzle puzzle.now v.items) }
    ensures apart { IfOk result (λ v. TellOrbitsApart puzzle.now orbits (map line_of v.items)) }
{
    match orbits {
        Some(asked) => suggested_symmetries(alloc, puzzle, asked),
        None => Ok(Vec::new(alloc)),
    }
}
