//! Runs that describe a puzzle.

ghost use Rattle.std.specs.Prelude.{◌≡◌, IfOk};
ghost use Rattle.match_puzzle.specs.Puzzle.{IsPuzzle};
ghost use Rattle.byte_streams.specs.Moves.{reading_of, writing_of};
ghost use Rattle.byte_streams.specs.Origins.{one_source};
ghost use Rattle.byte_streams.specs.Targets.{one_sink};
ghost use Rattle.byte_streams.specs.declared.faults.Document.TheVariants as documents;
ghost use Rattle.command_runs.specs.Describing.{Describes, DescribeFails, IsBoardText, IsNoFaultText, IsSymmetriesText};
ghost use Rattle.command_runs.specs.Describing.{TellsOptions, TellsSize, options_text};
ghost use Rattle.command_runs.specs.Runs.{MadeOf, Runs, unhinted};

use crate::faults::RunFault;
use crate::hints::{HintedFault, hint_on, with_hint};
use crate::running::run_by;
use byte_streams::{Document, MadeText, OneSink, OneSource, Sink, Source, Text};
use cert_text::write_symmetries;
use count_search::work_of;
use match_limits::MOST_ENTRIES;
use match_puzzle::{Partial, Puzzle};
use match_symmetry::suggest;
use match_text::read_puzzle;
use show_pictures::write_puzzle_picture;
use show_reasons::write_reasons;
use show_text::{write_drawing, write_facts, write_work};
use std::alloc::{AllocError, Global};
use xcc_form::{CompileFault, Xcc, compile};

/// What is written about a puzzle.
#[derive(Clone, Copy)]
pub enum Description {
    /// A drawing of its empty board, with the numbers of its cells and the colours that the border and clues ask for.
    /// Below it: how many cells, tiles and colours there are, where each colour occurs, how many options a search has,
    /// and a guess of how many nodes it meets.
    Board,
    /// A picture of its empty board, with the colours that the border and clues ask for, and of each tile.
    Picture,
    /// Symmetries of it, at most 1,024: first how many, then a line for each, as in a certificate. They are those by
    /// which a solve of the puzzle may cite.
    Symmetries,
    /// That it has no fault, and what makes an arrangement of it impossible, as far as that is seen without a search.
    NoFault,
}

/// Reads a puzzle to its end, and writes what is asked about it.
///
/// `Read` and `TooLong` are about the puzzle. `Puzzle` comes where its text has a fault, with a hint of what has to be
/// changed there. After a fault other than `Write` nothing was written.
pub fn run_description<P: Source, W: Sink>(
    alloc: Global,
    puzzle: &mut P,
    description: Description,
    writer: &mut W,
) -> Result<(), HintedFault>
    ensures { Runs (one_source documents.Puzzle (reading_of P.Source puzzle.old puzzle.new)) (Describes description)
        DescribeFails (one_sink (writing_of W.Sink writer.old writer.new)) (unhinted result) }
{
    let mut inputs = OneSource {
        source: puzzle,
        document: Document::Puzzle,
    };
    let mut hint = None;
    let make = |text: &Text| -> Result<(MadeText, ()), RunFault>
        ensures { MadeOf (Describes description) DescribeFails text.now result }
    {
        let made = described(alloc, text, description);
        if let Err(fault) = &made {
            hint = hint_on(alloc, text.bytes(), b"", fault);
        }
        made
    };
    let ended = run_by(alloc, &mut inputs, make, &mut OneSink { sink: writer });
    with_hint(ended, hint)
}

// What to write about the puzzle with this text.
fn described(
    alloc: Global,
    text: &Text,
    description: Description,
) -> Result<(MadeText, ()), RunFault>
    ensures { MadeOf (Describes description) DescribeFails text.now result }
{
    let puzzle = read_puzzle(alloc, text.bytes())?;
    let printed = match description {
        Description::Board => board_text(alloc, &puzzle)?,
        Description::Picture => write_puzzle_picture(alloc, &puzzle)?,
        Description::Symmetries => symmetries_text(alloc, &puzzle)?,
        Description::NoFault => no_fault_text(alloc, &puzzle)?,
    };
    Ok((MadeText::new(printed), ()))
}

// The board of the puzzle, and facts about it.
fn board_text(alloc: Global, puzzle: &Puzzle) -> Result<Vec<u8>, AllocError>
    ensures { IfOk result (λ text. IsBoardText puzzle.now text.items) }
{
    let partial = Partial::new(alloc, puzzle)?;
    let mut text = write_drawing(alloc, &partial, None)?;
    let facts = write_facts(alloc, puzzle)?;
    let options = write_options(alloc, puzzle)?;
    text.extend_from_slice(&facts)?;
    text.extend_from_slice(&options)?;
    Ok(text)
}

// That the puzzle has no fault, and the reasons why it has no arrangement.
fn no_fault_text(alloc: Global, puzzle: &Puzzle) -> Result<Vec<u8>, AllocError>
    ensures { IfOk result (λ text. IsNoFaultText puzzle.now text.items) }
{
    let reasons = write_reasons(alloc, puzzle)?;
    let mut text = Vec::from_slice(alloc, b"puzzle: no fault\n")?;
    text.extend_from_slice(&reasons)?;
    Ok(text)
}

// How many options the puzzle has, how many items these have, and what work a search is; or that there are too many.
fn write_options(alloc: Global, puzzle: &Puzzle) -> Result<Vec<u8>, AllocError>
    ensures { IfOk result (λ text. TellsOptions puzzle.now text.items) }
{
    match compile(alloc, puzzle) {
        Ok(xcc) => size_text(alloc, &xcc),
        Err(CompileFault::TooMany) => Vec::from_slice(alloc, b"too many options\n"),
        Err(CompileFault::Memory) => Err(AllocError),
    }
}

// How many options there are, how many items these have, and how many nodes a search of them all is guessed to meet.
fn size_text(alloc: Global, xcc: &Xcc<'_>) -> Result<Vec<u8>, AllocError>
    ensures { IfOk result (λ text. TellsSize xcc.now text.items) }
{
    let mut text = option_lines(alloc, xcc.options(), xcc.entries())?;
    let nodes = work_of(alloc, xcc)?;
    let work = write_work(alloc, nodes)?;
    text.extend_from_slice(&work)?;
    Ok(text)
}

fn option_lines(alloc: Global, options: u32, items: u32) -> Result<Vec<u8>, AllocError>
    ensures { IfOk result (λ text. text.items ≡ options_text options items) }
{
    let text = format!(in alloc; "options {options}\nitems {items} of {MOST_ENTRIES}\n")?;
    Ok(text.into_bytes())
}

// The lines of symmetries of the puzzle.
fn symmetries_text(alloc: Global, puzzle: &Puzzle) -> Result<Vec<u8>, AllocError>
    requires { IsPuzzle puzzle.now }
    ensures { IfOk result (λ text. IsSymmetriesText puzzle.now text.items) }
{
    let lines = suggest(alloc, puzzle)?;
    let text = write_symmetries(alloc, &lines)?;
    Ok(text)
}
