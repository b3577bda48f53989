//! Runs that draw an arrangement of a list.

ghost use Rattle.byte_streams.specs.Moves.{reading_of, writing_of};
ghost use Rattle.byte_streams.specs.Origins.{two_sources};
ghost use Rattle.byte_streams.specs.Targets.{one_sink};
ghost use Rattle.command_runs.specs.Listed.{DrawFails, DrawsListed};
ghost use Rattle.command_runs.specs.Runs.{MadeOf, Runs, unhinted};

use crate::faults::RunFault;
use crate::hints::{HintedFault, hint_on, with_hint};
use crate::running::run_by;
use byte_streams::{MadeText, OneSink, Sink, Source, TwoSources, TwoTexts};
use match_text::{read_list, read_puzzle};
use show_text::write_arrangement;
use std::alloc::Global;

/// Reads a puzzle and a list, each to its end and in this order, and writes a drawing of the board with the listed
/// arrangement with this number.
///
/// - `Read` and `TooLong` name the document; the list is not touched where that is the puzzle.
/// - `Puzzle` or `List` comes where a text has a fault, with a hint of what has to be changed there.
/// - `NoArrangement` comes where fewer are listed.
/// - `Arrangement` comes where the listed entry is no arrangement of the puzzle.
///
/// After a fault other than `Write` nothing was written.
pub fn run_listed<P: Source, L: Source, W: Sink>(
    alloc: Global,
    puzzle: &mut P,
    list: &mut L,
    number: u32,
    writer: &mut W,
) -> Result<(), HintedFault>
    ensures { Runs (two_sources (reading_of P.Source puzzle.old puzzle.new) (reading_of L.Source list.old list.new))
        (DrawsListed number) (DrawFails number) (one_sink (writing_of W.Sink writer.old writer.new)) (unhinted result) }
{
    let mut hint = None;
    let make = |texts: &TwoTexts| -> Result<(MadeText, ()), RunFault>
        ensures { MadeOf (DrawsListed number) (DrawFails number) texts.now result }
    {
        let made = drawn(alloc, texts, number);
        if let Err(fault) = &made {
            hint = hint_on(alloc, texts.puzzle.bytes(), texts.list.bytes(), fault);
        }
        made
    };
    let ended = run_by(
        alloc,
        &mut TwoSources { puzzle, list },
        make,
        &mut OneSink { sink: writer },
    );
    with_hint(ended, hint)
}

// The board with the listed arrangement with this number.
fn drawn(alloc: Global, texts: &TwoTexts, number: u32) -> Result<(MadeText, ()), RunFault>
    ensures { MadeOf (DrawsListed number) (DrawFails number) texts.now result }
{
    let puzzle = read_puzzle(alloc, texts.puzzle.bytes())?;
    let listed = read_list(alloc, texts.list.bytes())?;
    let Some(arrangement) = listed.get(number as usize) else {
        return Err(RunFault::NoArrangement(number));
    };
    let placements = arrangement.placements();
    if let Some(fault) = puzzle.arrangement_fault(placements) {
        return Err(RunFault::Arrangement(number, fault));
    }
    let drawing = write_arrangement(alloc, &puzzle, placements)?;
    Ok((MadeText::new(drawing), ()))
}
