//! Runs that draw arrangements of a list as a picture.

ghost use Rattle.byte_streams.specs.Moves.{reading_of, writing_of};
ghost use Rattle.byte_streams.specs.Origins.{two_sources};
ghost use Rattle.byte_streams.specs.Targets.{one_sink};
ghost use Rattle.command_runs.specs.Pictures.{DrawsPicture, PictureFails};
ghost use Rattle.command_runs.specs.Runs.{MadeOf, Runs, unhinted};

use crate::faults::RunFault;
use crate::hints::{HintedFault, hint_on, with_hint};
use crate::running::run_by;
use byte_streams::{MadeText, OneSink, Sink, Source, TwoSources, TwoTexts};
use match_text::{read_list, read_puzzle};
use show_pictures::{PicturePlan, write_listed_picture};
use std::alloc::Global;

/// Reads a puzzle and a list, each to its end and in this order, and writes a picture of the arrangements that are
/// asked for.
///
/// - `Read` and `TooLong` name the document; the list is not touched where that is the puzzle.
/// - `Puzzle` or `List` comes where a text has a fault, with a hint of what has to be changed there.
/// - `NoArrangement` has the first number, and comes where fewer are listed.
/// - `Arrangement` has the first entry to be drawn that is no arrangement of the puzzle.
///
/// After a fault other than `Write` nothing was written.
pub fn run_picture<P: Source, L: Source, W: Sink>(
    alloc: Global,
    puzzle: &mut P,
    list: &mut L,
    plan: PicturePlan,
    writer: &mut W,
) -> Result<(), HintedFault>
    ensures { Runs (two_sources (reading_of P.Source puzzle.old puzzle.new) (reading_of L.Source list.old list.new))
        (DrawsPicture plan.number plan.first) (PictureFails plan.number plan.first)
        (one_sink (writing_of W.Sink writer.old writer.new)) (unhinted result) }
{
    let mut hint = None;
    let make = |texts: &TwoTexts| -> Result<(MadeText, ()), RunFault>
        ensures { MadeOf (DrawsPicture plan.number plan.first) (PictureFails plan.number plan.first) texts.now result }
    {
        let made = pictured(alloc, texts, plan);
        if let Err(fault) = &made {
            hint = hint_on(alloc, texts.puzzle.bytes(), texts.list.bytes(), fault);
        }
        made
    };
    let ended = run_by(
        alloc,
        &mut TwoSources { puzzle, list },
        make,
        &mut OneSink { sink: writer },
    );
    with_hint(ended, hint)
}

// The picture of what the texts spell.
fn pictured(alloc: Global, texts: &TwoTexts, plan: PicturePlan) -> Result<(MadeText, ()), RunFault>
    ensures { MadeOf (DrawsPicture plan.number plan.first) (PictureFails plan.number plan.first) texts.now result }
{
    let puzzle = read_puzzle(alloc, texts.puzzle.bytes())?;
    let listed = read_list(alloc, texts.list.bytes())?;
    let picture = write_listed_picture(alloc, &puzzle, &listed, &plan)?;
    Ok((MadeText::new(picture), ()))
}
