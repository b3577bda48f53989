//! Runs that print a puzzle's tiles to be cut out.

ghost use Rattle.byte_streams.specs.Moves.{reading_of, writing_of};
ghost use Rattle.byte_streams.specs.Origins.{one_source, two_sources};
ghost use Rattle.byte_streams.specs.Targets.{one_sink};
ghost use Rattle.byte_streams.specs.declared.faults.Document.TheVariants as documents;
ghost use Rattle.command_runs.specs.Cuts.{PrintsCut, PrintsCutListed};
ghost use Rattle.command_runs.specs.Describing.{DescribeFails};
ghost use Rattle.command_runs.specs.Pictures.{PictureFails};
ghost use Rattle.command_runs.specs.Runs.{MadeOf, Runs, unhinted};

use crate::faults::RunFault;
use crate::hints::{HintedFault, hint_on, with_hint};
use crate::running::run_by;
use byte_streams::{
    Document, MadeText, OneSink, OneSource, Sink, Source, Text, TwoSources, TwoTexts,
};
use match_limits::ArrangementNumber;
use match_text::{read_list, read_puzzle};
use show_pictures::{CutPlan, write_cut_pages, write_cut_pages_with};
use std::alloc::Global;

/// Reads a puzzle to its end, and writes a document of A4 pages with each of its tiles, to be printed and cut out.
///
/// `Read` and `TooLong` are about the puzzle. `Puzzle` comes where its text has a fault, with a hint of what has to be
/// changed there. After a fault other than `Write` nothing was written.
pub fn run_cut<P: Source, W: Sink>(
    alloc: Global,
    puzzle: &mut P,
    plan: CutPlan,
    writer: &mut W,
) -> Result<(), HintedFault>
    ensures { Runs (one_source documents.Puzzle (reading_of P.Source puzzle.old puzzle.new)) (PrintsCut plan.size)
        DescribeFails (one_sink (writing_of W.Sink writer.old writer.new)) (unhinted result) }
{
    let mut inputs = OneSource {
        source: puzzle,
        document: Document::Puzzle,
    };
    let mut hint = None;
    let make = |text: &Text| -> Result<(MadeText, ()), RunFault>
        ensures { MadeOf (PrintsCut plan.size) DescribeFails text.now result }
    {
        let made = cut(alloc, text, plan);
        if let Err(fault) = &made {
            hint = hint_on(alloc, text.bytes(), b"", fault);
        }
        made
    };
    let ended = run_by(alloc, &mut inputs, make, &mut OneSink { sink: writer });
    with_hint(ended, hint)
}

// The pages of the puzzle with this text.
fn cut(alloc: Global, text: &Text, plan: CutPlan) -> Result<(MadeText, ()), RunFault>
    ensures { MadeOf (PrintsCut plan.size) DescribeFails text.now result }
{
    let puzzle = read_puzzle(alloc, text.bytes())?;
    let printed = write_cut_pages(alloc, &puzzle, plan)?;
    Ok((MadeText::new(printed), ()))
}

/// Reads a puzzle and a list, each to its end and in this order, and writes a document of A4 pages with each of the
/// puzzle's tiles, to be printed and cut out. On a last page is the listed arrangement of this number, from 0.
///
/// - `Read` and `TooLong` name the document; the list is not touched where that is the puzzle.
/// - `Puzzle` or `List` comes where a text has a fault, with a hint of what has to be changed there.
/// - `NoArrangement` has the number, and comes where fewer are listed.
/// - `Arrangement` has the number, and the fault of the entry where that is no arrangement of the puzzle.
///
/// After a fault other than `Write` nothing was written.
pub fn run_cut_listed<P: Source, L: Source, W: Sink>(
    alloc: Global,
    puzzle: &mut P,
    list: &mut L,
    number: ArrangementNumber,
    plan: CutPlan,
    writer: &mut W,
) -> Result<(), HintedFault>
    ensures { Runs (two_sources (reading_of P.Source puzzle.old puzzle.new) (reading_of L.Source list.old list.new))
        (PrintsCutListed number plan.size) (PictureFails number 0)
        (one_sink (writing_of W.Sink writer.old writer.new)) (unhinted result) }
{
    let mut hint = None;
    let make = |texts: &TwoTexts| -> Result<(MadeText, ()), RunFault>
        ensures { MadeOf (PrintsCutListed number plan.size) (PictureFails number 0) texts.now result }
    {
        let made = cut_listed(alloc, texts, number, plan);
        if let Err(fault) = &made {
            hint = hint_on(alloc, texts.puzzle.bytes(), texts.list.bytes(), fault);
        }
        made
    };
    let ended = run_by(
        alloc,
        &mut TwoSources { puzzle, list },
        make,
        &mut OneSink { sink: writer },
    );
    with_hint(ended, hint)
}

// The pages of what the texts spell.
fn cut_listed(
    alloc: Global,
    texts: &TwoTexts,
    number: ArrangementNumber,
    plan: CutPlan,
) -> Result<(MadeText, ()), RunFault>
    ensures { MadeOf (PrintsCutListed number plan.size) (PictureFails number 0) texts.now result }
{
    let puzzle = read_puzzle(alloc, texts.puzzle.bytes())?;
    let listed = read_list(alloc, texts.list.bytes())?;
    let printed = write_cut_pages_with(alloc, &puzzle, &listed, number, plan)?;
    Ok((MadeText::new(printed), ()))
}
