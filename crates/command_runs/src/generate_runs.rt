//! Runs that make a puzzle.

ghost use Rattle.std.specs.Prelude.{IfErr, IfOk};
ghost use Rattle.byte_streams.specs.Moves.{reading_of, writing_of};
ghost use Rattle.byte_streams.specs.Origins.{no_source, one_source};
ghost use Rattle.byte_streams.specs.Targets.{one_sink};
ghost use Rattle.byte_streams.specs.declared.faults.Document.TheVariants as documents;
ghost use Rattle.command_runs.specs.Generating.{GenerateFails, GenerateGives, IsNotMadeLike, LikeFails, LikeGives, PrintsLike};
ghost use Rattle.command_runs.specs.Runs.{MadeOf, Runs, unhinted};

use crate::faults::RunFault;
use crate::hints::{HintedFault, hint_on, with_hint};
use crate::running::run_by;
use byte_streams::{Document, MadeText, NoSource, OneSink, OneSource, Sink, Source, Text};
use match_puzzle::Puzzle;
use match_text::{read_puzzle, write_puzzle};
use puzzle_drafts::{Draft, PlainRules};
use puzzle_maker::{MakerWatch, make_puzzle, make_puzzle_like};
use std::alloc::Global;

/// Makes a puzzle by these rules as the draft asks, and writes its text.
///
/// `Make` says why none was made. It has a `Misfit`, the first reason why what is asked can't be had; or `GaveUp` where
/// as many candidates were tried as the draft allows, which doesn't say that there is no such puzzle; or `TooMany` where
/// candidates are to be searched (their arrangements are counted, their clues chosen or their work is guessed), and the
/// options of one have over 200,000 items together. After a fault other than `Write` nothing was written.
pub fn run_generate<W: Sink, T: MakerWatch>(
    alloc: Global,
    rules: &PlainRules,
    draft: &Draft,
    watch: &T,
    writer: &mut W,
) -> Result<(), RunFault>
    ensures { Runs no_source (GenerateGives rules.now draft.now) (GenerateFails rules.now draft.now)
        (one_sink (writing_of W.Sink writer.old writer.new)) result }
{
    let make = |_nothing: &()| -> Result<(MadeText, ()), RunFault>
        ensures { MadeOf (GenerateGives rules.entry.now draft.entry.now) (GenerateFails rules.entry.now draft.entry.now)
            _nothing.now result }
    { generated(alloc, rules, draft, watch) };
    run_by(alloc, &mut NoSource, make, &mut OneSink { sink: writer })
}

// The text of the puzzle that is made.
fn generated<T: MakerWatch>(
    alloc: Global,
    rules: &PlainRules,
    draft: &Draft,
    watch: &T,
) -> Result<(MadeText, ()), RunFault>
    ensures { MadeOf (GenerateGives rules.now draft.now) (GenerateFails rules.now draft.now) tt result }
{
    let puzzle = make_puzzle(alloc, rules, draft, watch)?;
    let text = write_puzzle(alloc, &puzzle)?;
    Ok((MadeText::new(text), ()))
}

/// Reads a puzzle to its end, makes another one with its board, turns, border and mates as the draft asks, and writes
/// the text of that.
///
/// `Read` and `TooLong` are about the puzzle that is read. `Puzzle` comes where its text has a fault, with a hint of what
/// has to be changed there. `Make` comes as for [`run_generate`]. After a fault other than `Write` nothing was written.
pub fn run_generate_like<P: Source, W: Sink, T: MakerWatch>(
    alloc: Global,
    model: &mut P,
    draft: &Draft,
    watch: &T,
    writer: &mut W,
) -> Result<(), HintedFault>
    ensures { Runs (one_source documents.Puzzle (reading_of P.Source model.old model.new)) (LikeGives draft.now)
        (LikeFails draft.now) (one_sink (writing_of W.Sink writer.old writer.new)) (unhinted result) }
{
    let mut inputs = OneSource {
        source: model,
        document: Document::Puzzle,
    };
    let mut hint = None;
    let make = |text: &Text| -> Result<(MadeText, ()), RunFault>
        ensures { MadeOf (LikeGives draft.entry.now) (LikeFails draft.entry.now) text.now result }
    {
        let made = made_like(alloc, text, draft, watch);
        if let Err(fault) = &made {
            hint = hint_on(alloc, text.bytes(), b"", fault);
        }
        made
    };
    let ended = run_by(alloc, &mut inputs, make, &mut OneSink { sink: writer });
    with_hint(ended, hint)
}

// What to print for the puzzle with this text.
fn made_like<T: MakerWatch>(
    alloc: Global,
    text: &Text,
    draft: &Draft,
    watch: &T,
) -> Result<(MadeText, ()), RunFault>
    ensures { MadeOf (LikeGives draft.now) (LikeFails draft.now) text.now result }
{
    let model = read_puzzle(alloc, text.bytes())?;
    let printed = text_like(alloc, &model, draft, watch)?;
    Ok((MadeText::new(printed), ()))
}

// The text of a puzzle that is made like the model.
fn text_like<T: MakerWatch>(
    alloc: Global,
    model: &Puzzle,
    draft: &Draft,
    watch: &T,
) -> Result<Vec<u8>, RunFault>
    ensures prints { IfOk result (λ text. PrintsLike model.now draft.now text.items) }
    ensures fails { IfErr result (IsNotMadeLike model.now draft.now) }
{
    let puzzle = make_puzzle_like(alloc, model, draft, watch)?;
    let text = write_puzzle(alloc, &puzzle)?;
    Ok(text)
}
