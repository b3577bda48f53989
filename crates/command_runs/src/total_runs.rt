//! A run that adds up counted parts.

ghost use Rattle.byte_streams.specs.Moves.{writing_of};
ghost use Rattle.byte_streams.specs.Targets.{one_sink};
ghost use Rattle.command_runs.specs.Runs.{MadeOf, Runs};
ghost use Rattle.command_runs.specs.Totals.{TotalFails, TotalGives};

use crate::faults::RunFault;
use crate::running::run_by;
use byte_streams::{Inputs, MadeText, OneSink, Sink, Text};
use count_totals::total_of;
use std::alloc::Global;

/// Reads the lines that counts of parts printed, in any order and to their end, and writes the sum over all parts as a
/// line `arrangements N`. The lines have to name one puzzle and one split, and each part of it at least once, always
/// with the same number.
///
/// `Read` and `TooLong` are about the lines. `Parts` has the first line that is wrong, or else what is missing. After a
/// fault other than `Write` nothing was written.
pub fn run_total<I: Inputs<Texts = Text>, W: Sink>(
    alloc: Global,
    parts: &mut I,
    writer: &mut W,
) -> Result<(), RunFault>
    ensures same { I.same parts.old parts.new }
    ensures run { Runs (I.reads parts.old parts.new) TotalGives TotalFails
        (one_sink (writing_of W.Sink writer.old writer.new)) result }
{
    let make = |text: &Text| -> Result<(MadeText, ()), RunFault>
        ensures { MadeOf TotalGives TotalFails text.now result }
    { total_text(alloc, text) };
    run_by(alloc, parts, make, &mut OneSink { sink: writer })
}

// The line of the sum.
#[tactic(auto, unfolding(crate::specs::Totals::TotalFails, crate::specs::Totals::TotalGives))]
fn total_text(alloc: Global, text: &Text) -> Result<(MadeText, ()), RunFault>
    ensures { MadeOf TotalGives TotalFails text.now result }
{
    let total = total_of(alloc, text.bytes())?;
    let line = format!(in alloc; "arrangements {total}\n")?;
    Ok((MadeText::new(line.into_bytes()), ()))
}
