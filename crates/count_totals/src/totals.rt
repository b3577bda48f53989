//! Sums of counted parts.

ghost use Rattle.std.specs.Prelude.{◌<◌, ◌+◌, ◌^◌, List, IfErr, IfOk, length};
ghost use Rattle.count_totals.specs.Lines.{AreLinesOf};
ghost use Rattle.count_totals.specs.Tallies.{BeginsWith, BeginsWithNone, Tells};
ghost use Rattle.count_totals.specs.Totals.{FailsToTotal, HasTotal};
ghost use Rattle.count_totals.specs.declared.lines.Line.{Line};

use crate::faults::PartsFault;
use crate::lines::Line;
use crate::readings::read_line;
use crate::tallies::Tally;
use std::alloc::Global;
use text_words::cut_line;

/// How many arrangements all parts have together of which the text has the lines, in any order, as counts of parts print
/// them: it names one puzzle, one split, and each part of it with one count, be it once or more often.
///
/// The first line that is wrong: `Ends` or `Unknown` where it is none that a count of a part prints, `Clashes` where it
/// doesn't go with those before it. Where all lines are good, what is missing: `NoPuzzle`, `NoSplit`, `NoPart`, or `Missing`
/// of the least part that no line names. `Memory` where that is refused.
pub fn total_of(alloc: Global, text: &[u8]) -> Result<u128, PartsFault>
    requires { length text.now + 1 < 2 ^ 32 }
    ensures total { IfOk result (HasTotal text.now) }
    ensures fault { IfErr result (FailsToTotal text.now) }
{
    let tally = tally_of(alloc, text)?;
    tally.total()
}

// What the lines of the text tell.
fn tally_of(alloc: Global, text: &[u8]) -> Result<Tally, PartsFault>
    requires { length text.now + 1 < 2 ^ 32 }
    ensures tells { IfOk result (λ tally. (lines : List Line) × AreLinesOf text.now lines × Tells tally lines) }
    ensures fault { IfErr result (FailsToTotal text.now) }
{
    let mut tally = Tally::new(alloc);
    let mut number: u32 = 0;
    let mut ahead = text;
    while !ahead.is_empty() {
        number += 1;
        let (line, after) = first_line(ahead, number)?;
        if let Some(clash) = tally.add(alloc, &line)? {
            return Err(PartsFault::Clashes(number, clash));
        }
        ahead = after;
    }
    Ok(tally)
}

// The line that the text begins with, which has this number, and what stands behind it.
fn first_line(text: &[u8], number: u32) -> Result<(Line, &[u8]), PartsFault>
    ensures line { IfOk result (λ x. BeginsWith text.now x.0 x.1.now) }
    ensures fault { IfErr result (BeginsWithNone text.now number) }
{
    let Some((line, after)) = cut_line(text) else {
        return Err(PartsFault::Ends(number));
    };
    match read_line(line) {
        Some(line) => Ok((line, after)),
        None => Err(PartsFault::Unknown(number)),
    }
}
