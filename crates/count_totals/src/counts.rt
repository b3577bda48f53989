//! Counts of parts, each at its place.

ghost use Rattle.std.specs.Prelude.{◌≡◌, ◌≤◌, ◌-◌, None, Some, IfErr, IfOk, length, replicate, slice_set};
ghost use Rattle.count_totals.specs.Lines.{IsInRange};
ghost use Rattle.count_totals.specs.Counts.{HaveSum, IsFirstWithout};
ghost use Rattle.count_totals.specs.declared.lines.Line.TheVariants as lines;

use crate::faults::PartsFault;
use crate::lines::CountedPart;
use std::alloc::{AllocError, Global};

// The count of one part at its place, and none at the others.
pub(crate) fn first_counts(alloc: Global, part: CountedPart) -> Result<Vec<Option<u64>>, AllocError>
    requires { IsInRange (lines.Part part) }
    ensures { IfOk result (λ counts. counts.items
        ≡ slice_set (replicate part.parts None) (part.number - 1) (Some part.count)) }
{
    let mut counts = vec![in alloc; None; part.parts as usize]?;
    counts[(part.number - 1) as usize] = Some(part.count);
    Ok(counts)
}

// The sum of the counts, or the first part that has none.
pub(crate) fn sum_of(counts: &[Option<u64>]) -> Result<u128, PartsFault>
    requires { length counts.now ≤ 1000000 }
    ensures sum { IfOk result (HaveSum counts.now) }
    ensures missing { IfErr result (IsFirstWithout counts.now) }
{
    let mut total: u128 = 0;
    for (place, count) in counts.iter().enumerate() {
        let Some(count) = count else {
            return Err(PartsFault::Missing {
                number: place as u32 + 1,
                parts: counts.len() as u32,
            });
        };
        total += u128::from(*count);
    }
    Ok(total)
}
