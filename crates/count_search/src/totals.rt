//! How many arrangements branches have together.

ghost use Rattle.std.specs.Prelude.{◌≡◌, ◌≤◌, ◌++◌, [], IfOk, IfSome, MatchOption};
ghost use Rattle.match_puzzle.specs.Arrangement.{IsArrangement, HasArrangements};
ghost use Rattle.match_puzzle.specs.Numbers.{AreMoreThan};
ghost use Rattle.xcc_form.specs.Chosen.{IsSelection};
ghost use Rattle.count_search.specs.Looks.{AreLooks};
ghost use Rattle.count_search.specs.Branches.{AllChoose, HaveTogether, HaveMoreTogether, IsSplit};
ghost use Rattle.count_search.specs.Extensions.{IsExtension, HasExtensions};

use crate::balanced_sets::BalancedSets;
use crate::branches::Branch;
use crate::counting::count_below;
use crate::crews::Count;
use crate::looks::looks_of;
use crate::rules::ItemRule;
use crate::ruling_out::RulesOut;
use crate::spreads::spread;
use crate::watches::CensusWatch;
use std::alloc::{AllocError, Global};

// How many arrangements these branches have together, each counted as often as its weight says; `None` where they have
// more than `most`. Nothing is chosen before.
//
// An error comes where memory is refused.
pub(crate) fn count_branches<E: RulesOut, W: CensusWatch>(
    engine: &mut E,
    looks: &[Option<u32>],
    watch: &W,
    branches: &[Branch],
    most: u64,
) -> Result<Option<u64>, AllocError>
    requires looks { AreLooks (E.selection engine.old).compiled looks.now }
    requires empty { (E.selection engine.old).chosen ≡ [] }
    requires selections { AllChoose (IsSelection (E.selection engine.old).compiled) branches.now }
    ensures same { engine.new ≡ engine.old }
    ensures counted { let x = (E.selection engine.old).compiled in IfOk result (λ o. MatchOption o
        (HaveMoreTogether x branches.now most)
        (HaveTogether x branches.now)) }
    ensures most { IfOk result (λ o. IfSome o (λ total. total ≤ most)) }
{
    let mut total: u64 = 0;
    for branch in branches {
        let weight = branch.weight();
        let Some(count) = count_with(engine, looks, branch.chosen(), (most - total) / weight)?
        else {
            return Ok(None);
        };
        let more = weight * count;
        total += more;
        watch.counted(more);
    }
    Ok(Some(total))
}

// How many arrangements have the chosen options and these; `None` where there are more than `most`.
#[cycle(count_with)]
fn count_with<E: RulesOut>(
    engine: &mut E,
    looks: &[Option<u32>],
    options: &[u32],
    most: u64,
) -> Result<Option<u64>, AllocError>
    requires looks { AreLooks (E.selection engine.old).compiled looks.now }
    requires selection { let s = E.selection engine.old in IsSelection s.compiled (s.chosen ++ options.now) }
    ensures same { engine.new ≡ engine.old }
    ensures counted { let s = E.selection engine.old in
        let t = record s { chosen = s.chosen ++ options.now } in IfOk result (λ o. MatchOption o
        (AreMoreThan most (IsExtension t))
        (HasExtensions t)) }
    ensures most { IfOk result (λ o. IfSome o (λ count. count ≤ most)) }
{
    let Some((option, others)) = options.split_first() else {
        return count_below(engine, ItemRule::Fewest, looks, most);
    };
    engine.choose(*option)?;
    let counted = count_with(engine, looks, others, most);
    engine.undo();
    counted
}

/// Returns how many arrangements a puzzle has, or `None` where there are more than `most`. It counts them by the
/// branches into which their search is split.
///
/// An error comes where memory is refused.
pub fn count_arrangements<W: CensusWatch>(
    alloc: Global,
    count: Count<'_, '_, W>,
    most: u64,
) -> Result<Option<u64>, AllocError>
    requires split { IsSplit count.xcc.now count.branches.items }
    requires selections { AllChoose (IsSelection count.xcc.now) count.branches.items }
    ensures counted { let puzzle = count.entry.xcc.now.puzzle in IfOk result (λ o. MatchOption o
        (AreMoreThan most (IsArrangement puzzle))
        (HasArrangements puzzle)) }
    ensures most { IfOk result (λ o. IfSome o (λ total. total ≤ most)) }
{
    let Count {
        xcc,
        branches,
        watch,
    } = count;
    let _puzzle = xcc.puzzle();
    let looks = looks_of(alloc, xcc)?;
    let spread = spread(alloc, branches)?;
    let mut engine = BalancedSets::new(alloc, xcc)?;
    count_branches(&mut engine, &looks, watch, &spread, most)
}
