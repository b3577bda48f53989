//! Counts by a search.

ghost use Rattle.std.specs.Prelude.{◌≡◌, ◌≤◌, ◌/◌, IfOk, IfSome, MatchOption};
ghost use Rattle.match_puzzle.specs.Numbers.{AreMoreThan};
ghost use Rattle.count_search.specs.Looks.{AreLooks};
ghost use Rattle.count_search.specs.Extensions.{IsExtension, HasExtensions};

use crate::rules::ItemRule;
use crate::ruling_out::RulesOut;
use crate::weights::weight_of;
use std::alloc::AllocError;

/// Returns how many arrangements have all chosen options, or `None` where there are more than `most`.
///
/// It branches on the item that `rule` names, unless the engine rules out what is chosen, and keeps nothing of what it
/// finds. Of the options that show the same it
/// chooses only the first, which counts for all of them: `looks` has to name, for an option, the first that shows the
/// same. Whatever it chooses it takes back.
///
/// An error comes where memory is refused.
#[cycle(count_below)]
pub fn count_below<E: RulesOut>(
    engine: &mut E,
    rule: ItemRule,
    looks: &[Option<u32>],
    most: u64,
) -> Result<Option<u64>, AllocError>
    requires { AreLooks (E.selection engine.old).compiled looks.now }
    ensures same { engine.new ≡ engine.old }
    ensures counted { let s = E.selection engine.old in IfOk result (λ o. MatchOption o
        (AreMoreThan most (IsExtension s))
        (HasExtensions s)) }
    ensures most { IfOk result (λ o. IfSome o (λ count. count ≤ most)) }
{
    let _right = engine.chosen();
    if engine.is_ruled_out() {
        return Ok(Some(0));
    }
    let Some(item) = rule.item_of(engine) else {
        return Ok(if most == 0 { None } else { Some(1) });
    };
    let mut sum: u64 = 0;
    let mut next = engine.next_option(item, None);
    while let Some(option) = next {
        next = engine.next_option(item, Some(option));
        let Some(weight) = weight_of(engine, looks, item, option) else {
            continue;
        };
        engine.choose(option)?;
        let below = count_below(engine, rule, looks, share(most - sum, weight));
        engine.undo();
        let Some(count) = below? else {
            return Ok(None);
        };
        sum += weight * count;
    }
    Ok(Some(sum))
}

// How often the weight goes into a number. Most weights are 1, and a division is slow.
fn share(number: u64, weight: u64) -> u64
    requires { 1 ≤ weight }
    ensures { result ≡ number / weight }
{
    if weight == 1 { number } else { number / weight }
}
