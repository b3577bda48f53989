//! Counts by a search that is short.

ghost use Rattle.std.specs.Prelude.{◌≡◌, [], IfOk, IfSome};
ghost use Rattle.match_puzzle.specs.Arrangement.{HasArrangements};
ghost use Rattle.count_search.specs.Looks.{AreLooks};

use crate::balanced_sets::BalancedSets;
use crate::counting::count_below;
use crate::dives::shorter_search;
use crate::looks::looks_of;
use crate::rules::ItemRule;
use crate::ruling_out::RulesOut;
use std::alloc::{AllocError, Global};
use std::marker::Model;
use xcc_form::{OpenOptions, Xcc};

// The most nodes that dives may guess of a search which is tried as it is. A longer one is worth a plan.
const MOST_NODES: u64 = 400_000;

// A search may choose this many options, and in addition this many times the nodes that were guessed.
const LEAST_CHOICES: u64 = 20_000;

const TIMES_THE_GUESS: u64 = 2;

/// Returns how many arrangements a puzzle has, where a short search tells that: one that branches by a rule for which
/// dives (random walks to a leaf) guess few nodes, and that has not many more than were guessed. `None` where there is
/// no such search, or 2^64 arrangements or more.
///
/// An error comes where memory is refused.
pub fn count_if_short(alloc: Global, xcc: &Xcc<'_>) -> Result<Option<u64>, AllocError>
    ensures { IfOk result (λ o. IfSome o (HasArrangements xcc.now.puzzle)) }
{
    let _puzzle = xcc.puzzle();
    let mut engine = BalancedSets::new(alloc, xcc)?;
    let guess = shorter_search(&mut engine, xcc.cells())?;
    if guess.nodes > MOST_NODES {
        return Ok(None);
    }
    let looks = looks_of(alloc, xcc)?;
    let mut bounded = BoundedSets {
        sets: engine,
        left: LEAST_CHOICES.saturating_add(guess.nodes.saturating_mul(TIMES_THE_GUESS)),
    };
    counted_within(&mut bounded, guess.rule, &looks)
}

// How many arrangements the puzzle has; `None` where the engine may not choose as many options as that takes, or there
// are 2^64 or more.
fn counted_within(
    engine: &mut BoundedSets<'_>,
    rule: ItemRule,
    looks: &[Option<u32>],
) -> Result<Option<u64>, AllocError>
    requires looks { AreLooks engine.old.compiled looks.now }
    requires empty { engine.old.chosen ≡ [] }
    ensures { IfOk result (λ o. IfSome o (HasArrangements engine.old.compiled.puzzle)) }
{
    let total = count_below(engine, rule, looks, u64::MAX);
    if total.is_err() && engine.left == 0 {
        return Ok(None);
    }
    total
}

// An engine that chooses a bounded number of options: it refuses the next one as if there were no memory for it.
// Contracts see it as the engine within.
#[derive(Drop)]
struct BoundedSets<'a> {
    sets: BalancedSets<'a>,
    left: u64,
}

impl<'a> Model for BoundedSets<'a> {
    ghost use Rattle.xcc_form.specs.Chosen.{Selection};

    ghost Value = { Selection };

    ghost view = { λ s. s.sets };
}

impl<'a> OpenOptions for BoundedSets<'a> {
    ghost use Rattle.std.specs.Prelude.{refl};
    ghost use Rattle.xcc_form.specs.Chosen.{without_last};

    ghost selection = { λ s. s };

    ghost taken_back = { without_last };

    ghost all_but_last = { λ s. refl };

    fn xcc(&self) -> &Xcc<'_> {
        self.sets.xcc()
    }

    fn chosen(&self) -> &[u32] {
        self.sets.chosen()
    }

    fn branch_item(&self) -> Option<u32> {
        self.sets.branch_item()
    }

    fn next_item(&self, after: Option<u32>) -> Option<u32> {
        self.sets.next_item(after)
    }

    fn size(&self, item: u32) -> u32 {
        self.sets.size(item)
    }

    fn next_option(&self, item: u32, after: Option<u32>) -> Option<u32> {
        self.sets.next_option(item, after)
    }

    fn choose(&mut self, option: u32) -> Result<(), AllocError> {
        let _right = self.sets.chosen();
        if self.left == 0 {
            return Err(AllocError);
        }
        self.left -= 1;
        self.sets.choose(option)
    }

    fn undo(&mut self) {
        self.sets.undo();
    }
}

impl<'a> RulesOut for BoundedSets<'a> {
    fn is_ruled_out(&self) -> bool {
        self.sets.is_ruled_out()
    }
}
