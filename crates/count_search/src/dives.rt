//! Guesses of how many nodes a search has, by dives (D. E. Knuth, Estimating the efficiency of backtrack programs,
//! 1975). A dive goes from a node to a leaf, and takes a child at random at each node. If all children had as many
//! nodes as the one that is taken, then a node would have one node more than that number times its children.

ghost use Rattle.std.specs.Prelude.{◌≡◌};

use crate::rules::ItemRule;
use crate::ruling_out::RulesOut;
use rand_core::{Rng, SeedableRng};
use rand_xoshiro::Xoshiro256PlusPlus;
use std::alloc::{AllocError, Global};
use xcc_dance::OpenSets;
use xcc_form::{Xcc, option_behind};

// The seed of the random numbers. It is always the same, so that each call makes the same split.
const SEED: u64 = 1975;

// How many dives from the root guess the work of a whole search.
const DIVES_FROM_ROOT: u64 = 256;

/// A guess of how many nodes a search for all arrangements has that branches on the item with the fewest open options:
/// the mean of 256 dives (random walks to a leaf) from the root. A mean is at most 2^64 / 256, about 7.2e16, and a
/// greater guess is this number too.
///
/// Different calls guess the same for a puzzle, but no contract says so, nor how good a guess is. An error comes where
/// memory is refused.
pub fn work_of(alloc: Global, xcc: &Xcc<'_>) -> Result<u64, AllocError> {
    let mut engine = OpenSets::new(alloc, xcc)?;
    Dives::new(xcc.cells()).mean(&mut engine, DIVES_FROM_ROOT)
}

// How many dives from the root guess which rule makes a search short.
const DIVES_FOR_A_RULE: u64 = 64;

// Cells are taken in their order where that is guessed to leave this many times fewer nodes: few dives may guess far too
// low, and they do so most there.
const TIMES_FEWER: u64 = 8;

// The rule for which dives guess the fewest nodes of a search, and how many these are.
#[derive(Clone, Copy)]
pub(crate) struct GuessedSearch {
    pub(crate) rule: ItemRule,
    pub(crate) nodes: u64,
}

// The rule by which a search from where the engine is has the fewest nodes, as dives guess. The puzzle has this many
// cells.
pub(crate) fn shorter_search<E: RulesOut>(
    engine: &mut E,
    cells: u16,
) -> Result<GuessedSearch, AllocError>
    ensures { engine.new ≡ engine.old }
{
    let fewest = guessed_search(engine, cells, ItemRule::Fewest)?;
    let in_order = guessed_search(engine, cells, ItemRule::InOrder)?;
    let is_shorter = in_order.nodes.saturating_mul(TIMES_FEWER) < fewest.nodes;
    Ok(if is_shorter { in_order } else { fewest })
}

// How many nodes a search by this rule has, as dives guess.
fn guessed_search<E: RulesOut>(
    engine: &mut E,
    cells: u16,
    rule: ItemRule,
) -> Result<GuessedSearch, AllocError>
    ensures { engine.new ≡ engine.old }
{
    let mut dives = Dives::by(rule, cells);
    let nodes = dives.mean(engine, DIVES_FOR_A_RULE)?;
    Ok(GuessedSearch { rule, nodes })
}

// What dives are made with.
#[derive(Drop)]
pub(crate) struct Dives {
    rule: ItemRule,
    random: Xoshiro256PlusPlus,
    // the most levels that a tree has
    levels: u16,
    // how many nodes the dives have visited
    steps: u64,
}

impl Dives {
    // Dives for a puzzle with this many cells, which branch on the item with the fewest open options.
    pub(crate) fn new(cells: u16) -> Dives {
        Dives::by(ItemRule::Fewest, cells)
    }

    // Dives for a puzzle with this many cells, which choose items by this rule.
    pub(crate) fn by(rule: ItemRule, cells: u16) -> Dives {
        Dives {
            rule,
            random: Xoshiro256PlusPlus::seed_from_u64(SEED),
            levels: cells,
            steps: 0,
        }
    }

    // How many nodes the dives have visited.
    pub(crate) fn steps(&self) -> u64 {
        self.steps
    }

    // The mean of `dives` dives from where the engine is.
    pub(crate) fn mean<E: RulesOut>(
        &mut self,
        engine: &mut E,
        dives: u64,
    ) -> Result<u64, AllocError>
        ensures { engine.new ≡ engine.old }
    {
        let mut sum: u64 = 0;
        for _ in 0..dives {
            let nodes = self.dive(engine, self.levels)?;
            sum = sum.saturating_add(nodes);
        }
        Ok(sum / dives.max(1))
    }

    // One dive, of at most `levels` levels.
    #[cycle(dive)]
    fn dive<E: RulesOut>(&mut self, engine: &mut E, levels: u16) -> Result<u64, AllocError>
        ensures { engine.new ≡ engine.old }
    {
        self.steps = self.steps.saturating_add(1);
        if engine.is_ruled_out() {
            return Ok(1);
        }
        let Some(item) = self.rule.item_of(engine) else {
            return Ok(1);
        };
        let children = engine.size(item);
        if children == 0 || levels == 0 {
            return Ok(1);
        }
        let Some(option) = option_behind(engine, item, self.random.next_u32() % children) else {
            return Ok(1);
        };
        engine.choose(option)?;
        let nodes = self.dive(engine, levels - 1);
        engine.undo();
        let below = nodes?;
        Ok(below.saturating_mul(u64::from(children)).saturating_add(1))
    }
}
