//! What all jobs share.

ghost use Rattle.std.specs.Prelude.{List, IfOk};
ghost use Rattle.match_puzzle.specs.declared.placements.Pair.{Pair as PlacedPair};
ghost use Rattle.solver.specs.Solving.{IsFoundIn};

use crate::branches::search_below;
use crate::strategy::plans::Plan;
use match_limits::MOST_FUEL;
use match_puzzle::Pair;
use std::alloc::{AllocError, Global};
use std::sync::atomic::{AtomicU64, Ordering};
use xcc_dance::{Cites, PackedOutcome};
use xcc_form::Xcc;

// What all jobs share: the plan that they follow, and how many of them wait.
#[derive(Drop)]
pub struct Shared<'a> {
    pub alloc: Global,
    pub plan: &'a Plan,
    pub fuel: u32,
    pub workers: u8,
    // how many jobs were given away and not begun; no result depends on it
    pub waiting: AtomicU64,
}

impl<'a> Shared<'a> {
    // Whether fewer jobs wait than there are workers.
    pub fn few_wait(&self) -> bool {
        self.workers > 1 && self.waiting.load(Ordering::Relaxed) < u64::from(self.workers)
    }

    // Searches below these pairs, by the plan's rule and with the fuel of a lemma.
    pub fn search<C: Cites>(
        &self,
        xcc: &Xcc<'_>,
        pairs: &[Pair],
        cites: &mut C,
    ) -> Result<PackedOutcome, AllocError>
        requires { (asked : List PlacedPair) → C.takes cites.old asked }
        ensures found { IfOk result (IsFoundIn xcc.now.puzzle) }
        ensures moved { C.moves cites.old cites.new }
    {
        let fuel = self.fuel.min(MOST_FUEL);
        search_below(self.alloc, xcc, pairs, fuel, &self.plan.item_rule, cites)
    }
}
