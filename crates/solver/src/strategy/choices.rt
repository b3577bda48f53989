//! What a job does with a child: it cites a lemma, gives the child away, or searches on.

ghost use Rattle.std.specs.Prelude.{◌≡◌, IfOk, IfSome};
ghost use Rattle.giving_crew.specs.LiveHands.{Gave};
ghost use Rattle.xcc_dance.specs.Outcome.{IsCiteWithin};

use crate::branches::OpenBranch;
use crate::shared::Shared;
use crate::strategy::images::Occupied;
use giving_crew::Hand;
use match_puzzle::Pair;
use std::alloc::AllocError;
use std::sync::atomic::Ordering;
use xcc_dance::{Cite, Cites, Met, Watch};

// From this number of children on, a job looks at each sixteenth whether others wait for work.
const LONG: u32 = 1_000;

// From this number of children on, the job of a planned lemma, or of the root's, gives children away in any case. What
// it gives waits behind the other planned lemmas, so that none of these begins when all else is done.
const LONG_PLANNED: u32 = 1 << 14;

// The most levels below its prefix at which a job gives children away.
const LEVELS_GIVEN: usize = 6;

// What a job is asked.
#[derive(Drop)]
pub struct Choices<'a, 'h, W: Watch> {
    pub shared: &'a Shared<'a>,
    pub watch: &'a W,
    pub hand: &'a mut Hand<'h, OpenBranch>,
    pub number: u32,
    // how many pairs the job's prefix has
    pub level: usize,
    // whether that prefix holds an image of a later lemma, so that each child does
    pub holds: bool,
    // how many cells are to be filled
    pub cells: usize,
    // what it met: it was asked of each child
    pub met: Met,
    // whether it gives children away
    pub gives: bool,
}

impl<'a, 'h, W: Watch> Choices<'a, 'h, W> {
    // Gives the branch away, and answers what stands for it then.
    fn give(&mut self, pairs: &[Pair]) -> Result<Option<Cite>, AllocError>
        ensures within { IfOk result (λ o. IfSome o IsCiteWithin) }
        ensures same { self.new.hand.ghost_name ≡ self.old.hand.ghost_name }
        ensures gave { Gave self.old.hand.now self.new.hand.now }
    {
        let pairs = pairs.to_vec(self.shared.alloc)?;
        match self.hand.give(OpenBranch { pairs }) {
            Ok(number) => {
                self.shared.waiting.fetch_add(1, Ordering::Relaxed);
                Ok(Some(Cite::Same(number)))
            }
            Err(_) => Ok(None),
        }
    }

    // Gives the planned branches away, if this is the first child that the root's job is asked for. They have the
    // numbers from 1 on then: nobody drew before.
    fn give_planned(&mut self) -> Result<(), AllocError>
        ensures same { self.new.hand.ghost_name ≡ self.old.hand.ghost_name }
        ensures gave { Gave self.old.hand.now self.new.hand.now }
    {
        if self.number > 0 || self.met.children > 0 {
            return Ok(());
        }
        for prefix in &self.shared.plan.prefixes {
            let _cite = self.give(prefix)?;
        }
        Ok(())
    }

    // Gives the child away, if it is to be, and answers what stands for it then.
    fn give_if_due(&mut self, placed: &[Pair]) -> Result<Option<Cite>, AllocError>
        ensures within { IfOk result (λ o. IfSome o IsCiteWithin) }
        ensures same { self.new.hand.ghost_name ≡ self.old.hand.ghost_name }
        ensures gave { Gave self.old.hand.now self.new.hand.now }
    {
        if self.is_to_give(placed) {
            self.give(placed)
        } else {
            Ok(None)
        }
    }

    // Whether the child is to be given away: where little fuel is left, or others wait for work and no later lemma may
    // still be cited below it.
    fn is_to_give(&mut self, placed: &[Pair]) -> bool
        ensures same { self.new.hand.ghost_name ≡ self.old.hand.ghost_name }
        ensures gave { self.new.hand.now ≡ self.old.hand.now }
    {
        // (no more branches were made than children were asked for)
        let fuel = self.shared.fuel;
        if self.met.children >= fuel - fuel / 20 {
            return true;
        }
        if !self.gives && self.met.children >= LONG && self.met.children % 16 == 0 {
            self.gives = self.shared.few_wait() || self.is_long_planned();
        }
        self.gives
            && placed.len() <= self.level.saturating_add(LEVELS_GIVEN)
            && !self.may_cite_below(placed)
    }

    // Whether the lemma was planned, or is the root's, and takes long, while others could help.
    fn is_long_planned(&self) -> bool {
        self.met.children >= LONG_PLANNED
            && self.shared.workers > 1
            && self.number as usize <= self.shared.plan.prefixes.len()
    }

    // Whether a later lemma may still be cited below. It stands apart, so that its table of what is placed doesn't lie
    // on the stack at each level of the search.
    #[inline(never)]
    fn may_cite_below(&self, placed: &[Pair]) -> bool {
        let images = &self.shared.plan.images;
        images.may_come(&Occupied::of(placed), self.number)
    }
}

impl<'a, 'h, W: Watch> Cites for Choices<'a, 'h, W> {
    ghost use Rattle.giving_crew.specs.LiveHands.{Gave};
    ghost use Rattle.std.specs.Prelude.{◌≡◌, refl};
    ghost use Rattle.std.proofs.Common.{◌∙◌};
    ghost use Rattle.giving_crew.proofs.LiveHandLemmas.{gave_nothing, gave_both};

    ghost takes = { λ _ _. Unit {0} };

    ghost answers = { λ _ _ _. Unit {0} };

    ghost moves = { λ c d. (d.hand.ghost_name ≡ c.hand.ghost_name) × Gave c.hand.now d.hand.now };

    ghost stays = { λ c. (refl, gave_nothing c.hand.now) };

    ghost goes_on = { λ c d e one two. (two.0 ∙ one.0, gave_both c.hand.now d.hand.now e.hand.now one.1 two.1) };

    ghost takes_still = { λ _ _ _ _ _. tt };

    ghost answers_still = { λ _ _ _ _ _ _. tt };

    fn cite(&mut self, prefix: &[Pair]) -> Result<Option<Cite>, AllocError> {
        self.give_planned()?;
        self.met.child(self.watch);
        let images = &self.shared.plan.images;
        if let Some(cite) = images.cite_child(prefix, self.number, self.holds) {
            return Ok(Some(cite));
        }
        let given = self.give_if_due(prefix)?;
        if given.is_none() && prefix.len() == self.cells {
            self.met.arrangement();
        }
        Ok(given)
    }
}
