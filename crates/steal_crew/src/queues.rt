//! A crew's queue, and the rule that each step on it keeps.

use crossbeam_deque::protocol::{Join, Outcome, Protocol, Split};
use crossbeam_deque::{Stealer, Worker};
use std::alloc::Global;
use std::collections::LinkedList;

// A crew's queues, one for each worker, with a handle of each for the others. The numbers below `count` were dealt to
// them, and `out` parts of each are out.
#[derive(Drop)]
pub struct Queues {
    pub(crate) owners: Vec<Owner>,
    pub(crate) handles: Vec<Handle>,
    pub(crate) count: u32,
    pub(crate) out: usize,
}

// What a pass knows of its queue. No value of it is made.
pub struct View {
    pub parts: u64,
    pub below: u64,
    pub dealt: LinkedList<u32>,
    pub taken: LinkedList<u32>,
}

// Numbers are taken in the order in which they were dealt.
pub struct InOrder;

impl Protocol<u32, View> for InOrder {
    ghost use Rattle.steal_crew.specs.QueueRule.{part_count, view_with, Kept};
    ghost use Rattle.std.specs.Prelude.{[]};

    ghost holds = { Kept };

    ghost first = { view_with part_count 0 [] [] };

    ghost guest = { view_with 0 0 [] [] };
}

// One part goes to another pass, or comes back with what was taken by it.
pub struct Parts;

impl Split<View> for Parts {
    ghost use Rattle.steal_crew.specs.QueueRule.{view_with};
    ghost use Rattle.std.specs.Prelude.{[], ◌-◌};

    ghost left = { λ v. view_with (v.parts - 1) v.below v.dealt v.taken };

    ghost right = { λ v. view_with 1 v.below [] [] };
}

// All that a pass knows goes to another.
pub struct Whole;

impl Split<View> for Whole {
    ghost use Rattle.steal_crew.specs.QueueRule.{view_with};
    ghost use Rattle.std.specs.Prelude.{[]};

    ghost left = { λ v. view_with 0 0 [] [] };

    ghost right = { λ v. v };
}

impl Join<View> for Parts {
    ghost use Rattle.steal_crew.specs.QueueRule.{view_with};
    ghost use Rattle.std.specs.Prelude.{[], ◌+◌, ◌++◌};

    ghost both = { λ v w. view_with (v.parts + w.parts) v.below (v.dealt ++ w.dealt) (v.taken ++ w.taken) };

    ghost spent = { view_with 0 0 [] [] };
}

// Numbers are dealt, each above those before it.
pub struct Deals;

impl Outcome<u32, View> for Deals {
    ghost use Rattle.steal_crew.specs.QueueRule.{view_with};
    ghost use Rattle.std.specs.Prelude.{◌≡◌, ◌++◌, ◌+◌};
    ghost use Rattle.std.specs.List.{AllByRecursion};

    ghost then = { λ v xs w. AllByRecursion (λ x. w ≡ view_with v.parts (x + 1) (v.dealt ++ xs) v.taken) xs };
}

// A number is taken, or none waits.
pub struct Takes;

impl Outcome<u32, View> for Takes {
    ghost use Rattle.steal_crew.specs.QueueRule.{part_count, view_with};
    ghost use Rattle.crew_machine.specs.Counts.{times};
    ghost use Rattle.std.specs.Prelude.{◌≡◌, ◌++◌, ◌<◌, ℕ, length};
    ghost use Rattle.std.specs.List.{AllByRecursion};

    ghost then = { λ v xs w. (w ≡ view_with v.parts v.below v.dealt (v.taken ++ xs))
        × AllByRecursion (λ x. (x < v.below) × AllByRecursion (λ y. y < x) v.taken) xs
        × (v.parts ≡ part_count → length v.taken < length v.dealt) };

    ghost empty = { λ v. v.parts ≡ part_count → (x : ℕ) → times x v.dealt ≡ times x v.taken };
}

// What the caller deals by.
pub type Owner = Worker<u32, Global, View, InOrder>;

// What others take by.
pub type Handle = Stealer<u32, Global, View, InOrder>;
