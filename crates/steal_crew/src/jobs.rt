//! One queue of jobs that all workers of a crew share, first in first out, and the rule that each step on it keeps.

ghost use Rattle.std.specs.Prelude.{◌≡◌, ◌<◌, ◌++◌, ◌∷◌, [], MatchOption};
ghost use Rattle.crossbeam_deque.specs.Injected.{injector_view, IsInjectorPassOf};
ghost use Rattle.steal_crew.specs.Jobs.{job_view_with};

use crossbeam_deque::protocol::{Join, Outcome, Protocol, Split};
use crossbeam_deque::{Injector, InjectorPass};
use std::alloc::Global;
use std::collections::LinkedList;
use std::sync::Wait;

/// What a pass knows of the queue: how many of its parts it has, and what was dealt and taken by it. No value of it is
/// made.
pub struct JobView {
    pub parts: u64,
    pub dealt: LinkedList<u32>,
    pub taken: LinkedList<u32>,
}

/// A job with its number.
#[derive(Drop)]
pub struct NumberedJob<J: Drop> {
    pub number: u32,
    pub job: J,
}

/// The rule of the queue: what was dealt is what was taken and what waits.
pub struct NoneLost;

impl<J: Drop> Protocol<NumberedJob<J>, JobView> for NoneLost {
    ghost use Rattle.steal_crew.specs.QueueRule.{part_count};
    ghost use Rattle.steal_crew.specs.Jobs.{job_view_with, JobsKept};
    ghost use Rattle.std.specs.Prelude.{[]};

    ghost holds = { JobsKept };

    ghost first = { job_view_with part_count [] [] };

    ghost guest = { job_view_with part_count [] [] };
}

/// One part goes to another pass, or comes back with what was dealt and taken by it.
pub struct Parts;

impl Split<JobView> for Parts {
    ghost use Rattle.steal_crew.specs.Jobs.{job_view_with};
    ghost use Rattle.std.specs.Prelude.{[], ◌-◌};

    ghost left = { λ v. job_view_with (v.parts - 1) v.dealt v.taken };

    ghost right = { λ v. job_view_with 1 [] [] };
}

impl Join<JobView> for Parts {
    ghost use Rattle.steal_crew.specs.Jobs.{job_view_with};
    ghost use Rattle.std.specs.Prelude.{[], ◌+◌, ◌++◌};

    ghost both = { λ v w. job_view_with (v.parts + w.parts) (v.dealt ++ w.dealt) (v.taken ++ w.taken) };

    ghost spent = { job_view_with 0 [] [] };
}

/// A job is dealt.
pub struct Deals;

impl<J: Drop> Outcome<NumberedJob<J>, JobView> for Deals {
    ghost use Rattle.steal_crew.specs.Jobs.{job_view_with, job_numbers};
    ghost use Rattle.std.specs.Prelude.{◌≡◌, ◌++◌};

    ghost then = { λ v xs w. w ≡ job_view_with v.parts (v.dealt ++ job_numbers xs) v.taken };
}

/// A job is taken, or none waits.
pub struct Takes;

impl<J: Drop> Outcome<NumberedJob<J>, JobView> for Takes {
    ghost use Rattle.steal_crew.specs.QueueRule.{part_count};
    ghost use Rattle.steal_crew.specs.Jobs.{job_view_with, job_numbers};
    ghost use Rattle.crew_machine.specs.Counts.{times};
    ghost use Rattle.std.specs.Prelude.{◌≡◌, ◌++◌, ℕ};

    ghost then = { λ v xs w. w ≡ job_view_with v.parts v.dealt (v.taken ++ job_numbers xs) };

    ghost empty = { λ v. v.parts ≡ part_count → (x : ℕ) → times x v.dealt ≡ times x v.taken };
}

/// What all workers put jobs on and take them from.
pub type JobQueue<J> = Injector<NumberedJob<J>, Global, JobView, NoneLost>;

/// Puts the job on the queue. It comes back where there is no memory for it, or after nearly 2^62 jobs, and then nothing
/// was dealt. It may wait for others that put jobs there.
pub fn put_job<J: Drop, R: Wait>(
    rt: &R,
    queue: &JobQueue<J>,
    pass: &mut InjectorPass<NumberedJob<J>, JobView>,
    job: NumberedJob<J>,
) -> Option<NumberedJob<J>>
    requires pass { IsInjectorPassOf queue.now pass.old }
    requires part { 0 < (injector_view pass.old).parts }
    ensures pass { IsInjectorPassOf queue.now pass.new }
    ensures dealt { MatchOption result
        (injector_view pass.new ≡ job_view_with (injector_view pass.old).parts
        ((injector_view pass.old).dealt ++ job.number ∷ []) (injector_view pass.old).taken)
        (λ back. (back ≡ job) × (injector_view pass.new ≡ injector_view pass.old)) }
{
    match queue.push_as::<Deals, R>(rt, pass, job) {
        Ok(()) => None,
        Err(refused) => Some(refused),
    }
}
