//! Work by job.

ghost use Rattle.std.specs.Prelude.{ℕ, IfOk};
ghost use Rattle.steal_crew.specs.Tickets.{Source, source_of};
ghost use Rattle.giving_crew.specs.LiveHands.{Gave};

use crate::hands::Hand;
use std::alloc::AllocError;

/// What is to be done for each job, which may give further jobs away.
pub trait LiveWork {
    type Job: Send + Drop;

    type R: Send + Drop;

    // which results belong to a number and a job, where numbers are drawn from this source
    ghost gives: { Self → Source → ℕ → Self.Job → Self.R → Type 0 };

    /// The result of a job, which has this number; an `Err` where it wants memory. It may give jobs away by the hand,
    /// which changes in no other way.
    fn one(
        &self,
        number: u32,
        job: Self::Job,
        hand: &mut Hand<'_, Self::Job>,
    ) -> Result<Self::R, AllocError>
        ensures result { IfOk result (gives self.now (source_of hand.old.source.now) number job) }
        ensures hand { Gave hand.old hand.new };
}
