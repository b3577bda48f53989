//! What a job gives others away by, and what a worker has.

ghost use Rattle.std.specs.Prelude.{◌≡◌, ◌≤◌, vec_capacity};
ghost use Rattle.match_limits.specs.declared.TheConstants.{MOST_LEMMAS};
ghost use Rattle.giving_crew.specs.declared.limits.TheConstants.{MOST_GIVEN};
ghost use Rattle.steal_crew.specs.Tickets.{source_of, limit_of, seat_source};

use crossbeam_deque::InjectorPass;
use std::sync::atomic::AtomicU64;
use steal_crew::jobs::{JobQueue, JobView, NumberedJob};
use steal_crew::{TicketSeat, Tickets};

// What a worker deals and takes jobs by.
pub(crate) type JobPass<J> = InjectorPass<NumberedJob<J>, JobView>;

/// What a job gives others away by. It draws a number for each, and keeps them in a list with room for 64.
#[derive(Drop)]
pub struct Hand<'a, J: Drop> {
    pub(crate) source: &'a Tickets,
    pub(crate) seat: TicketSeat,
    pub(crate) jobs: Vec<NumberedJob<J>>,
    ghost ours: { seat_source seat ≡ source_of source.now },
    ghost few: { limit_of source.now ≤ MOST_LEMMAS },
    ghost room: { MOST_GIVEN ≤ vec_capacity jobs },
}

// What all workers share: the queue, and how many jobs are open, which are on it or are being done.
#[derive(Drop)]
pub(crate) struct SharedJobs<J: Drop> {
    pub queue: JobQueue<J>,
    pub open: AtomicU64,
}

// What a worker has: its pass of the queue, the hand that it lends to jobs, and the results so far.
#[derive(Drop)]
pub(crate) struct LiveWorker<'a, J: Drop, X: Drop> {
    pub pass: JobPass<J>,
    pub hand: Hand<'a, J>,
    pub done: Vec<(u32, X)>,
}

impl<'a, J: Drop, X: Drop> LiveWorker<'a, J, X> {
    // What a worker brings back.
    pub fn into_parts(self) -> (JobPass<J>, TicketSeat, Vec<(u32, X)>)
        ensures { result ≡ (self.entry.pass, self.entry.hand.seat, self.entry.done) }
    {
        let LiveWorker { pass, hand, done } = self;
        let Hand {
            source: _,
            seat,
            jobs: _,
        } = hand;
        (pass, seat, done)
    }
}
