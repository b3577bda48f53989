//! The workers of one run.

ghost use Rattle.std.specs.Prelude.{◌≡◌, ◌<◌, ◌≤◌, ◌+◌, [], IfOk, All, vec_len};
ghost use Rattle.crossbeam_deque.specs.Injected.{injector_view, IsInjectorPassOf};
ghost use Rattle.steal_crew.specs.Tickets.{source_of, limit_of, seat_source, IsFresh};
ghost use Rattle.giving_crew.specs.LiveWorkers.{IsMade, AreForked, IsIdle, Worked, AllWorked};

use crate::hands::{Hand, JobPass, LiveWorker, SharedJobs};
use crate::limits::MOST_GIVEN;
use crate::working::work_on;
use crate::works::LiveWork;
use match_limits::{MOST_LEMMAS, MOST_WORKERS};
use std::alloc::{AllocError, Global};
use std::sync::Wait;
use std::thread;
use std::thread::Threads;
use steal_crew::jobs::{JobQueue, Parts};
use steal_crew::{TicketSeat, Tickets};

// A worker with this pass and seat, which did nothing yet.
pub(crate) fn worker_at<'a, J: Drop, X: Drop>(
    alloc: Global,
    source: &'a Tickets,
    pass: JobPass<J>,
    seat: TicketSeat,
) -> Result<LiveWorker<'a, J, X>, AllocError>
    requires seat { seat_source seat ≡ source_of source.now }
    requires limit { limit_of source.now ≤ MOST_LEMMAS }
    ensures { IfOk result (IsMade (source_of source.now) pass seat) }
{
    let jobs = Vec::with_capacity(alloc, MOST_GIVEN)?;
    let hand = Hand { source, seat, jobs };
    let done = Vec::new(alloc);
    Ok(LiveWorker { pass, hand, done })
}

// A worker for each seat, which takes a part from the pass, and room for one more.
pub(crate) fn workers_at<'a, J: Drop, X: Drop>(
    alloc: Global,
    queue: &JobQueue<J>,
    source: &'a Tickets,
    pass: &mut JobPass<J>,
    mut seats: Vec<TicketSeat>,
) -> Result<Vec<LiveWorker<'a, J, X>>, AllocError>
    requires pass { IsInjectorPassOf queue.now pass.old × (vec_len seats < (injector_view pass.old).parts) }
    requires seats { All (IsFresh (source_of source.now)) seats.items × (vec_len seats < MOST_WORKERS) }
    requires limit { limit_of source.now ≤ MOST_LEMMAS }
    ensures { IfOk result (λ v. AreForked queue.now (source_of source.now) (vec_len seats) pass.old pass.new v) }
{
    let mut list = Vec::with_capacity(alloc, seats.len() + 1)?;
    while let Some(seat) = seats.pop() {
        let part = queue.another::<Parts>(pass);
        list.push_reserved(worker_at(alloc, source, part, seat)?);
    }
    Ok(list)
}

// Starts a thread for each worker but the last, which is the caller's, and joins them all.
pub(crate) fn work_all<'a, W: LiveWork + Sync, R: Threads + Wait + Sync>(
    rt: &R,
    work: &W,
    shared: &SharedJobs<W::Job>,
    workers: Vec<LiveWorker<'a, W::Job, W::R>>,
) -> Result<Vec<Result<LiveWorker<'a, W::Job, W::R>, AllocError>>, AllocError>
    requires { All (IsIdle shared.now.queue (W.gives work.now)) workers.items }
    ensures { IfOk result (λ v. (vec_len v ≡ vec_len workers.entry)
        × AllWorked shared.now.queue (W.gives work.now) workers.entry.items v.items) }
{
    thread::map_vec(
        rt,
        workers,
        &|mut worker: LiveWorker<'_, W::Job, W::R>| -> Result<
            LiveWorker<'_, W::Job, W::R>,
            AllocError,
        >
            requires { IsIdle shared.now.queue (W.gives work.now) worker }
            ensures { IfOk result (Worked shared.entry.now.queue (W.gives work.entry.now) [] worker.entry) }
        {
            work_on(rt, work, shared, &mut worker)?;
            Ok(worker)
        },
    )
}
