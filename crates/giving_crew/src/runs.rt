//! A run from its first job to the results.

ghost use Rattle.std.specs.Prelude.{◌≡◌, ◌≤◌, ◌<◌, ◌∷◌, [], ℕ, IfOk, All, IsSomeAnd, vec_len};
ghost use Rattle.crew_machine.specs.Counts.{total, times, once_below};
ghost use Rattle.steal_crew.specs.Tickets.{source_of, limit_of, seat_source, drawn, IsFresh};
ghost use Rattle.steal_crew.specs.QueueRule.{part_count};
ghost use Rattle.giving_crew.specs.LiveWorkers.{BelongFrom, AreDrawn, IsFirst, AreRun};

use crate::crews::{work_all, worker_at, workers_at};
use crate::gathering::{LiveRun, finish};
use crate::hands::{LiveWorker, SharedJobs};
use crate::publishing::publish;
use crate::working::do_first;
use crate::works::LiveWork;
use match_limits::{MOST_LEMMAS, MOST_WORKERS};
use std::alloc::{AllocError, Global};
use std::sync::Wait;
use std::sync::atomic::AtomicU64;
use std::thread::Threads;
use steal_crew::jobs::JobQueue;
use steal_crew::{Crew, TicketSeat, Tickets};

// Does all jobs that are on the queue or are given away, by a worker for each seat and the caller's own, whose pass has
// every part of the queue.
fn do_given<'a, W: LiveWork + Sync, R: Threads + Wait + Sync>(
    rt: &R,
    alloc: Global,
    work: &W,
    shared: &SharedJobs<W::Job>,
    source: &'a Tickets,
    seats: Vec<TicketSeat>,
    mut own: LiveWorker<'a, W::Job, W::R>,
) -> Result<LiveRun<W::R>, AllocError>
    requires seats { All (IsFresh (source_of source.now)) seats.items × (vec_len seats < MOST_WORKERS) }
    requires limit { limit_of source.now ≤ MOST_LEMMAS }
    requires own { IsFirst shared.now.queue (source_of source.now) (W.gives work.now) part_count own }
    ensures { IfOk result (AreRun (source_of source.now) (W.gives work.now) (vec_len seats)) }
{
    let mut workers = workers_at(alloc, &shared.queue, source, &mut own.pass, seats)?;
    workers.push_reserved(own);
    let mut ended = work_all(rt, work, shared, workers)?;
    let Some(last) = ended.pop() else {
        unreachable!()
    };
    finish(rt, alloc, work, shared, ended, last?)
}

// Does the first job, and then those that are given away, by one worker for each seat.
fn run_from<W: LiveWork + Sync, R: Threads + Wait + Sync>(
    rt: &R,
    alloc: Global,
    work: &W,
    source: &Tickets,
    seat: TicketSeat,
    seats: Vec<TicketSeat>,
    first: W::Job,
) -> Result<(W::R, LiveRun<W::R>), AllocError>
    requires seat { (seat_source seat ≡ source_of source.now) × (drawn seat ≡ 0 ∷ []) }
    requires seats { All (IsFresh (source_of source.now)) seats.items × (vec_len seats < MOST_WORKERS) }
    requires limit { limit_of source.now ≤ MOST_LEMMAS }
    ensures { IfOk result (λ r. W.gives work.now (source_of source.now) 0 first r.0
        × AreRun (source_of source.now) (W.gives work.now) (vec_len seats) r.1) }
{
    let (queue, pass) = JobQueue::new_as(alloc)?;
    let open = AtomicU64::new(0);
    let shared = SharedJobs { queue, open };
    let mut worker = worker_at(alloc, source, pass, seat)?;
    let result = do_first(rt, work, &shared, &mut worker, first)?;
    let run = do_given(rt, alloc, work, &shared, source, seats, worker)?;
    Ok((result, run))
}

/// Does the first job, which has number 0, and each job that is given away, which has the number that was drawn for it.
/// There are 1 to 64 workers, and numbers below `limit`, at least 1 and at most 1,000,000. The caller's thread is
/// worker 0; where a thread can't be started, its share is done by the others.
///
/// The caller does the first job before any thread starts. After a job is done its worker puts what it gave away on the
/// one queue, first in first out, from which all workers take; what the queue can't take it does itself. A worker that
/// finds the queue empty looks again while a job is being done or put there. After all threads are joined the caller
/// does what is still queued. There is one result for each number that was drawn. Where one job wants memory, so does
/// the call, after joining all; jobs and results are let go then.
pub fn run_live<W: LiveWork + Sync, R: Threads + Wait + Sync>(
    rt: &R,
    alloc: Global,
    work: &W,
    first: W::Job,
    limit: u32,
    workers: u8,
) -> Result<Crew<W::R>, AllocError>
    requires workers { (1 ≤ workers) × (workers ≤ MOST_WORKERS) }
    requires limit { (1 ≤ limit) × (limit ≤ MOST_LEMMAS) }
    ensures limit { IfOk result (λ c. vec_len c.results ≤ limit) }
    ensures drawn { IfOk result (λ c. IsSomeAnd c.drawn (AreDrawn limit (vec_len c.results))) }
    ensures results { IfOk result (λ c. BelongFrom (W.gives work.now) first c.drawn c.results.items) }
    ensures workers { IfOk result (λ c. vec_len c.tallies ≡ workers) }
    ensures once { IfOk result (λ c. (x : ℕ)
        → total (λ t. times x t.items) c.tallies.items ≡ once_below x (vec_len c.results)) }
{
    let (source, seat, seats) = Tickets::begun(alloc, limit, workers)?;
    let (first, given) = run_from(rt, alloc, work, &source, seat, seats, first)?;
    let LiveRun { own, others, seats } = given;
    let (count, drawn) = source.join_all(seats);
    let crew = publish::<W>(alloc, first, own, others, count, drawn)?;
    Ok(crew)
}
