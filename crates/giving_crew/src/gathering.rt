//! What the workers bring back.

ghost use Rattle.std.specs.Prelude.{◌<◌, ◌-◌, IfOk, All, vec_len, vec_capacity};
ghost use Rattle.crossbeam_deque.specs.Injected.{injector_view, IsInjectorPassOf};
ghost use Rattle.steal_crew.specs.QueueRule.{part_count};
ghost use Rattle.steal_crew.specs.Tickets.{Source, source_of};
ghost use Rattle.giving_crew.specs.LiveWorkers.{IsAtEnd, IsFirst, BelongsToSome, Brings, AreRun};

use crate::hands::{JobPass, LiveWorker, SharedJobs};
use crate::working::work_on;
use crate::works::LiveWork;
use std::alloc::{AllocError, Global};
use std::sync::Wait;
use steal_crew::TicketSeat;
use steal_crew::jobs::{JobQueue, Parts};

// The seats and the results of all workers but the caller.
pub(crate) struct Brought<X: Drop> {
    pub seats: Vec<TicketSeat>,
    pub others: Vec<Vec<(u32, X)>>,
}

// What was done with the jobs that were given away: the caller's results, those of each other worker, and all seats.
pub(crate) struct LiveRun<X: Drop> {
    pub own: Vec<(u32, X)>,
    pub others: Vec<Vec<(u32, X)>>,
    pub seats: Vec<TicketSeat>,
}

// Takes in the passes of all workers but the caller. The list of seats has room for one more.
fn collect<W: LiveWork>(
    alloc: Global,
    queue: &JobQueue<W::Job>,
    pass: &mut JobPass<W::Job>,
    mut ended: Vec<Result<LiveWorker<'_, W::Job, W::R>, AllocError>>,
) -> Result<Brought<W::R>, AllocError>
    requires ended { (work : W) × (source : Source)
        × All (λ t. IfOk t (IsAtEnd queue.now source (W.gives work))) ended.items }
    requires pass { IsInjectorPassOf queue.now pass.old × (0 < (injector_view pass.old).parts) }
    ensures room { IfOk result (λ b. IsInjectorPassOf queue.now pass.new × (vec_len b.seats < vec_capacity b.seats)) }
    ensures brought { (work : W) (source : Source)
        → All (λ t. IfOk t (IsAtEnd queue.now source (W.gives work))) ended.entry.items
        → IfOk result (λ b. Brings source (BelongsToSome (W.gives work source)) (injector_view pass.old)
        (injector_view pass.new) (vec_len ended.entry) b.seats.items b.others.items) }
{
    let mut seats = Vec::with_capacity(alloc, ended.len() + 1)?;
    let mut others = Vec::with_capacity(alloc, ended.len())?;
    while let Some(worker) = ended.pop() {
        let (part, seat, done) = worker?.into_parts();
        queue.absorb::<Parts>(pass, part);
        seats.push_reserved(seat);
        others.push_reserved(done);
    }
    Ok(Brought { seats, others })
}

// Takes in what the others bring, and does what is still queued, once the threads are joined.
pub(crate) fn finish<W: LiveWork, R: Wait>(
    rt: &R,
    alloc: Global,
    work: &W,
    shared: &SharedJobs<W::Job>,
    ended: Vec<Result<LiveWorker<'_, W::Job, W::R>, AllocError>>,
    mut worker: LiveWorker<'_, W::Job, W::R>,
) -> Result<LiveRun<W::R>, AllocError>
    requires ended { All
        (λ t. IfOk t (IsAtEnd shared.now.queue (source_of worker.hand.source.now) (W.gives work.now))) ended.items }
    requires worker { IsFirst shared.now.queue (source_of worker.hand.source.now) (W.gives work.now)
        (part_count - vec_len ended) worker }
    ensures { IfOk result (AreRun (source_of worker.entry.hand.source.now) (W.gives work.now) (vec_len ended.entry)) }
{
    let Brought { mut seats, others } = collect::<W>(
        alloc,
        &shared.queue,
        &mut worker.pass,
        ended,
    )?;
    work_on(rt, work, shared, &mut worker)?;
    let (_pass, seat, own) = worker.into_parts();
    seats.push_reserved(seat);
    Ok(LiveRun { own, others, seats })
}
