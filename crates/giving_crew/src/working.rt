//! What one worker does.

ghost use Rattle.std.specs.Prelude.{[], ◌∷◌, IfOk, OnOk};
ghost use Rattle.steal_crew.specs.Tickets.{source_of};
ghost use Rattle.giving_crew.specs.LiveWorkers.{IsReady, IsIdle, Did, Worked, IsDrained};

use crate::hands::{LiveWorker, SharedJobs};
use crate::works::LiveWork;
use crossbeam_deque::Steal;
use std::alloc::AllocError;
use std::sync::Wait;
use std::sync::atomic::Ordering;
use std::thread;
use steal_crew::jobs::{NumberedJob, Takes, put_job};

// Does a job, and keeps its result.
pub(crate) fn do_one<W: LiveWork>(
    work: &W,
    shared: &SharedJobs<W::Job>,
    worker: &mut LiveWorker<'_, W::Job, W::R>,
    numbered: NumberedJob<W::Job>,
) -> Result<(), AllocError>
    requires { IsReady shared.now.queue (W.gives work.now) worker.old }
    ensures { OnOk result (Did shared.now.queue (W.gives work.now) (numbered.number ∷ []) worker.old worker.new) }
{
    worker.done.reserve(1)?;
    let NumberedJob { number, job } = numbered;
    let result = work.one(number, job, &mut worker.hand)?;
    worker.done.push_reserved((number, result));
    Ok(())
}

// Puts the jobs of the list on the queue, and does those that it can't take. Open are the jobs that are on the queue
// or are being done.
pub(crate) fn put_all<W: LiveWork, R: Wait>(
    rt: &R,
    work: &W,
    shared: &SharedJobs<W::Job>,
    worker: &mut LiveWorker<'_, W::Job, W::R>,
) -> Result<(), AllocError>
    requires { IsReady shared.now.queue (W.gives work.now) worker.old }
    ensures { OnOk result (Worked shared.now.queue (W.gives work.now) [] worker.old worker.new) }
{
    for _ in rt.forever() {
        let Some(first) = worker.hand.next() else {
            return Ok(());
        };
        shared.open.fetch_add(1, Ordering::SeqCst);
        if let Some(refused) = put_job(rt, &shared.queue, &mut worker.pass, first) {
            shared.open.fetch_sub(1, Ordering::SeqCst);
            do_one(work, shared, worker, refused)?;
        }
    }
    unreachable!()
}

// Does the first job, which has number 0, and puts what it gave away on the queue. Its result is kept apart.
pub(crate) fn do_first<W: LiveWork, R: Wait>(
    rt: &R,
    work: &W,
    shared: &SharedJobs<W::Job>,
    worker: &mut LiveWorker<'_, W::Job, W::R>,
    job: W::Job,
) -> Result<W::R, AllocError>
    requires { IsReady shared.now.queue (W.gives work.now) worker.old }
    ensures first { IfOk result (W.gives work.now (source_of worker.old.hand.source.now) 0 job) }
    ensures worked { OnOk result (Worked shared.now.queue (W.gives work.now) [] worker.old worker.new) }
{
    let result = work.one(0, job, &mut worker.hand)?;
    put_all(rt, work, shared, worker)?;
    Ok(result)
}

// Does a job, and puts what it gave away on the queue.
fn do_and_put<W: LiveWork, R: Wait>(
    rt: &R,
    work: &W,
    shared: &SharedJobs<W::Job>,
    worker: &mut LiveWorker<'_, W::Job, W::R>,
    numbered: NumberedJob<W::Job>,
) -> Result<(), AllocError>
    requires { IsReady shared.now.queue (W.gives work.now) worker.old }
    ensures { OnOk result (Worked shared.now.queue (W.gives work.now) (numbered.number ∷ []) worker.old worker.new) }
{
    do_one(work, shared, worker, numbered)?;
    put_all(rt, work, shared, worker)
}

// Takes jobs until the queue is found empty while no job is open.
pub(crate) fn work_on<W: LiveWork, R: Wait>(
    rt: &R,
    work: &W,
    shared: &SharedJobs<W::Job>,
    worker: &mut LiveWorker<'_, W::Job, W::R>,
) -> Result<(), AllocError>
    requires { IsIdle shared.now.queue (W.gives work.now) worker.old }
    ensures { OnOk result (Worked shared.now.queue (W.gives work.now) [] worker.old worker.new × IsDrained worker.new) }
{
    for _ in rt.forever() {
        match shared.queue.steal_as::<Takes, R>(rt, &mut worker.pass) {
            Steal::Success(numbered) => {
                let ended = do_and_put(rt, work, shared, worker, numbered);
                shared.open.fetch_sub(1, Ordering::SeqCst);
                ended?;
            }
            Steal::Empty => {
                if shared.open.load(Ordering::SeqCst) == 0 {
                    return Ok(());
                }
                thread::yield_now();
            }
            Steal::Retry => thread::yield_now(),
        }
    }
    unreachable!()
}
