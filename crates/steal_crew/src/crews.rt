//! A crew of workers.

ghost use Rattle.std.specs.Prelude.{◌≡◌, ◌≤◌, ◌<◌, ◌+◌, ℕ, Vec, Some, IfOk, All, length, vec_len};
ghost use Rattle.std.specs.Prelude.{slice_index_or};
ghost use Rattle.std.specs.declared.alloc.Global.{Global};
ghost use Rattle.crew_machine.specs.Counts.{total, times, once_below};
ghost use Rattle.steal_crew.specs.Results.{Belongs, AreDone, filled};
ghost use Rattle.steal_crew.specs.Queues.{IsStation, IsShare, ShowSpent};

use crate::queues::{Queues, View};
use crate::results::{enter_all, settle_rest};
use crate::taking::work_at;
use crate::tickets::AllDrawn;
use crate::works::{Share, Station, Work};
use crossbeam_deque::Pass;
use match_limits::{MOST_LEMMAS, MOST_WORKERS};
use std::alloc::{AllocError, Global};
use std::thread;
use std::thread::Threads;

/// What a crew did.
#[derive(Drop)]
pub struct Crew<X: Drop> {
    pub(crate) results: Vec<X>,
    pub(crate) tallies: Vec<Vec<u32>>,
    // What was dealt to each queue and taken from it. It takes no memory, and is there for contracts alone.
    pub(crate) queues: Vec<Pass<u32, View>>,
    // What was drawn, where jobs gave others away. It takes no memory either, and is there for contracts alone.
    pub(crate) drawn: Option<AllDrawn>,
}

impl<X: Drop> Crew<X> {
    /// What a crew did whose jobs gave others away: the results by number, the numbers whose results each worker brought,
    /// and what was drawn. It takes no memory.
    pub fn with_drawn(
        alloc: Global,
        results: Vec<X>,
        tallies: Vec<Vec<u32>>,
        drawn: AllDrawn,
    ) -> Crew<X>
        ensures results { result.results ≡ results }
        ensures tallies { result.tallies ≡ tallies }
        ensures drawn { result.drawn ≡ Some drawn }
    {
        Crew {
            results,
            tallies,
            queues: Vec::new(alloc),
            drawn: Some(drawn),
        }
    }

    /// The results by number.
    pub fn results(&self) -> &[X]
        ensures { result.now ≡ self.now.results.items }
    {
        &self.results
    }

    /// The results by number, and for each worker the numbers whose results it brought. Worker 0 is the caller's thread.
    pub fn into_parts(self) -> (Vec<X>, Vec<Vec<u32>>)
        ensures { result ≡ (self.results, self.tallies) }
    {
        let Crew {
            results,
            tallies,
            queues: _,
            drawn: _,
        } = self;
        (results, tallies)
    }

    /// The numbers whose results this worker brought. Worker 0 is the caller's thread.
    pub fn tally(&self, worker: u8) -> &[u32]
        requires { worker < length self.now.tallies.items }
        ensures { (d : Vec ℕ Global) → result.now ≡ (slice_index_or self.now.tallies.items worker d).items }
    {
        &self.tallies[usize::from(worker)]
    }
}

// Starts a thread for each worker but the last, which is the caller's, and joins them all.
fn work_all<W: Work + Sync, R: Threads + Sync>(
    rt: &R,
    alloc: Global,
    work: &W,
    queues: &Queues,
    stations: Vec<Station>,
) -> Result<Vec<Result<Share<W::R>, AllocError>>, AllocError>
    requires each { let q = queues.now in
        All (IsStation (vec_len q.handles) q.count q.handles.items) stations.items }
    requires accepts { (n : ℕ) → n < queues.now.count → W.accepts work.now n }
    ensures shares { let q = queues.now in IfOk result (λ v.
        All (λ t. IfOk t (IsShare (vec_len q.handles) q.count q.handles.items (W.gives work.now))) v.items) }
    ensures len { IfOk result (λ v. vec_len v ≡ vec_len stations) }
{
    let handles = &queues.handles;
    let count = queues.count;
    thread::map_vec(
        rt,
        stations,
        &|station: Station| -> Result<Share<W::R>, AllocError>
            requires { IsStation (vec_len handles.now) count handles.now.items station
                × ((n : ℕ) → n < count → W.accepts work.now n) }
            ensures { IfOk result
                (IsShare (vec_len handles.entry.now) count handles.entry.now.items (W.gives work.entry.now)) }
        { work_at(work, alloc, handles, station, count) },
    )
}

// A place for the result of each number below the count.
fn empty_slots<X: Drop>(alloc: Global, count: u32) -> Result<Vec<Option<X>>, AllocError>
    ensures len { IfOk result (λ v. vec_len v ≡ count) }
    ensures none { IfOk result (λ v. (x : ℕ) → filled x v.items ≡ 0) }
{
    let mut slots = Vec::with_capacity(alloc, count as usize)?;
    for _ in 0..count {
        slots.push_reserved(None);
    }
    Ok(slots)
}

// What the workers did, once all numbers that were dealt to a queue were taken from it.
struct Worked<X: Drop> {
    queues: Vec<Pass<u32, View>>,
    brought: Vec<Vec<(u32, X)>>,
}

// All that happens on the queues, which are let go here.
fn work_queues<W: Work + Sync, R: Threads + Sync>(
    rt: &R,
    alloc: Global,
    work: &W,
    count: u32,
    workers: usize,
) -> Result<Worked<W::R>, AllocError>
    requires workers { (1 ≤ workers) × (workers ≤ MOST_WORKERS) }
    requires accepts { (n : ℕ) → n < count → W.accepts work.now n }
    ensures queues { IfOk result (λ w. (vec_len w.queues ≡ workers) × ShowSpent workers count w.queues.items) }
    ensures brought { IfOk result (λ w. (vec_len w.brought ≡ workers)
        × All (λ done. AreDone (W.gives work.now) done.items) w.brought.items) }
{
    let mut queues = Queues::open(alloc, workers)?;
    queues.deal(count)?;
    let stations = queues.stations(alloc)?;
    let shares = work_all(rt, alloc, work, &queues, stations)?;
    let brought = queues.collect(alloc, shares)?;
    queues.drain_all();
    let histories = queues.histories(alloc)?;
    Ok(Worked {
        queues: histories,
        brought,
    })
}

/// Does the work of the numbers below `count`, at most 1,000,000, by 1 to 64 workers. The caller's thread is worker 0;
/// where a thread can't be started, its share is done by the others.
///
/// Each worker has a queue, first in first out. Number n is dealt to queue n mod workers before any thread starts; a
/// worker takes from its own queue, and where that is empty from the others in turn. After all threads are joined the
/// caller does what is still without a result. Where one job wants memory, so does the call, after joining all.
pub fn run_crew<W: Work + Sync, R: Threads + Sync>(
    rt: &R,
    alloc: Global,
    work: &W,
    count: u32,
    workers: u8,
) -> Result<Crew<W::R>, AllocError>
    requires workers { (1 ≤ workers) × (workers ≤ MOST_WORKERS) }
    requires count { count ≤ MOST_LEMMAS }
    requires accepts { (n : ℕ) → n < count → W.accepts work.now n }
    ensures results { IfOk result (λ c. (vec_len c.results ≡ count) × Belongs (W.gives work.now) c.results.items) }
    ensures workers { IfOk result (λ c. vec_len c.tallies ≡ workers) }
    ensures once { IfOk result (λ c. (x : ℕ) → total (λ t. times x t.items) c.tallies.items ≡ once_below x count) }
    ensures queues { IfOk result (λ c. (vec_len c.queues ≡ workers) × ShowSpent workers count c.queues.items) }
{
    let worked = work_queues(rt, alloc, work, count, usize::from(workers))?;
    let Worked { queues, brought } = worked;
    let mut slots = empty_slots(alloc, count)?;
    let mut tallies = enter_all::<W>(alloc, &mut slots, brought)?;
    let results = settle_rest(work, alloc, slots, &mut tallies[0])?;
    Ok(Crew {
        results,
        tallies,
        queues,
        drawn: None,
    })
}
