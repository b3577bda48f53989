//! The order in which a crew does its jobs.

ghost use Rattle.std.specs.Prelude.{◌≡◌, ◌≤◌, ◌<◌, ℕ, IfOk, vec_len};
ghost use Rattle.match_limits.specs.declared.TheConstants.{MOST_LEMMAS, MOST_WORKERS};
ghost use Rattle.steal_crew.specs.Results.{Belongs};

use crate::crews::run_crew;
use crate::works::Work;
use std::alloc::{AllocError, Global};
use std::thread::Threads;

// Work whose numbers are counted from the other end.
#[derive(Drop)]
struct FromLast<'a, W: Work> {
    work: &'a W,
    count: u32,
}

impl<'a, W: Work> Work for FromLast<'a, W> {
    ghost use Rattle.std.specs.Prelude.{◌<◌, ◌-◌};

    type R = W::R;

    ghost accepts = { λ f n. (n < f.count) × W.accepts f.work.now (f.count - 1 - n) };

    ghost gives = { λ f n r. W.gives f.work.now (f.count - 1 - n) r };

    fn one(&self, number: u32) -> Result<W::R, AllocError> {
        self.work.one(self.count - 1 - number)
    }
}

/// The results of the jobs whose numbers are below `count`, in order, of which 1 to 64 workers take the last first: who
/// numbers the largest last doesn't wait for them when the others are done.
///
/// It joins threads, one for each worker but the caller. An `Err` comes where memory is refused.
pub fn run_from_last<W: Work + Sync, R: Threads + Sync>(
    rt: &R,
    alloc: Global,
    work: &W,
    count: u32,
    workers: u8,
) -> Result<Vec<W::R>, AllocError>
    requires workers { (1 ≤ workers) × (workers ≤ MOST_WORKERS) }
    requires count { count ≤ MOST_LEMMAS }
    requires accepts { (n : ℕ) → n < count → W.accepts work.now n }
    ensures many { IfOk result (λ results. vec_len results ≡ count) }
    ensures each { IfOk result (λ results. Belongs (W.gives work.now) results.items) }
{
    let work = FromLast { work, count };
    let crew = run_crew(rt, alloc, &work, count, workers)?;
    let (mut results, _) = crew.into_parts();
    results.reverse();
    Ok(results)
}
