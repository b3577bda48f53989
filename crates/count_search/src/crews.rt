//! Branches that a crew (several workers) counts.

ghost use Rattle.std.specs.Prelude.{◌≤◌, ℕ, List, IfOk, length};
ghost use Rattle.match_limits.specs.declared.TheConstants.{MOST_LEMMAS, MOST_WORKERS};
ghost use Rattle.count_search.specs.Branches.{AllChoose, IsTotal, WeightedBranch};
ghost use Rattle.xcc_form.specs.Chosen.{IsSelection};
ghost use Rattle.xcc_form.specs.Options.{Compiled};
ghost use Rattle.count_search.specs.Looks.{AreLooks};
ghost use Rattle.count_search.specs.ChunkTotals.{AreChunkTotals};

use crate::balanced_sets::BalancedSets;
use crate::branches::Branch;
use crate::looks::looks_of;
use crate::spreads::spread;
use crate::totals::count_branches;
use crate::watches::CensusWatch;
use std::alloc::{AllocError, Global};
use std::thread::Threads;
use steal_crew::{Work, run_crew};
use xcc_form::Xcc;

// The number of jobs for each worker, so that all workers end at about the same time.
const JOBS_FOR_EACH: usize = 64;

// The most branches of a job. Each job has an engine of its own: making one costs as much as beginning a branch or two.
const MOST_IN_JOB: usize = 64;

/// Branches of a search that are to be counted, and who is told meanwhile.
#[derive(Drop)]
pub struct Count<'a, 'w, W: CensusWatch> {
    pub xcc: &'a Xcc<'a>,
    pub branches: Vec<Branch>,
    pub watch: &'w W,
}

// What each worker has.
#[derive(Drop)]
struct Means<'a, 'l, 'w, W: CensusWatch> {
    alloc: Global,
    xcc: &'a Xcc<'a>,
    looks: &'l [Option<u32>],
    watch: &'w W,
}

// Branches, the same number for each job except perhaps the last.
#[derive(Drop)]
struct Chunks<'a, 'l, 'w, 'b, W: CensusWatch> {
    means: Means<'a, 'l, 'w, W>,
    branches: &'b [Branch],
    size: usize,
}

impl<'a, 'l, 'w, 'b, W: CensusWatch> Work for Chunks<'a, 'l, 'w, 'b, W> {
    type R = Option<u64>;

    ghost use Rattle.std.specs.Prelude.{◌<◌, ◌*◌, length};
    ghost use Rattle.std.specs.Fork.{slice_chunk};
    ghost use Rattle.count_search.specs.Branches.{AllChoose, IsTotal};
    ghost use Rattle.xcc_form.specs.Chosen.{IsSelection};
    ghost use Rattle.count_search.specs.Looks.{AreLooks};

    ghost accepts = { λ w n. (n * w.size < length w.branches.now)
        × AllChoose (IsSelection w.means.xcc.now) w.branches.now × AreLooks w.means.xcc.now w.means.looks.now };

    ghost gives = { λ w n r. IsTotal w.means.xcc.now (slice_chunk w.branches.now w.size n) r };

    fn one(&self, number: u32) -> Result<Option<u64>, AllocError> {
        let rest = &self.branches[number as usize * self.size..];
        let chunk = &rest[..self.size.min(rest.len())];
        let means = &self.means;
        let mut engine = BalancedSets::new(means.alloc, means.xcc)?;
        count_branches(&mut engine, means.looks, means.watch, chunk, u64::MAX)
    }
}

/// Returns how many arrangements these branches have together, each counted as often as its weight says, with 1 to 64
/// workers, whose number doesn't change the result. `None` where they have 2^64 or more.
///
/// It joins threads, one for each worker but the caller. An error comes where memory is refused to any of the workers.
pub fn count_with_crew<R: Threads + Sync, W: CensusWatch + Sync>(
    rt: &R,
    alloc: Global,
    count: Count<'_, '_, W>,
    workers: u8,
) -> Result<Option<u64>, AllocError>
    requires selections { AllChoose (IsSelection count.xcc.now) count.branches.items }
    requires few { length count.branches.items ≤ MOST_LEMMAS }
    requires workers { (1 ≤ workers) × (workers ≤ MOST_WORKERS) }
    ensures { IfOk result (IsTotal count.entry.xcc.now count.entry.branches.items) }
{
    let Count {
        xcc,
        branches,
        watch,
    } = count;
    let looks = looks_of(alloc, xcc)?;
    let spread = spread(alloc, branches)?;
    let means = Means {
        alloc,
        xcc,
        looks: &looks,
        watch,
    };
    count_chunks(rt, means, &spread, workers)
}

// How many arrangements branches have together that are counted in this order.
fn count_chunks<R: Threads + Sync, W: CensusWatch + Sync>(
    rt: &R,
    means: Means<'_, '_, '_, W>,
    branches: &[Branch],
    workers: u8,
) -> Result<Option<u64>, AllocError>
    requires selections { AllChoose (IsSelection means.xcc.now) branches.now }
    requires looks { AreLooks means.xcc.now means.looks.now }
    requires few { length branches.now ≤ MOST_LEMMAS }
    requires workers { (1 ≤ workers) × (workers ≤ MOST_WORKERS) }
    ensures { IfOk result (IsTotal means.entry.xcc.now branches.now) }
{
    let jobs = usize::from(workers) * JOBS_FOR_EACH;
    let size = (branches.len() / jobs).max(1).min(MOST_IN_JOB);
    let count = branches.len().div_ceil(size) as u32;
    let alloc = means.alloc;
    let work = Chunks {
        means,
        branches,
        size,
    };
    let crew = run_crew(rt, alloc, &work, count, workers)?;
    Ok(sum_of(crew.results()))
}

// The sum of the totals of chunks; `None` where it is 2^64 or more.
fn sum_of(totals: &[Option<u64>]) -> Option<u64>
    ensures { (x : Compiled) (branches : List WeightedBranch) (size : ℕ) → AreChunkTotals x branches size totals.now
        → IsTotal x branches result }
{
    let mut sum: u64 = 0;
    for total in totals {
        let Some(total) = *total else {
            return None;
        };
        let Some(more) = sum.checked_add(total) else {
            return None;
        };
        sum = more;
    }
    Some(sum)
}
