//! What a search goes by, and how far a pass of it has come.

ghost use Rattle.std.specs.Prelude.{◌≡◌, ◌≢◌, ◌<◌, ◌≤◌, None, Some, false, length};

use crate::crews::Find;
use crate::ends::Ended;
use crate::listed::Listed;
use crate::watches::FindWatch;
use rand_xoshiro::Xoshiro256PlusPlus;
use std::alloc::Global;
use std::sync::atomic::{AtomicBool, Ordering};
use symmetry_orbits::RandomFold;

// After so many nodes each time a pass tells of itself, and looks whether a worker is done.
const NODES_BETWEEN_LOOKS: u64 = 1024;

/// What a search goes by. All its workers share it.
#[derive(Drop)]
pub(crate) struct Search<'a, 's, 'w, W: FindWatch> {
    pub(crate) alloc: Global,
    pub(crate) find: Find<'a, 's, 'w, W>,
    pub(crate) hasher: RandomFold,
    /// Whether a worker is done; `None` where it has no other worker to look for.
    pub(crate) is_over: Option<AtomicBool>,
}

/// How far a pass has come.
#[derive(Drop)]
pub(crate) struct Progress {
    pub(crate) listed: Listed,
    pub(crate) random: Xoshiro256PlusPlus,
    /// How many nodes it has visited.
    pub(crate) nodes: u64,
    /// How many nodes it may visit while nothing is listed; `None` where this has no bound.
    pub(crate) fuel: Option<u64>,
}

impl<'a, 's, 'w, W: FindWatch> Search<'a, 's, 'w, W> {
    /// Returns why the pass ends before it looks further, if it does.
    pub(crate) fn ended(&self, progress: &Progress) -> Option<Ended>
        ensures goes_on { result ≡ None → length progress.now.listed.arrangements.items < self.now.find.most }
        ensures enough { result ≡ Some Ended.Enough
            → self.now.find.most ≤ length progress.now.listed.arrangements.items }
        ensures whole { result ≢ Some Ended.Whole }
        ensures unspent { progress.now.fuel ≡ None → self.now.is_over ≡ None → result ≢ Some Ended.Spent }
    {
        let listed = progress.listed.arrangements.len();
        if listed >= self.find.most as usize {
            return Some(Ended::Enough);
        }
        let is_out = match progress.fuel {
            Some(fuel) => listed == 0 && progress.nodes > fuel,
            None => false,
        };
        if is_out {
            return Some(Ended::Spent);
        }
        if progress.nodes % NODES_BETWEEN_LOOKS == 0 {
            self.find.watch.goes_on();
            if self.is_over() {
                return Some(Ended::Spent);
            }
        }
        None
    }

    /// Returns whether a worker is done.
    pub(crate) fn is_over(&self) -> bool
        ensures { self.now.is_over ≡ None → result ≡ false }
    {
        match &self.is_over {
            Some(is_over) => is_over.load(Ordering::Relaxed),
            None => false,
        }
    }
}
