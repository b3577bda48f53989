//! Watching a search while it runs.

use crate::cites::{Cite, Cites};
use match_puzzle::Pair;
use std::alloc::AllocError;

/// Is told of a search while it runs, by any of the workers. Nothing that is found depends on it.
pub trait Watch {
    /// Is called when a worker has looked at this many more children of branches, and met this many more arrangements.
    /// They count as found if their lemma is searched to its end.
    fn looked(&self, children: u32, arrangements: u32);

    /// Is called when a lemma has been searched; this many branches wait for a worker.
    fn searched(&self, waiting: u64);

    /// Is called when the fuel of a lemma was spent whose prefix has this many pairs.
    fn gave_up(&self, pairs: usize);
}

/// A watch that does nothing.
#[derive(Drop)]
pub struct Unwatched;

impl Watch for Unwatched {
    fn looked(&self, _children: u32, _arrangements: u32) {}

    fn searched(&self, _waiting: u64) {}

    fn gave_up(&self, _pairs: usize) {}
}

// this many children are reported at once
const TOLD_AT_ONCE: u32 = 1_024;

/// What a search met, as far as the numbers fit.
#[derive(Clone, Copy)]
pub struct Met {
    /// How many children of branches were met.
    pub children: u32,
    // how many arrangements were met and not reported yet
    untold: u32,
}

impl Met {
    /// Starts at the root of a lemma, which is an arrangement or isn't.
    pub fn at_root(is_arrangement: bool) -> Met {
        Met {
            children: 0,
            untold: u32::from(is_arrangement),
        }
    }

    /// Counts one more child; reports to the watch after every 1,024.
    pub fn child<W: Watch>(&mut self, watch: &W) {
        self.children = self.children.saturating_add(1);
        if self.children % TOLD_AT_ONCE == 0 {
            watch.looked(TOLD_AT_ONCE, self.untold);
            self.untold = 0;
        }
    }

    /// Counts one more arrangement.
    pub fn arrangement(&mut self) {
        self.untold = self.untold.saturating_add(1);
    }

    /// Reports what was met since the last report.
    pub fn tell_rest<W: Watch>(&self, watch: &W) {
        watch.looked(self.children % TOLD_AT_ONCE, self.untold);
    }
}

/// Cites nothing, and reports what was met.
#[derive(Drop)]
pub struct Counted<'a, W: Watch> {
    pub watch: &'a W,
    /// How many cells are to be filled.
    pub cells: usize,
    pub met: Met,
}

impl<'a, W: Watch> Cites for Counted<'a, W> {
    ghost takes = { λ _ _. Unit {0} };

    ghost answers = { λ _ _ _. Unit {0} };

    ghost moves = { λ _ _. Unit {0} };

    ghost stays = { λ _. tt };

    ghost goes_on = { λ _ _ _ _ _. tt };

    ghost takes_still = { λ _ _ _ _ _. tt };

    ghost answers_still = { λ _ _ _ _ _ _. tt };

    fn cite(&mut self, prefix: &[Pair]) -> Result<Option<Cite>, AllocError> {
        self.met.child(self.watch);
        if prefix.len() == self.cells {
            self.met.arrangement();
        }
        Ok(None)
    }
}
