//! Work by number, and what is handed to a worker and back.

ghost use Rattle.std.specs.Prelude.{ℕ, IfOk};

use crate::queues::View;
use crossbeam_deque::Pass;
use std::alloc::AllocError;

/// What is to be done for each number.
pub trait Work {
    type R: Send + Drop;

    // the numbers that it takes
    ghost accepts: { Self → ℕ → Type 0 };
    // which results belong to a number
    ghost gives: { Self → ℕ → Self.R → Type 0 };

    /// The result of a number; an `Err` where it wants memory.
    fn one(&self, number: u32) -> Result<Self::R, AllocError>
        requires { accepts self.now number }
        ensures { IfOk result (gives self.now number) };
}

// What a worker is given: the number of its own queue, and its place at each queue.
#[derive(Drop)]
pub(crate) struct Station {
    pub own: usize,
    pub places: Vec<Pass<u32, View>>,
}

// What a worker brings back: its places, and the results of the numbers that it took.
#[derive(Drop)]
pub(crate) struct Share<X: Drop> {
    pub places: Vec<Pass<u32, View>>,
    pub done: Vec<(u32, X)>,
}
