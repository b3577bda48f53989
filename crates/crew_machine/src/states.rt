//! States of the crew machine.

use std::marker::Model;

/// What one worker did.
#[derive(Drop)]
pub struct Worker {
    pub(crate) taken: Vec<u32>,
    pub(crate) busy: Option<u32>,
    pub(crate) drawn: Vec<u32>,
    pub(crate) stopped: bool,
}

impl Model for Worker {
    ghost use Rattle.crew_machine.specs.Machine.{Worker};

    ghost Value = { Worker };

    ghost view = { λ w. record { taken = w.taken.items; busy = w.busy; drawn = w.drawn.items; stopped = w.stopped } };
}

/// The numbers that wait in a queue, from the front.
#[derive(Drop)]
pub struct Queue {
    pub(crate) numbers: Vec<u32>,
}

impl Model for Queue {
    ghost use Rattle.std.specs.Prelude.{List, ℕ};

    ghost Value = { List ℕ };

    ghost view = { λ l. l.numbers.items };
}

/// A state of the crew machine: the numbers that were dealt, that wait in each queue, that each worker took, is busy
/// with and drew, that were posted and that are done.
#[derive(Drop)]
pub struct State {
    pub(crate) limit: u32,
    pub(crate) dealt: Vec<u32>,
    pub(crate) queues: Vec<Queue>,
    pub(crate) workers: Vec<Worker>,
    pub(crate) next: u32,
    pub(crate) posted: Vec<u32>,
    pub(crate) done: Vec<u32>,
}

impl Model for State {
    ghost use Rattle.crew_machine.specs.Machine.{State};

    ghost Value = { State };

    ghost view = { λ s. record {
      limit = s.limit;
      dealt = s.dealt.items;
      queues = s.queues.items;
      workers = s.workers.items;
      next = s.next;
      posted = s.posted.items;
      done = s.done.items;
    } };
}
