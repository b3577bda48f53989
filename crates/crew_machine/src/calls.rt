//! The opening state, a step, and what a state shows.

ghost use Rattle.std.specs.Prelude.{◌≡◌, ◌≤◌, ◌<◌, [], Ok, IfOk, MatchResult, length};
ghost use Rattle.crew_machine.specs.Machine.{stepped, opening, copies, nobody, queue_at, worker_at, IsFault};
ghost use Rattle.crew_machine.specs.Machine.{event_of};

use crate::events::Event;
use crate::states::{Queue, State, Worker};
use crate::steps::StepFault;
use match_limits::MOST_WORKERS;
use std::alloc::{AllocError, Global};

// `count` queues in which nothing waits.
fn empty_queues(alloc: Global, count: u8) -> Result<Vec<Queue>, AllocError>
    ensures { IfOk result (λ v. v.items ≡ copies count []) }
{
    let mut queues = Vec::new(alloc);
    for _ in 0..count {
        let numbers = Vec::new(alloc);
        queues.push(Queue { numbers })?;
    }
    Ok(queues)
}

// `count` workers that did nothing.
fn idle_workers(alloc: Global, count: u8) -> Result<Vec<Worker>, AllocError>
    ensures { IfOk result (λ v. v.items ≡ copies count nobody) }
{
    let mut workers = Vec::new(alloc);
    for _ in 0..count {
        let taken = Vec::new(alloc);
        let drawn = Vec::new(alloc);
        workers.push(Worker {
            taken,
            busy: None,
            drawn,
            stopped: false,
        })?;
    }
    Ok(workers)
}

impl State {
    /// The opening state of 1 to 64 workers and 1 to 64 queues, numbered from 0, in which at most `limit` numbers can
    /// be drawn: every list is empty, and nobody is busy or has stopped.
    pub fn new(alloc: Global, workers: u8, queues: u8, limit: u32) -> Result<State, AllocError>
        requires workers { (1 ≤ workers) × (workers ≤ MOST_WORKERS) }
        requires queues { (1 ≤ queues) × (queues ≤ MOST_WORKERS) }
        ensures { IfOk result (λ s. s ≡ opening workers queues limit) }
    {
        let queues = empty_queues(alloc, queues)?;
        let workers = idle_workers(alloc, workers)?;
        Ok(State {
            limit,
            dealt: Vec::new(alloc),
            queues,
            workers,
            next: 0,
            posted: Vec::new(alloc),
            done: Vec::new(alloc),
        })
    }

    /// Does what the event says, or refuses it and changes nothing: the first fault in the order of the formats' table,
    /// and `Memory` only where there is no other and a list is to become longer, so never for `Stop`.
    pub fn step(&mut self, event: &Event) -> Result<(), StepFault>
        ensures { MatchResult result
            (λ _. stepped self.old (event_of event.now) ≡ Ok self.new)
            (λ e. (self.new ≡ self.old) × IsFault e (event_of event.now) (stepped self.old (event_of event.now))) }
    {
        match *event {
            Event::Deal { queue, number } => self.deal(queue, number),
            Event::Take { worker, queue } => self.take(worker, queue),
            Event::Draw { worker } => self.draw(worker),
            Event::Post { worker } => self.post(worker),
            Event::Finish { worker } => self.finish(worker),
            Event::Stop { worker } => self.stop(worker),
        }
    }

    /// The numbers that were dealt, in order.
    pub fn dealt(&self) -> &[u32]
        ensures { result.now ≡ self.now.dealt }
    {
        &self.dealt
    }

    /// The numbers that wait in a queue, from the front.
    pub fn waiting(&self, queue: u8) -> &[u32]
        requires { queue < length self.now.queues }
        ensures { result.now ≡ queue_at self.now queue }
    {
        &self.queues[usize::from(queue)].numbers
    }

    /// The numbers that a worker took, in order.
    pub fn taken(&self, worker: u8) -> &[u32]
        requires { worker < length self.now.workers }
        ensures { result.now ≡ (worker_at self.now worker).taken }
    {
        &self.workers[usize::from(worker)].taken
    }

    /// The number that a worker is busy with.
    pub fn busy(&self, worker: u8) -> Option<u32>
        requires { worker < length self.now.workers }
        ensures { result ≡ (worker_at self.now worker).busy }
    {
        self.workers[usize::from(worker)].busy
    }

    /// The numbers that a worker drew, in order.
    pub fn drawn(&self, worker: u8) -> &[u32]
        requires { worker < length self.now.workers }
        ensures { result.now ≡ (worker_at self.now worker).drawn }
    {
        &self.workers[usize::from(worker)].drawn
    }

    /// Whether a worker has stopped.
    pub fn stopped(&self, worker: u8) -> bool
        requires { worker < length self.now.workers }
        ensures { result ≡ (worker_at self.now worker).stopped }
    {
        self.workers[usize::from(worker)].stopped
    }

    /// How many numbers were drawn, and so the next to be drawn.
    pub fn next(&self) -> u32
        ensures { result ≡ self.now.next }
    {
        self.next
    }

    /// The numbers that were posted, in order.
    pub fn posted(&self) -> &[u32]
        ensures { result.now ≡ self.now.posted }
    {
        &self.posted
    }

    /// The numbers that are done, in order.
    pub fn done(&self) -> &[u32]
        ensures { result.now ≡ self.now.done }
    {
        &self.done
    }
}
