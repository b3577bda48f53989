//! What an event does to a state.

ghost use Rattle.std.specs.Prelude.{◌≡◌, ◌++◌, ◌∷◌, [], Ok, OnOk, OnErr, MatchResult, MatchOption};
ghost use Rattle.crew_machine.specs.Machine.{stepped, deal, take, draw, post, finish, stop, IsFault, stands};

use crate::states::{Queue, State};
use std::alloc::AllocError;

/// Why an event is refused.
#[derive(Clone, Copy, Debug, PartialEq, Eq)]
pub enum StepFault {
    /// The worker is out of range.
    Worker,
    /// The queue is out of range.
    Queue,
    /// The worker has stopped.
    Stopped,
    /// The worker is busy.
    Busy,
    /// The worker is not busy.
    Idle,
    /// Nothing waits in the queue.
    Empty,
    /// The number was dealt before.
    Dealt,
    /// As many were drawn as may be.
    Full,
    /// The number was posted before.
    Posted,
    /// Memory for a longer list is refused; then no other fault applies.
    Memory,
}

fn has(xs: &Vec<u32>, x: u32) -> bool
    ensures { result ≡ stands x xs.now.items }
{
    for y in xs.iter() {
        if *y == x {
            return true;
        }
    }
    false
}

impl Queue {
    // The number at the front leaves.
    fn front(&mut self) -> Option<u32>
        ensures { MatchOption result ((self.old ≡ []) × (self.new ≡ [])) (λ x. self.old ≡ x ∷ self.new) }
    {
        if self.numbers.is_empty() {
            return None;
        }
        Some(self.numbers.remove(0))
    }

    fn add(&mut self, number: u32) -> Result<(), AllocError>
        ensures ok { OnOk result (self.new ≡ self.old ++ number ∷ []) }
        ensures err { OnErr result (self.new ≡ self.old) }
    {
        self.numbers.push(number)?;
        Ok(())
    }
}

impl State {
    pub(crate) fn deal(&mut self, queue: u8, number: u32) -> Result<(), StepFault>
        ensures { MatchResult result
            (λ _. stepped self.old (deal queue number) ≡ Ok self.new)
            (λ e. (self.new ≡ self.old) × IsFault e (deal queue number) (stepped self.old (deal queue number))) }
    {
        let at = usize::from(queue);
        if at >= self.queues.len() {
            return Err(StepFault::Queue);
        }
        if has(&self.dealt, number) {
            return Err(StepFault::Dealt);
        }
        if self.dealt.reserve(1).is_err() {
            return Err(StepFault::Memory);
        }
        let waiting = &mut self.queues[at];
        if waiting.add(number).is_err() {
            return Err(StepFault::Memory);
        }
        self.dealt.push_reserved(number);
        Ok(())
    }

    pub(crate) fn draw(&mut self, worker: u8) -> Result<(), StepFault>
        ensures { MatchResult result
            (λ _. stepped self.old (draw worker) ≡ Ok self.new)
            (λ e. (self.new ≡ self.old) × IsFault e (draw worker) (stepped self.old (draw worker))) }
    {
        let at = usize::from(worker);
        if at >= self.workers.len() {
            return Err(StepFault::Worker);
        }
        let drawing = &mut self.workers[at];
        if drawing.stopped {
            return Err(StepFault::Stopped);
        }
        if self.next >= self.limit {
            return Err(StepFault::Full);
        }
        if drawing.drawn.push(self.next).is_err() {
            return Err(StepFault::Memory);
        }
        self.next += 1;
        Ok(())
    }

    pub(crate) fn take(&mut self, worker: u8, queue: u8) -> Result<(), StepFault>
        ensures { MatchResult result
            (λ _. stepped self.old (take worker queue) ≡ Ok self.new)
            (λ e. (self.new ≡ self.old) × IsFault e (take worker queue) (stepped self.old (take worker queue))) }
    {
        let at = usize::from(worker);
        let from = usize::from(queue);
        if at >= self.workers.len() {
            return Err(StepFault::Worker);
        }
        if from >= self.queues.len() {
            return Err(StepFault::Queue);
        }
        let taking = &mut self.workers[at];
        if taking.stopped {
            return Err(StepFault::Stopped);
        }
        let None = taking.busy else {
            return Err(StepFault::Busy);
        };
        if taking.taken.reserve(1).is_err() {
            if self.queues[from].numbers.is_empty() {
                return Err(StepFault::Empty);
            }
            return Err(StepFault::Memory);
        }
        let waiting = &mut self.queues[from];
        let Some(number) = waiting.front() else {
            return Err(StepFault::Empty);
        };
        taking.taken.push_reserved(number);
        taking.busy = Some(number);
        Ok(())
    }

    pub(crate) fn post(&mut self, worker: u8) -> Result<(), StepFault>
        ensures { MatchResult result
            (λ _. stepped self.old (post worker) ≡ Ok self.new)
            (λ e. (self.new ≡ self.old) × IsFault e (post worker) (stepped self.old (post worker))) }
    {
        let at = usize::from(worker);
        if at >= self.workers.len() {
            return Err(StepFault::Worker);
        }
        let posting = &self.workers[at];
        let Some(number) = posting.busy else {
            return Err(StepFault::Idle);
        };
        if has(&self.posted, number) {
            return Err(StepFault::Posted);
        }
        if self.posted.push(number).is_err() {
            return Err(StepFault::Memory);
        }
        Ok(())
    }

    pub(crate) fn finish(&mut self, worker: u8) -> Result<(), StepFault>
        ensures { MatchResult result
            (λ _. stepped self.old (finish worker) ≡ Ok self.new)
            (λ e. (self.new ≡ self.old) × IsFault e (finish worker) (stepped self.old (finish worker))) }
    {
        let at = usize::from(worker);
        if at >= self.workers.len() {
            return Err(StepFault::Worker);
        }
        let finishing = &mut self.workers[at];
        let Some(number) = finishing.busy else {
            return Err(StepFault::Idle);
        };
        if self.done.push(number).is_err() {
            return Err(StepFault::Memory);
        }
        finishing.busy = None;
        Ok(())
    }

    pub(crate) fn stop(&mut self, worker: u8) -> Result<(), StepFault>
        ensures { MatchResult result
            (λ _. stepped self.old (stop worker) ≡ Ok self.new)
            (λ e. (self.new ≡ self.old) × IsFault e (stop worker) (stepped self.old (stop worker))) }
    {
        let at = usize::from(worker);
        if at >= self.workers.len() {
            return Err(StepFault::Worker);
        }
        let stopping = &mut self.workers[at];
        if stopping.stopped {
            return Err(StepFault::Stopped);
        }
        let None = stopping.busy else {
            return Err(StepFault::Busy);
        };
        stopping.stopped = true;
        Ok(())
    }
}
