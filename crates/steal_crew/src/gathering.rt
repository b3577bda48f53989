//! What the workers bring back.

ghost use Rattle.std.specs.Prelude.{◌≡◌, ◌≤◌, ◌<◌, ◌-◌, ℕ, IfOk, OnOk, All, vec_len};
ghost use Rattle.crossbeam_deque.specs.Handles.{worker_view, worker_deque, worker_flavor};
ghost use Rattle.crew_machine.specs.Counts.{times};
ghost use Rattle.steal_crew.specs.QueueRule.{part_count};
ghost use Rattle.steal_crew.specs.Queues.{AreKnown, AreQueues, IsOfShares, Places, ShowSpent, AreDealt};

use crate::queues::{Owner, Parts, Queues, Takes, View, Whole};
use crate::works::Share;
use crossbeam_deque::Pass;
use match_limits::MOST_WORKERS;
use std::alloc::{AllocError, Global};

impl Queues {
    // Takes in the places of one worker.
    fn take_in(&mut self, mut places: Vec<Pass<u32, View>>)
        requires queues { AreQueues self.old }
        requires out { (0 < self.old.out) × (self.old.out ≤ MOST_WORKERS) }
        requires places { Places (vec_len self.old.handles) self.old.count self.old.handles.items places.items }
        ensures { AreDealt self.old.handles self.old.count (self.old.out - 1) self.new }
    {
        self.out -= 1;
        while let Some(place) = places.pop() {
            let q = places.len();
            self.owners[q].absorb::<Parts>(place);
        }
    }

    // Takes in the places of all workers, and answers what each brought. The first is that of the last share.
    pub fn collect<X: Drop>(
        &mut self,
        alloc: Global,
        mut shares: Vec<Result<Share<X>, AllocError>>,
    ) -> Result<Vec<Vec<(u32, X)>>, AllocError>
        requires queues { AreDealt self.old.handles self.old.count (vec_len shares) self.old }
        requires few { vec_len shares ≤ MOST_WORKERS }
        requires shares { All (λ t. IfOk t (λ share.
            Places (vec_len self.old.handles) self.old.count self.old.handles.items share.places.items)) shares.items }
        ensures queues { OnOk result (AreDealt self.old.handles self.old.count 0 self.new) }
        ensures brought { IfOk result (λ v. All (IsOfShares shares.items) v.items) }
        ensures len { IfOk result (λ v. vec_len v ≡ vec_len shares) }
    {
        let mut brought = Vec::new(alloc);
        while let Some(share) = shares.pop() {
            let Share { places, done } = share?;
            self.take_in(places);
            brought.push(done)?;
        }
        Ok(brought)
    }

    // Takes what is left on each queue. Its results are still to come.
    pub fn drain_all(&mut self)
        requires { AreDealt self.old.handles self.old.count 0 self.old }
        ensures { AreKnown self.old.handles self.old.count self.new }
    {
        for q in 0..self.handles.len() {
            drain(&mut self.owners[q]);
        }
    }

    // What is known of each queue, when the queues themselves are let go.
    pub fn histories(&mut self, alloc: Global) -> Result<Vec<Pass<u32, View>>, AllocError>
        requires { AreKnown self.old.handles self.old.count self.old }
        ensures len { IfOk result (λ v. vec_len v ≡ vec_len self.old.handles) }
        ensures each { IfOk result (λ v. ShowSpent (vec_len self.old.handles) self.old.count v.items) }
    {
        let mut list = Vec::new(alloc);
        for q in 0..self.handles.len() {
            list.reserve(1)?;
            let history = self.owners[q].another::<Whole>();
            list.push_reserved(history);
        }
        Ok(list)
    }
}

// Takes what is left on a queue of which no part is out.
fn drain(owner: &mut Owner)
    requires fifo { worker_flavor owner.old ≡ 0 }
    requires whole { (worker_view owner.old).parts ≡ part_count }
    ensures deque { worker_deque owner.new ≡ worker_deque owner.old }
    ensures fifo { worker_flavor owner.new ≡ 0 }
    ensures whole { (worker_view owner.new).parts ≡ part_count }
    ensures below { (worker_view owner.new).below ≡ (worker_view owner.old).below }
    ensures dealt { (worker_view owner.new).dealt ≡ (worker_view owner.old).dealt }
    ensures taken { (x : ℕ) → times x (worker_view owner.new).taken ≡ times x (worker_view owner.new).dealt }
{
    while let Some(_) = owner.pop_as::<Takes>() {}
}
