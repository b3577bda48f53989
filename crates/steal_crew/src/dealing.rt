//! Queues are made, numbers are dealt, and parts are split off.

ghost use Rattle.std.specs.Prelude.{◌≡◌, ◌≤◌, ◌<◌, ◌+◌, ℕ, IfOk, OnOk, All, vec_len};
ghost use Rattle.steal_crew.specs.Queues.{AreQueues, Places, AreDealt, IsStation, taken_by};

use crate::queues::{Deals, Owner, Parts, Queues, View};
use crate::works::Station;
use crossbeam_deque::Pass;
use match_limits::MOST_WORKERS;
use std::alloc::{AllocError, Global};

impl Queues {
    // `queues` queues, which are empty.
    pub fn open(alloc: Global, queues: usize) -> Result<Queues, AllocError>
        ensures len { IfOk result (λ q. vec_len q.handles ≡ queues) }
        ensures queues { IfOk result (λ q. AreDealt q.handles 0 0 q) }
    {
        let mut owners = Vec::new(alloc);
        let mut handles = Vec::new(alloc);
        for _ in 0..queues {
            owners.reserve(1)?;
            handles.reserve(1)?;
            let owner = Owner::fifo_as(alloc, 64)?;
            let handle = owner.stealer()?;
            owners.push_reserved(owner);
            handles.push_reserved(handle);
        }
        Ok(Queues {
            owners,
            handles,
            count: 0,
            out: 0,
        })
    }

    // Deals the numbers below this one: number n goes to queue n mod queues.
    pub fn deal(&mut self, count: u32) -> Result<(), AllocError>
        requires queues { AreDealt self.old.handles 0 0 self.old }
        requires some { 0 < vec_len self.old.handles }
        ensures { OnOk result (AreDealt self.old.handles count 0 self.new) }
    {
        let queues = self.handles.len();
        for number in 0..count {
            let at = number as usize % queues;
            let Ok(()) = self.owners[at].push_as::<Deals>(number) else {
                return Err(AllocError);
            };
        }
        self.count = count;
        Ok(())
    }

    // One more part of each queue.
    fn places(&mut self, alloc: Global) -> Result<Vec<Pass<u32, View>>, AllocError>
        requires queues { AreQueues self.old }
        requires few { self.old.out < MOST_WORKERS }
        ensures queues { OnOk result (AreDealt self.old.handles self.old.count (self.old.out + 1) self.new) }
        ensures places { IfOk result (λ v.
            Places (vec_len self.old.handles) self.old.count self.old.handles.items v.items) }
        ensures fresh { IfOk result (λ v. (x : ℕ) → taken_by x v.items ≡ 0) }
    {
        let mut list = Vec::new(alloc);
        for q in 0..self.handles.len() {
            list.reserve(1)?;
            let pass = self.owners[q].another::<Parts>();
            list.push_reserved(pass);
        }
        self.out += 1;
        Ok(list)
    }

    // A station for each worker. The caller's is the last, and its own queue is the first.
    pub fn stations(&mut self, alloc: Global) -> Result<Vec<Station>, AllocError>
        requires queues { AreDealt self.old.handles self.old.count 0 self.old }
        requires few { vec_len self.old.handles ≤ MOST_WORKERS }
        ensures queues { OnOk result
            (AreDealt self.old.handles self.old.count (vec_len self.old.handles) self.new) }
        ensures each { IfOk result (λ v.
            All (IsStation (vec_len self.old.handles) self.old.count self.old.handles.items) v.items) }
        ensures len { IfOk result (λ v. vec_len v ≡ vec_len self.old.handles) }
    {
        let queues = self.handles.len();
        let mut list = Vec::new(alloc);
        for number in 0..queues {
            list.reserve(1)?;
            let places = self.places(alloc)?;
            let own = queues - 1 - number;
            list.push_reserved(Station { own, places });
        }
        Ok(list)
    }
}
