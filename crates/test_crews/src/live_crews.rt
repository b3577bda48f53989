ghost use Rattle.std.specs.Prelude.{◌≤◌};

use crate::meetings::{Meeting, all_met};
use giving_crew::{Hand, LiveWork, run_live};
use match_limits::{MOST_LEMMAS, MOST_WORKERS};
use std::alloc::{AllocError, Global};
use std::sync::Wait;
use std::test::Fail;
use std::thread;
use std::thread::Threads;
use steal_crew::Crew;

// A job below the last gives away the next one. Each answers itself.
#[derive(Drop)]
struct Countup {
    last: u32,
}

impl LiveWork for Countup {
    type Job = u32;

    type R = u32;

    ghost use Rattle.std.specs.Prelude.{◌≡◌};

    ghost gives = { λ _ _ _ job r. r ≡ job };

    fn one(&self, _number: u32, job: u32, hand: &mut Hand<'_, u32>) -> Result<u32, AllocError> {
        if job < self.last {
            let _ = hand.give(job + 1);
        }
        Ok(job)
    }
}

// Job 0 gives away two jobs, 1 and 2, which look for each other. Job 3 gives away job 4, which gives 1 and 2 away after
// a while, in which the queue is empty.
#[derive(Drop)]
struct Callers {
    meeting: Meeting,
}

impl LiveWork for Callers {
    type Job = u8;

    type R = bool;

    ghost gives = { λ _ _ _ _ _. Unit {0} };

    fn one(&self, _number: u32, job: u8, hand: &mut Hand<'_, u8>) -> Result<bool, AllocError> {
        match job {
            1 | 2 => return Ok(self.meeting.meets(job == 1)),
            3 => return Ok(hand.give(4).is_ok()),
            4 => wait_a_while(),
            _ => {}
        }
        Ok(hand.give(1).is_ok() && hand.give(2).is_ok())
    }
}

fn wait_a_while() {
    for _ in 0..300_000u32 {
        thread::yield_now();
    }
}

// Whether the results are the numbers below the count.
fn counts_up(crew: Crew<u32>, count: u32) -> bool {
    crew.results().iter().copied().eq(0..count)
}

// Each row is the last job, the limit and how many jobs are done.
const ROWS: [(u32, u32, u32); 3] = [(3, 9, 4), (3, 2, 2), (150, MOST_LEMMAS, 151)];

// Whether `workers` workers do all jobs of each row. Where memory is refused, that is the outcome: no job is lost.
fn all_are_done<R: Threads + Wait + Sync>(
    rt: &R,
    alloc: Global,
    workers: u8,
) -> Result<bool, AllocError>
    requires { (1 ≤ workers) × (workers ≤ MOST_WORKERS) }
{
    for (last, limit, count) in ROWS {
        let crew = run_live(rt, alloc, &Countup { last }, 0, limit, workers)?;
        if !counts_up(crew, count) {
            return Ok(false);
        }
    }
    Ok(true)
}

#[test]
fn each_given_job_is_done(rt: HostRuntime) -> Result<(), Fail> {
    for workers in [1, 2, 3, 7, 64] {
        assert!(rt; all_are_done(&rt, rt.alloc(), workers)?, "by {workers}");
    }
    Ok(())
}

#[test]
fn two_given_at_once(rt: HostRuntime) -> Result<(), Fail> {
    for first in [0, 3] {
        let meeting = Meeting::new();
        let callers = Callers { meeting };
        all_met(run_live(&rt, rt.alloc(), &callers, first, 4, 2)?)?;
    }
    Ok(())
}
