ghost use Rattle.std.specs.Prelude.{◌≡◌, ◌*◌, ◌≤◌, length, vec_len};

use crate::meetings::{Meeting, all_met};
use match_limits::{MOST_LEMMAS, MOST_WORKERS};
use std::alloc::{AllocError, Global};
use std::test::Fail;
use std::thread::Threads;
use steal_crew::{Crew, Work, run_crew};

struct Squares;

impl Work for Squares {
    type R = u64;

    ghost accepts = { λ _ _. Unit {0} };

    ghost gives = { λ _ n r. r ≡ n * n };

    fn one(&self, number: u32) -> Result<u64, AllocError> {
        let wide = u64::from(number);
        Ok(wide * wide)
    }
}

// Number 0 and the last one look for each other.
#[derive(Drop)]
struct Callers {
    meeting: Meeting,
    last: u32,
}

impl Work for Callers {
    type R = bool;

    ghost accepts = { λ _ _. Unit {0} };

    ghost gives = { λ _ _ _. Unit {0} };

    fn one(&self, number: u32) -> Result<bool, AllocError> {
        let is_between = number != 0 && number != self.last;
        Ok(is_between || self.meeting.meets(number == 0))
    }
}

// The numbers that the first `workers` workers took, in order.
fn taken_by(alloc: Global, crew: &Crew<u64>, workers: u8) -> Result<Vec<u32>, AllocError>
    requires { workers ≤ vec_len crew.now.tallies }
{
    let mut taken = Vec::new(alloc);
    for worker in 0..workers {
        taken.extend_from_slice(crew.tally(worker))?;
    }
    taken.sort()?;
    Ok(taken)
}

// Whether `workers` workers come to these squares, and each of these numbers was taken by one of them.
fn squares_by<R: Threads + Sync>(
    rt: &R,
    alloc: Global,
    workers: u8,
    squares: &[u64],
    numbers: &[u32],
) -> Result<bool, AllocError>
    requires workers { (1 ≤ workers) × (workers ≤ MOST_WORKERS) }
    requires few { length squares.now ≤ MOST_LEMMAS }
{
    let crew = run_crew(rt, alloc, &Squares, squares.len() as u32, workers)?;
    let taken = taken_by(alloc, &crew, workers)?;
    Ok(crew.results() == squares && taken.as_slice() == numbers)
}

#[test]
fn squares_by_any_number_of_workers(rt: HostRuntime) -> Result<(), Fail> {
    for workers in 1..65 {
        assert!(rt;
            squares_by(
                &rt,
                rt.alloc(),
                workers,
                &[0, 1, 4, 9, 16],
                &[0, 1, 2, 3, 4]
            )?,
            "by {workers}"
        );
    }
    assert!(rt; squares_by(&rt, rt.alloc(), 3, &[], &[])?);
    Ok(())
}

// Where the last number is 1, each of the two waits in a queue of its own. Where it is 2, both wait in one queue, and
// one of them has to be taken by the other queue's worker. Where it is 999, one worker has hundreds of numbers to do
// before it comes.
#[test]
fn two_at_once(rt: HostRuntime) -> Result<(), Fail> {
    for last in [1, 2, 999] {
        let meeting = Meeting::new();
        let callers = Callers { meeting, last };
        all_met(run_crew(&rt, rt.alloc(), &callers, last + 1, 2)?)?;
    }
    Ok(())
}
