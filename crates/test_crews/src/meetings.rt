//! Two threads that look for each other.

use std::sync::atomic::{AtomicBool, Ordering};
use std::test::Fail;
use std::thread;
use steal_crew::Crew;

// A flag of each of the two.
#[derive(Drop)]
pub(crate) struct Meeting {
    first: AtomicBool,
    second: AtomicBool,
}

impl Meeting {
    pub(crate) fn new() -> Meeting {
        Meeting {
            first: AtomicBool::new(false),
            second: AtomicBool::new(false),
        }
    }

    // Sets the flag of one of them, and looks for the other's. Whether it came.
    pub(crate) fn meets(&self, is_first: bool) -> bool {
        let (mine, other) = if is_first {
            (&self.first, &self.second)
        } else {
            (&self.second, &self.first)
        };
        mine.store(true, Ordering::SeqCst);
        for _ in 0..10_000_000u32 {
            if other.load(Ordering::SeqCst) {
                return true;
            }
            thread::yield_now();
        }
        false
    }
}

// Where a job of the crew looked for another that didn't come, the test ends.
pub(crate) fn all_met(crew: Crew<bool>) -> Result<(), Fail> {
    if crew.results().contains(&false) {
        return Err(Fail::new("no other thread came"));
    }
    Ok(())
}
