//! How many workers a run takes.

ghost use Rattle.command_orders.specs.OrderRuns.{AreWorkersOf};

use command_words::WantedWorkers;
use match_limits::{MOST_WORKERS, Workers};
use std::thread::{Threads, available_parallelism};

// As many workers as are asked for.
pub(crate) fn workers_of<R: Threads>(rt: &R, wanted: WantedWorkers) -> Workers
    ensures { AreWorkersOf wanted result }
{
    match wanted {
        WantedWorkers::All => of_processors(rt),
        WantedWorkers::Number(workers) => workers,
    }
}

// A worker for each processor that the program may use, at most as many as there may be; one where the system doesn't
// say how many processors there are.
fn of_processors<R: Threads>(rt: &R) -> Workers {
    match available_parallelism(rt) {
        Ok(processors) => {
            let workers = processors.get().min(usize::from(MOST_WORKERS));
            Workers::new(workers as u32)
        }
        Err(_) => Workers::new(1),
    }
}
