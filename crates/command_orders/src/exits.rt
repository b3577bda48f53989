//! How the program ends.

ghost use Rattle.std.specs.Prelude.{◌≡◌};
ghost use Rattle.command_orders.specs.Exits.{code_of, fault_exit, make_exit, status_exit};

use command_runs::{RunFault, Status};
use puzzle_maker::MakeFault;

/// How the program ends, each way with its exit status.
#[derive(Clone, Copy, PartialEq, Eq, Debug)]
pub enum Exit {
    /// 0: done; for a check, the list is complete.
    Done,
    /// 1: the certificate does not show that the list is complete.
    Refused,
    /// 2: the words are wrong, or there was any other fault.
    Failed,
    /// 3: the puzzle was not solved, or no puzzle was found that is as asked.
    Unsolved,
}

impl Exit {
    /// Returns how a check ends that found this.
    pub fn of_status(status: Status) -> Exit
        ensures { result ≡ status_exit status }
    {
        match status {
            Status::Complete => Exit::Done,
            Status::Refused => Exit::Refused,
        }
    }

    /// Returns how a run ends that this fault stopped.
    pub fn of_fault(fault: &RunFault) -> Exit
        ensures { result ≡ fault_exit fault.now }
    {
        match fault {
            RunFault::Solve(_) => Exit::Unsolved,
            RunFault::Make(fault) => Exit::of_make(fault),
            RunFault::Refused => Exit::Refused,
            _ => Exit::Failed,
        }
    }

    // How a run ends that made no puzzle.
    fn of_make(fault: &MakeFault) -> Exit
        ensures { result ≡ make_exit fault.now }
    {
        match fault {
            MakeFault::GaveUp | MakeFault::TooMany => Exit::Unsolved,
            MakeFault::Misfit(_) | MakeFault::Memory => Exit::Failed,
        }
    }

    /// Returns the exit status.
    pub fn code(self) -> u8
        ensures { result ≡ code_of self }
    {
        match self {
            Exit::Done => 0,
            Exit::Refused => 1,
            Exit::Failed => 2,
            Exit::Unsolved => 3,
        }
    }
}
