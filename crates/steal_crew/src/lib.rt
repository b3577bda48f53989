//! Crews of workers that do numbered jobs, each from a queue of its own first, and then from the others. What crews of
//! other kinds stand on: the source of their numbers, and one queue of jobs for all.
#![tactic(auto)]

mod crews;
mod dealing;
mod gathering;
pub mod jobs;
mod joins;
mod orders;
mod queues;
mod results;
mod taking;
mod tickets;
mod works;

pub use crew_machine as machine;
pub use crews::{Crew, run_crew};
pub use joins::both;
pub use orders::run_from_last;
pub use tickets::{AllDrawn, TicketSeat, Tickets};
pub use works::Work;
