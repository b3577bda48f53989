//! Crews of workers that give jobs away: all take from one queue, on which a job may put others.
#![tactic(auto)]

mod crews;
mod gathering;
mod giving;
mod hands;
mod limits;
mod publishing;
mod runs;
mod working;
mod works;

pub use hands::Hand;
pub use runs::run_live;
pub use works::LiveWork;
