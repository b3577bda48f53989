//! Finds some arrangements of a puzzle, and no more than are wanted.
#![tactic(auto)]

mod crews;
mod ends;
mod faults;
mod listed;
mod passes;
mod searches;
mod turns;
mod walks;
mod watches;

pub use crews::{Find, find_with_crew};
pub use faults::FindFault;
pub use watches::FindWatch;
