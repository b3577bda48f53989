//! Finds the arrangements of a puzzle and a certificate for their list, with a crew: workers that give each other
//! branches to search. `cert_check` has the check by a crew.
#![tactic(auto)]

mod branches;
mod faults;
mod searches;
mod shared;
mod solves;
mod strategy;

pub use faults::SolveFault;
pub use match_symmetry::Suggested;
pub use solves::{SearchPlan, Solved, solve_watched, solve_with};
pub use xcc_dance::{Unwatched, Watch};
