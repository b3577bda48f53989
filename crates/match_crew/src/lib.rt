//! Solves a puzzle, and checks a list by its certificate, with a crew of workers. The check is that of `cert_check`, the
//! search that of `solver`: neither uses the other, and this crate only hands on both.
#![tactic(auto)]

pub use cert_check::{Gate, Open, check_with};
pub use solver::{SolveFault, Solved, solve_with};
