//! Makes puzzles that have an arrangement: one is drawn at random, cut up, and its tiles are shuffled and turned.
#![tactic(auto)]

mod board_turns;
mod choices;
mod clues;
mod cuts;
mod dice;
mod draws;
mod faults;
mod frames;
mod like_plans;
mod likenesses;
mod makers;
mod mates;
mod outsides;
mod plain_plans;
mod plans;
mod puzzles;
mod trials;
mod watches;

pub use faults::{Flaw, MakeFault};
pub use makers::{make_puzzle, make_puzzle_like};
pub use watches::MakerWatch;
