//! Lines of counted parts, and their sums.
#![tactic(auto)]

mod counts;
mod faults;
mod lines;
mod readings;
mod tallies;
mod totals;

pub use faults::{Clash, PartsFault};
pub use lines::{CountedPart, Line, SplitLine, put_line};
pub use readings::read_line;
pub use totals::total_of;

/// The most parts of a split that are counted.
pub const MOST_PARTS: u32 = 1_000_000;
