//! Prints the answer of a check, the report of a search, and what follows from a complete list.
#![tactic(auto)]

mod answers;
mod boards;
mod complete_lists;
mod lines;
mod statuses;
mod tallies;

pub use answers::write_answer;
pub use boards::write_board;
pub use complete_lists::{count_complete, expand_complete, write_all, write_counts, write_orbits};
pub use statuses::{Status, Verdict, write_verdict};
pub use symmetry_orbits::ExpandFault;
pub use tallies::{Taken, write_tally};
