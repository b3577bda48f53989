//! Watching how a puzzle is made.

use crate::faults::Flaw;
use count_search::CensusWatch;

/// Is told of candidates while a puzzle is made, and of each count of a candidate's arrangements, as of any count by a
/// search. No answer depends on it.
pub trait MakerWatch: CensusWatch {
    /// Is called when candidate `number`, from 1 on, won't do.
    fn failed(&self, number: u32, flaw: Flaw);
}
