//! The search for solutions of a compiled puzzle (an exact cover with colours). An engine keeps which options still go
//! with the chosen ones; `OpenSets` does so by counts of what fits.
#![tactic(auto)]

mod cites;
mod faults;
mod laws;
mod open_sets;
mod paths;
mod progress;
mod searches;
mod searching;
mod watches;

pub use cites::{Cite, Cites, NoCites};
pub use faults::SearchFault;
pub use laws::{
    branch_items_have_the_fewest, open_options_are_listed, open_options_are_those_that_fit,
    options_stand_as_pairs, uncovered_items_are_open, whole_selections_are_solutions,
};
pub use open_sets::OpenSets;
pub use searches::{Outcome, PackedOutcome, SearchOver};
pub use watches::{Counted, Met, Unwatched, Watch};
