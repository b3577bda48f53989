//! Linked lists of the options that still go with the chosen ones: an engine of the search in which each choice can be
//! taken back link by link.
#![tactic(auto)]

mod links;
mod searches;

pub use links::{Links, links_with_nothing_chosen_are_one};
pub use searches::{Search, links_of_ready_searches_are_one};
