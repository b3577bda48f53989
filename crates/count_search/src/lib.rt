//! Counts arrangements by a search that keeps none of them.
#![tactic(auto)]

mod balanced_sets;
mod balances;
mod branches;
mod children;
mod counting;
mod crews;
mod dives;
mod hashes;
mod laws;
mod looks;
mod parts;
mod roots;
mod rules;
mod ruling_out;
mod short_counts;
mod splits;
mod spreads;
mod totals;
mod watches;
mod weights;

pub use balanced_sets::BalancedSets;
pub use branches::Branch;
pub use counting::count_below;
pub use crews::{Count, count_with_crew};
pub use dives::work_of;
pub use hashes::hash_of;
pub use laws::{
    extensions_are_found, options_that_show_alike_have_as_many, parts_make_the_whole,
    selections_have_a_number, symmetric_options_have_as_many,
};
pub use parts::part_of;
pub use rules::ItemRule;
pub use ruling_out::RulesOut;
pub use short_counts::count_if_short;
pub use splits::{MOST_BRANCHES, split};
pub use totals::count_arrangements;
pub use watches::CensusWatch;
