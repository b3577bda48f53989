//! Puzzles compiled to exact covers with colours (Knuth, TAOCP 4B, 7.2.2.1): choosing options so that each primary item
//! is in exactly one of them, and each secondary item has one colour. And what a search needs from its engine: which
//! options stay open beside the chosen ones.
#![tactic(auto)]

mod arrangements;
mod chooses;
mod edges;
mod faults;
mod laws;
mod lists;
mod lookups;
mod numbers;
mod open_options;
mod xccs;

pub use chooses::{Chooses, FewestOptions, LeastLeft, LeastLeftOfFew};
pub use edges::Edge;
pub use faults::{CompileFault, FormFault};
pub use laws::{compiled_in_one_way, options_are_sets, solutions_are_arrangements};
pub use lookups::{open_option, option_behind, uncovered_item};
pub use open_options::{FromCompiled, OpenOptions, left_by};
pub use xccs::{Xcc, compile};
