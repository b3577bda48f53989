//! Edge-matching puzzles, their arrangements, and partial ones.
#![tactic(auto)]

mod arrangement_faults;
mod arrangements;
mod asking;
mod clue_faults;
mod clue_rules;
mod equal_tiles;
mod faults;
mod fitting;
mod fitting_pairs;
mod items;
mod laws;
mod partials;
mod parts;
mod placement_sets;
mod placements;
mod prefix_faults;
mod puzzles;
mod rules;
mod tables;

pub use arrangements::Arrangement;
pub use faults::{ArrangementFault, PrefixFault, PuzzleFault};
pub use fitting_pairs::FittingPairs;
pub use items::Item;
pub use laws::puzzle_laws;
pub use match_board::{Border, BorderRules, Clue};
pub use partials::Partial;
pub use placement_sets::{ANY_COLOUR, NO_COLOUR};
pub use placements::{Pair, Placement};
pub use puzzles::Puzzle;
pub use rules::Rules;
