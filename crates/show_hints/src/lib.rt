//! What has to be changed in a text with a fault.
#![tactic(auto)]

mod clue_hints;
mod documents;
mod line_forms;
mod puzzle_hints;
mod record_hints;
mod spots;
mod text_hints;
mod tree_spots;

pub use puzzle_hints::puzzle_hint;
pub use record_hints::{certificate_hint, list_hint};
