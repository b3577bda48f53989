//! Boards drawn in text.
#![tactic(auto)]

mod arrangements;
mod drawings;
mod estimates;
mod faces;
mod facts;
mod laws;
mod pieces;
mod rough_numbers;
mod rows;
mod squares;
mod triangles;
mod work_lines;

pub use arrangements::write_arrangement;
pub use drawings::write_drawing;
pub use estimates::estimate_of;
pub use facts::{put_named, sides_asked, sides_shown, write_facts};
pub use laws::drawing_laws;
pub use rough_numbers::RoughNumber;
pub use work_lines::write_work;
