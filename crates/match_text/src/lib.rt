//! Texts of puzzles and of lists of arrangements.
#![tactic(auto)]

mod character_laws;
mod faults;
mod laws;
mod list_spellings;
mod lists;
mod puzzle_spellings;
mod puzzles;
mod row_lines;
mod tile_spellings;

pub use character_laws::{list_characters, puzzle_characters};
pub use faults::{ListTextFault, PuzzleTextFault};
pub use laws::{list_laws, puzzle_laws};
pub use list_spellings::{list_within_limits, write_list};
pub use lists::{list_fault_place, read_list};
pub use puzzle_spellings::write_puzzle;
pub use puzzles::{BoardLine, PuzzleText, puzzle_fault_place, read_puzzle, read_puzzle_text};
pub use row_lines::{RowLines, list_front, write_rows};
pub use text_words::{ReadFault, TextFault, TextKind};
pub use tile_spellings::write_tiles;
