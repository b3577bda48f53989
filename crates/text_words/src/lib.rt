//! Texts of lines and words: reads what is at a place of a text, and writes words and lines. No puzzle is made here.
#![tactic(auto)]

mod asked;
mod cuts;
mod faults;
mod fixed_words;
mod numbers;
mod scans;
mod spellings;
mod words;

pub use asked::{Asked, FaultPlace};
pub use cuts::{cut, cut_line};
pub use faults::{ReadFault, TextFault, TextKind};
pub use fixed_words::version_word;
pub use scans::Scan;
pub use spellings::{character, letter, put_end, put_number, put_number_line, put_placement};
pub use words::row_word;
