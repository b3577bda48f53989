//! Reads and writes a list and a certificate with a crew of workers (threads).
#![tactic(auto)]

mod list_writings;
mod parts;
mod readings;
mod texts;
mod writings;

pub use readings::read_certificate_with;
pub use texts::{ReadTexts, WrittenTexts, read_texts_with, write_texts_with};
pub use writings::write_certificate_with;
