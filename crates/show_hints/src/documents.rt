//! Documents whose texts are read by lines.

use cert_text::certificate_fault_place;
use match_limits::MOST_BYTES;
use match_text::{list_fault_place, puzzle_fault_place};
use std::alloc::{AllocError, Global};
use text_words::FaultPlace;

// A document whose text is read by lines.
#[derive(Clone, Copy, PartialEq, Eq)]
pub(crate) enum Document {
    Puzzle,
    List,
    Certificate,
}

impl Document {
    pub(crate) fn name(self) -> &'static str {
        match self {
            Document::Puzzle => "puzzle",
            Document::List => "list",
            Document::Certificate => "certificate",
        }
    }

    // Where the text has its first fault; none where it has none, is too long to be read, or memory is refused.
    pub(crate) fn fault_place(self, alloc: Global, text: &[u8]) -> Option<FaultPlace<'_>> {
        if text.len() > MOST_BYTES as usize {
            return None;
        }
        match self {
            Document::Puzzle => puzzle_fault_place(alloc, text),
            Document::List => list_fault_place(alloc, text),
            Document::Certificate => certificate_fault_place(alloc, text),
        }
    }
}

// The text with a line feed behind it.
pub(crate) fn with_line_feed(alloc: Global, text: &[u8]) -> Result<Vec<u8>, AllocError> {
    let mut ended = Vec::from_slice(alloc, text)?;
    ended.push(b'\n')?;
    Ok(ended)
}
