//! Where lemmas stand in the text of a certificate.

use std::alloc::{AllocError, Global};

// The line, from 1, that the lemma with this number stands on; where it stands on none, one more than there are.
pub(crate) fn line_of(alloc: Global, certificate: &[u8], lemma: u32) -> Result<u32, AllocError> {
    let start = format!(in alloc; "lemma {lemma} ")?;
    let mut number = 1u32;
    for line in certificate.split(|byte| *byte == b'\n') {
        if line.starts_with(start.as_bytes()) {
            return Ok(number);
        }
        number = number.saturating_add(1);
    }
    Ok(number)
}

// A lemma's number, and the line on which it stands.
#[derive(Clone, Copy)]
pub(crate) struct LemmaLine {
    pub(crate) number: u32,
    pub(crate) line: u32,
}

// A line of a certificate, and one of its words, both from 1.
#[derive(Clone, Copy)]
pub(crate) struct WordPlace {
    pub(crate) line: u32,
    pub(crate) word: usize,
}
