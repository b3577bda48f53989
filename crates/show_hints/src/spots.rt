//! Words of a text, by their lines and their numbers there.

use crate::documents::Document;
use std::alloc::{AllocError, Global};
use text_words::FaultPlace;

// How many bytes of a word are shown at most.
const MOST_SHOWN: usize = 200;

// What a text begins with that some editors put there.
const BYTE_ORDER_MARK: &[u8] = b"\xEF\xBB\xBF";

// Where a line has a fault.
#[derive(Clone, Copy)]
pub(crate) struct Spot<'a> {
    pub(crate) document: Document,
    pub(crate) line: &'a [u8],
    pub(crate) line_number: u32,
    // The word at fault; none where the line ends before it.
    pub(crate) word: Option<&'a [u8]>,
    // Its number on the line, from 1.
    pub(crate) word_number: usize,
}

impl<'a> Spot<'a> {
    // Where the text of the document has the fault that is at this place, on a line that was begun.
    pub(crate) fn of(document: Document, text: &'a [u8], place: &FaultPlace<'a>) -> Spot<'a> {
        let line = line_before(text, place.ahead);
        let (word, left) = match place.rest {
            Some(rest) => (Some(first_word(rest)), words_in(rest)),
            None => (None, 0),
        };
        Spot {
            document,
            line,
            line_number: place.fault.line,
            word,
            word_number: words_in(line).saturating_sub(left).saturating_add(1),
        }
    }

    // The line's first word.
    pub(crate) fn opening(&self) -> &'a [u8] {
        first_word(self.line)
    }

    // Whether it is the line of a lemma.
    pub(crate) fn is_of_lemma(&self) -> bool {
        self.document == Document::Certificate && self.opening() == b"lemma".as_slice()
    }

    // Whether a space too many makes an empty word.
    pub(crate) fn has_empty_word(&self) -> bool {
        match self.word {
            Some(word) => word.is_empty() && !self.line.is_empty(),
            None => false,
        }
    }

    // Whether further words stand behind the word.
    pub(crate) fn has_more_words(&self) -> bool {
        self.word_number < words_in(self.line)
    }

    // How many entries of its kind stand before the word: those behind the last word that begins some.
    pub(crate) fn entries_before(&self) -> usize {
        let mut entries = 0usize;
        let before = self.word_number.saturating_sub(1);
        for word in self.line.split(|byte| *byte == b' ').take(before) {
            entries = if begins_entries(word) {
                0
            } else {
                entries.saturating_add(1)
            };
        }
        entries
    }

    // Whether an editor of another system ended the line.
    pub(crate) fn ends_with_return(&self) -> bool {
        self.line.ends_with(b"\r")
    }

    // Whether the line is the text's first, and begins with a mark that is no part of it.
    pub(crate) fn begins_with_mark(&self) -> bool {
        self.line_number == 1 && self.line.starts_with(BYTE_ORDER_MARK)
    }
}

const BEFORE_ENTRIES: [&[u8]; 6] = [b"each", b"mates", b"cells", b"colours", b"tiles", b"prefix"];

// Whether entries stand behind the word.
fn begins_entries(word: &[u8]) -> bool {
    for own in BEFORE_ENTRIES {
        if own == word {
            return true;
        }
    }
    false
}

// The line that ends before what stands ahead of it in the text.
fn line_before<'a>(text: &'a [u8], ahead: &[u8]) -> &'a [u8] {
    let end = text.len().saturating_sub(ahead.len()).saturating_sub(1);
    let before = text.get(..end).unwrap_or_default();
    let mut lines = before.rsplit(|byte| *byte == b'\n');
    lines.next().unwrap_or_default()
}

// What stands before the first space.
pub(crate) fn first_word(line: &[u8]) -> &[u8] {
    let mut words = line.split(|byte| *byte == b' ');
    words.next().unwrap_or_default()
}

// How many words the line has: one more than spaces.
fn words_in(line: &[u8]) -> usize {
    line.split(|byte| *byte == b' ').count()
}

// The word between quotation marks: what can't be printed in it by its name, and cut where it is long.
pub(crate) fn quoted(alloc: Global, word: &[u8]) -> Result<String, AllocError> {
    let mut shown = String::from_str(alloc, "\"")?;
    for byte in word.iter().take(MOST_SHOWN) {
        put_shown(alloc, &mut shown, *byte)?;
    }
    if word.len() > MOST_SHOWN {
        shown.push_str("..")?;
    }
    shown.push('"')?;
    Ok(shown)
}

fn put_shown(alloc: Global, shown: &mut String, byte: u8) -> Result<(), AllocError> {
    match byte {
        b'\r' => shown.push_str("\\r"),
        b'\t' => shown.push_str("\\t"),
        b' '..=b'~' => shown.push(char::from(byte)),
        _ => {
            let name = format!(in alloc; "\\x{byte:02X}")?;
            shown.push_str(&name)
        }
    }
}
