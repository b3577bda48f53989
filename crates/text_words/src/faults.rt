//! What may be wrong with a text.

ghost use Rattle.std.specs.Prelude.{◌≡◌, Some};
ghost use Rattle.text_words.specs.FaultText.{kind_word, read_fault_text, text_fault_text};
ghost use Rattle.text_words.specs.declared.faults.ReadFault.TheVariants.{Memory, Text};

use std::alloc::{AllocError, AllocFailed};
use std::error::Error;
use std::fmt;

/// What is wrong at a place of a text.
#[derive(Clone, Copy, PartialEq, Eq, Debug)]
pub enum TextKind {
    /// The text is of another version.
    Version,
    /// A word is missing, or isn't one that may be there.
    Word,
    /// A word isn't a number: it has to have digits alone, and only the number 0 begins with a 0.
    Number,
    /// A number is out of its range, or there are too many entries.
    Limit,
    /// The text ends before the line does.
    Ends,
    /// Something comes after the last line.
    After,
    /// A tree has more levels than are read.
    TooDeep,
}

impl fmt::Display for TextKind {
    ghost output = { λ kind. Some (kind_word kind) };

    fn fmt<W: fmt::Write>(&self, f: &mut fmt::Formatter<W>) -> fmt::Result {
        f.write_str(match self {
            TextKind::Version => "version",
            TextKind::Word => "word",
            TextKind::Number => "number",
            TextKind::Limit => "limit",
            TextKind::Ends => "ends",
            TextKind::After => "after",
            TextKind::TooDeep => "too-deep",
        })
    }
}

/// The first fault of a text, with the number of its line, from 1.
#[derive(Clone, Copy, PartialEq, Eq, Debug)]
pub struct TextFault {
    pub line: u32,
    pub kind: TextKind,
}

impl fmt::Display for TextFault {
    ghost output = { λ fault. Some (text_fault_text fault) };

    fn fmt<W: fmt::Write>(&self, f: &mut fmt::Formatter<W>) -> fmt::Result {
        let TextFault { line, kind } = *self;
        write!(f, "line {line}: {kind}")
    }
}

impl Error for TextFault {}

/// Why a text could not be read.
#[derive(Clone, Copy, PartialEq, Eq, Debug)]
pub enum ReadFault {
    Text(TextFault),
    Memory,
}

impl fmt::Display for ReadFault {
    ghost output = { λ fault. Some (read_fault_text fault) };

    fn fmt<W: fmt::Write>(&self, f: &mut fmt::Formatter<W>) -> fmt::Result {
        match self {
            ReadFault::Text(fault) => write!(f, "{fault}"),
            ReadFault::Memory => f.write_str("out of memory"),
        }
    }
}

impl Error for ReadFault {}

impl From<TextFault> for ReadFault {
    ghost from_gives = { λ fault e. e ≡ Text fault };

    fn from(fault: TextFault) -> ReadFault {
        ReadFault::Text(fault)
    }
}

impl From<AllocError> for ReadFault {
    ghost from_gives = { λ _ e. e ≡ Memory };

    fn from(_error: AllocError) -> ReadFault {
        ReadFault::Memory
    }
}

impl<T: Drop> From<AllocFailed<T>> for ReadFault {
    ghost from_gives = { λ _ e. e ≡ Memory };

    fn from(_error: AllocFailed<T>) -> ReadFault {
        ReadFault::Memory
    }
}
