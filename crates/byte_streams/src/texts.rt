//! Texts that were read, and texts that are made and written.

ghost use Rattle.std.specs.Prelude.{◌≡◌, ◌≤◌, length};
ghost use Rattle.match_limits.specs.declared.TheConstants.{MOST_BYTES};
ghost use Rattle.byte_streams.specs.Moves.{Writes, writing_of};

use crate::sinks::Sink;
use crate::sources::Failed;
use crate::writings::{write_parts, write_whole};
use std::marker::Model;

/// A text that was read: at most 1,073,741,824 bytes, which contracts see as a list.
#[derive(Drop)]
pub struct Text {
    bytes: Vec<u8>,
}

impl Model for Text {
    ghost use Rattle.std.specs.Prelude.{◌≤◌, List, ℕ, length};
    ghost use Rattle.match_limits.specs.declared.TheConstants.{MOST_BYTES};

    ghost Value = { List ℕ };

    ghost view = { λ t. t.bytes.items };

    ghost invariant = { λ t. length t.bytes.items ≤ MOST_BYTES };
}

impl Text {
    /// The text of these bytes.
    pub fn new(bytes: Vec<u8>) -> Text
        requires { length bytes.items ≤ MOST_BYTES }
        ensures { result ≡ bytes.items }
    {
        Text { bytes }
    }

    /// Its bytes.
    pub fn bytes(&self) -> &[u8]
        ensures bytes { result.now ≡ self.now }
        ensures short { length self.now ≤ MOST_BYTES }
    {
        &self.bytes
    }
}

// What holds the bytes of a text that was made.
#[derive(Drop)]
enum Pieces {
    Whole(Vec<u8>),
    Several(Vec<Vec<u8>>),
}

/// A text that was made, to be written: whole, or in the parts in which it was made. Contracts see its bytes as a list.
#[derive(Drop)]
pub struct MadeText {
    pieces: Pieces,
}

impl Model for MadeText {
    ghost use Rattle.std.specs.Prelude.{List, ℕ};
    ghost use Rattle.byte_streams.specs.MadeTexts.{bytes_of_pieces};

    ghost Value = { List ℕ };

    ghost view = { λ t. bytes_of_pieces t.pieces };
}

impl MadeText {
    ghost use Rattle.std.specs.List.{flat_map};

    /// The text of these bytes.
    pub fn new(bytes: Vec<u8>) -> MadeText
        ensures { result ≡ bytes.items }
    {
        MadeText {
            pieces: Pieces::Whole(bytes),
        }
    }

    /// The text of these parts, one after the other. They are not copied.
    pub fn of_parts(parts: Vec<Vec<u8>>) -> MadeText
        ensures { result ≡ flat_map (λ part. part.items) parts.items }
    {
        MadeText {
            pieces: Pieces::Several(parts),
        }
    }
}

/// Writes the whole text, part by part. Where that fails, the beginning of it was written, and the sink answered an
/// error, or took no byte of the rest.
pub fn write_made<W: Sink>(writer: &mut W, text: &MadeText) -> Result<(), Failed>
    ensures { Writes (writing_of W.Sink writer.old writer.new) text.now result }
{
    match &text.pieces {
        Pieces::Whole(bytes) => write_whole(writer, bytes),
        Pieces::Several(parts) => write_parts(writer, parts),
    }
}
