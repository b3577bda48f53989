//! Reads whole documents.

ghost use Rattle.std.specs.Prelude.{◌<◌, IfErr, IfOk, length};
ghost use Rattle.match_limits.specs.declared.TheConstants.{MOST_BYTES};
ghost use Rattle.byte_streams.specs.Moves.{Gives, ReadFails, reading_of};

use crate::faults::{Document, InputFault};
use crate::sources::Source;
use crate::texts::Text;
use match_limits::MOST_BYTES;
use std::alloc::Global;

// How many bytes are asked for at once.
const BUFFER_LEN: usize = 65_536;

/// The text of a document, up to the end that a read found: at most 1,073,741,824 bytes.
///
/// As [`read_whole`] with that bound.
pub fn read_text<R: Source>(
    alloc: Global,
    reader: &mut R,
    document: Document,
) -> Result<Text, InputFault>
    ensures came { IfOk result (Gives MOST_BYTES (reading_of R.Source reader.old reader.new)) }
    ensures stopped { IfErr result (ReadFails MOST_BYTES document (reading_of R.Source reader.old reader.new)) }
{
    Ok(Text::new(read_whole(alloc, reader, MOST_BYTES, document)?))
}

/// All bytes of a document, up to the end that a read found, and at most `bound`. It also takes a buffer of 64 KiB.
///
/// An `Err` is `Read` with the document where the source answered an error, and `TooLong` with the document exactly
/// where more than `bound` bytes came without an error.
pub fn read_whole<R: Source>(
    alloc: Global,
    reader: &mut R,
    bound: u32,
    document: Document,
) -> Result<Vec<u8>, InputFault>
    ensures came { IfOk result (λ text. Gives bound (reading_of R.Source reader.old reader.new) text.items) }
    ensures stopped { IfErr result (ReadFails bound document (reading_of R.Source reader.old reader.new)) }
{
    let mut buffer = vec![in alloc; 0; BUFFER_LEN]?;
    read_through(alloc, reader, &mut buffer, bound, document)
}

// All bytes of a document, up to its end and at most `bound`, read through this buffer.
fn read_through<R: Source>(
    alloc: Global,
    reader: &mut R,
    buffer: &mut [u8],
    bound: u32,
    document: Document,
) -> Result<Vec<u8>, InputFault>
    requires { 0 < length buffer.old }
    ensures came { IfOk result (λ text. Gives bound (reading_of R.Source reader.old reader.new) text.items) }
    ensures stopped { IfErr result (ReadFails bound document (reading_of R.Source reader.old reader.new)) }
{
    let mut text = Vec::new(alloc);
    loop {
        let Ok(count) = reader.read(buffer) else {
            return Err(InputFault::Read(document));
        };
        if count == 0 {
            return Ok(text);
        }
        if count > bound as usize - text.len() {
            return Err(InputFault::TooLong(document));
        }
        text.extend_from_slice(&buffer[..count])?;
    }
}
