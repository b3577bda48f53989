//! Reads whole documents.

ghost use Rattle.std.specs.Prelude.{IfErr, IfOk};
ghost use Rattle.byte_streams.specs.Moves.{Gives, reading_of};
ghost use Rattle.command_runs.specs.Runs.{StopsReading};

use crate::faults::RunFault;
use byte_streams::{Document, Source};
use std::alloc::Global;

/// Reads all bytes of a document, at most `bound`, up to the end that a read finds. It takes a buffer of 64 KiB beside
/// them.
///
/// `Read` of the document comes where the source returned an error; `TooLong` of it exactly where more bytes than
/// `bound` came without an error.
pub fn read_whole<R: Source>(
    alloc: Global,
    reader: &mut R,
    bound: u32,
    document: Document,
) -> Result<Vec<u8>, RunFault>
    ensures came { IfOk result (λ text. Gives bound (reading_of R.Source reader.old reader.new) text.items) }
    ensures stopped { IfErr result (StopsReading bound document (reading_of R.Source reader.old reader.new)) }
{
    Ok(byte_streams::read_whole(alloc, reader, bound, document)?)
}
