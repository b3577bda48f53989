//! Readers and writers of the system, as sources and sinks.

ghost use Rattle.std.specs.Prelude.{◌≡◌, ◌≤◌, ◌<◌, false, IfOk, OnErr, length, take};
ghost use Rattle.std.specs.Io.KnownBytes.{Appends, Consumes, IsAtEnd, Keeps};

use byte_streams::{Failed, Refusal, Sink, Source};
use std::io::{ErrorKind, Read, Write};

// How often an interrupted call is tried in all.
const MOST_TRIES: u32 = 1000;

/// A reader with a count of its errors, up to `u64::MAX` of them. Contracts know what is left to read where they know
/// it of the reader.
///
/// An interrupted read is tried again, up to 1000 times in all.
#[derive(Drop)]
pub struct Input<R: Read> {
    reader: R,
    ended: bool,
    errors: u64,
    // why the last read failed, if one did
    refusal: Option<Refusal>,
}

impl<R: Read> Input<R> {
    /// A source over this reader.
    pub fn new(reader: R) -> Input<R>
        ensures reader { result.reader ≡ reader }
        ensures unread { (result.ended ≡ false) × (result.errors ≡ 0) }
    {
        Input {
            reader,
            ended: false,
            errors: 0,
            refusal: None,
        }
    }
}

// A read that is tried again while it is interrupted.
fn count_read<R: Read>(reader: &mut R, buffer: &mut [u8]) -> Result<usize, Refusal>
    ensures count { IfOk result (λ n. n ≤ length buffer.new) }
    ensures bytes { IfOk result (λ n.
        Consumes (R.remaining reader.old) (R.remaining reader.new) (take n buffer.new)) }
    ensures end { IfOk result (λ n. n ≡ 0 → 0 < length buffer.old → IsAtEnd (R.remaining reader.new)) }
    ensures kept { OnErr result (Keeps (R.remaining reader.old) (R.remaining reader.new)) }
{
    for _ in 0..MOST_TRIES {
        match reader.read(buffer) {
            Ok(count) => return Ok(count),
            Err(error) if error.kind() == ErrorKind::Interrupted => {}
            Err(error) => return Err(Refusal::of_opening(&error)),
        }
    }
    Err(Refusal::Other)
}

impl<R: Read> Source for Input<R> {
    ghost left = { λ s. R.remaining s.reader };

    ghost ended = { λ s. s.ended };

    ghost errors = { λ s. s.errors };

    fn read(&mut self, buffer: &mut [u8]) -> Result<usize, Failed> {
        match count_read(&mut self.reader, buffer) {
            Ok(count) => {
                self.ended = count == 0;
                Ok(count)
            }
            Err(refusal) => {
                self.ended = false;
                self.errors = self.errors.saturating_add(1);
                self.refusal = Some(refusal);
                Err(Failed)
            }
        }
    }

    fn refusal(&self) -> Option<Refusal> {
        self.refusal
    }
}

/// A writer with a count of its errors, up to `u64::MAX` of them. Contracts know the bytes written where they know them
/// of the writer.
///
/// An interrupted write is tried again, up to 1000 times in all.
#[derive(Drop)]
pub struct Output<W: Write> {
    writer: W,
    idle: bool,
    errors: u64,
    // why the last write failed, if one did
    refusal: Option<Refusal>,
}

impl<W: Write> Output<W> {
    // What the bytes go to.
    pub(crate) fn writer(&self) -> &W {
        &self.writer
    }

    /// A sink over this writer.
    pub fn new(writer: W) -> Output<W>
        ensures writer { result.writer ≡ writer }
        ensures unwritten { (result.idle ≡ false) × (result.errors ≡ 0) }
    {
        Output {
            writer,
            idle: false,
            errors: 0,
            refusal: None,
        }
    }
}

// A write that is tried again while it is interrupted.
fn count_write<W: Write>(writer: &mut W, bytes: &[u8]) -> Result<usize, Refusal>
    ensures count { IfOk result (λ n. n ≤ length bytes.now) }
    ensures bytes { IfOk result (λ n. Appends (W.contents writer.old) (W.contents writer.new) (take n bytes.now)) }
    ensures kept { OnErr result (Keeps (W.contents writer.old) (W.contents writer.new)) }
{
    for _ in 0..MOST_TRIES {
        match writer.write(bytes) {
            Ok(count) => return Ok(count),
            Err(error) if error.kind() == ErrorKind::Interrupted => {}
            Err(error) => return Err(Refusal::of_making(&error)),
        }
    }
    Err(Refusal::Other)
}

impl<W: Write> Sink for Output<W> {
    ghost written = { λ s. W.contents s.writer };

    ghost idle = { λ s. s.idle };

    ghost errors = { λ s. s.errors };

    fn write(&mut self, bytes: &[u8]) -> Result<usize, Failed> {
        match count_write(&mut self.writer, bytes) {
            Ok(count) => {
                self.idle = count == 0 && !bytes.is_empty();
                Ok(count)
            }
            Err(refusal) => {
                self.idle = false;
                self.errors = self.errors.saturating_add(1);
                self.refusal = Some(refusal);
                Err(Failed)
            }
        }
    }

    fn refusal(&self) -> Option<Refusal> {
        self.refusal
    }
}
