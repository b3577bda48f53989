//! A source and a sink over memory.

ghost use Rattle.std.specs.Prelude.{◌≡◌, ◌≤◌, [], Some, drop, false, length};

use crate::sinks::Sink;
use crate::sources::{Failed, Source};
use std::alloc::Global;

// How many bytes are written without a further request for memory.
const ROOM: usize = 16_384;

/// A source and a sink for tests: it moves a limited number of bytes a call, and fails after a number of bytes.
///
/// Where it moves at most 0 bytes a call, a write does nothing. A read gives one byte nevertheless, since none would
/// mean the end.
#[derive(Drop)]
pub struct Fake<'a> {
    bytes: &'a [u8],
    taken: usize,
    written: Vec<u8>,
    most: usize,
    fails_after: usize,
    ended: bool,
    idle: bool,
    errors: u64,
    ghost within: { taken ≤ length bytes.now },
}

impl<'a> Fake<'a> {
    /// A source of these bytes, which also keeps what is written to it. A read fails after `fails_after` bytes were
    /// read, and a write after that many were written.
    pub fn new(alloc: Global, bytes: &'a [u8], most: usize, fails_after: usize) -> Fake<'a>
        ensures bytes { result.bytes.now ≡ bytes.now }
        ensures bounds { (result.most ≡ most) × (result.fails_after ≡ fails_after) }
        ensures unmoved { (result.taken ≡ 0) × (result.written.items ≡ []) }
        ensures unasked { (result.ended ≡ false) × (result.idle ≡ false) × (result.errors ≡ 0) }
    {
        Fake {
            bytes,
            taken: 0,
            written: Vec::with_capacity(alloc, ROOM).unwrap_or(Vec::new(alloc)),
            most,
            fails_after,
            ended: false,
            idle: false,
            errors: 0,
        }
    }

    /// What was written.
    pub fn written(&self) -> &[u8]
        ensures { result.now ≡ self.now.written.items }
    {
        &self.written
    }

    /// How many bytes were read.
    pub fn taken(&self) -> usize
        ensures { result ≡ self.now.taken }
    {
        self.taken
    }

    /// How many calls failed.
    pub fn errors(&self) -> u64
        ensures { result ≡ self.now.errors }
    {
        self.errors
    }
}

impl Source for Fake<'_> {
    ghost left = { λ f. Some (drop f.taken f.bytes.now) };

    ghost ended = { λ f. f.ended };

    ghost errors = { λ f. f.errors };

    fn read(&mut self, buffer: &mut [u8]) -> Result<usize, Failed> {
        if self.taken >= self.fails_after {
            self.ended = false;
            self.errors = self.errors.saturating_add(1);
            return Err(Failed);
        }
        let left = self.bytes.len() - self.taken;
        let count = left
            .min(buffer.len())
            .min(self.most.max(1))
            .min(self.fails_after - self.taken);
        buffer[..count].copy_from_slice(&self.bytes[self.taken..self.taken + count]);
        self.taken += count;
        self.ended = count == 0;
        Ok(count)
    }
}

impl Sink for Fake<'_> {
    ghost written = { λ f. Some f.written.items };

    ghost idle = { λ f. f.idle };

    ghost errors = { λ f. f.errors };

    fn write(&mut self, bytes: &[u8]) -> Result<usize, Failed> {
        let room = self.fails_after.saturating_sub(self.written.len());
        let count = bytes.len().min(self.most).min(room);
        let fails = room == 0 || self.written.extend_from_slice(&bytes[..count]).is_err();
        if fails {
            self.idle = false;
            self.errors = self.errors.saturating_add(1);
            return Err(Failed);
        }
        self.idle = count == 0 && !bytes.is_empty();
        Ok(count)
    }
}
