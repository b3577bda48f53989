//! The streams of a run.

use byte_streams::{Sink, Source};

/// What a run reads and writes beside files.
#[derive(Drop)]
pub struct Streams<'i, 'o, 'e, I: Source, W: Sink, E: Sink> {
    pub input: &'i mut I,
    pub output: &'o mut W,
    pub errors: &'e mut E,
    /// Whether somebody reads the errors on a terminal. Then the run also says there why a file is refused, and what
    /// has to be changed in a text that has a fault.
    pub terminal: bool,
    /// Whether somebody types the input on a terminal. Where errors are read on a terminal too, the run says there what
    /// it reads from the input.
    pub typed: bool,
}
