//! Reading whole and writing whole.

use crate::outcomes::with_memory;
use byte_streams::Fake;
use command_runs::{Document, Failed, RunFault, Sink, Source, read_whole, write_whole};
use std::alloc::{AllocError, Global};
use std::io::{self, ErrorKind, Read, Write};
use std::test::Fail;
use system_files::{Input, Output};

// 64 bytes, and one more.
const BYTES: &[u8; 65] = b"0123456789abcdef0123456789abcdef0123456789abcdef0123456789abcdef\n";

// What is wrong with reading this to its end, where it may have at most `bound` bytes.
fn fault_of(
    alloc: Global,
    reader: &mut Fake<'_>,
    bound: u32,
    document: Document,
) -> Result<Option<RunFault>, AllocError> {
    Ok(with_memory(read_whole(alloc, reader, bound, document))?.err())
}

// Whether 64 bytes come that are read up to that bound.
fn reads_up_to_the_bound(alloc: Global, most: usize) -> Result<bool, Fail> {
    let mut reader = Fake::new(alloc, &BYTES[..64], most, usize::MAX);
    let text = read_whole(alloc, &mut reader, 64, Document::List)?;
    Ok(text.as_slice() == &BYTES[..64])
}

// Whether one more is too many.
fn refuses_one_more(alloc: Global, most: usize) -> Result<bool, AllocError> {
    let mut reader = Fake::new(alloc, BYTES, most, usize::MAX);
    let fault = fault_of(alloc, &mut reader, 64, Document::List)?;
    Ok(fault == Some(RunFault::TooLong(Document::List)))
}

// However many come with each call.
#[test]
fn reads_at_most_the_bound(rt: HostRuntime) -> Result<(), Fail> {
    for most in [1, 7, 64, usize::MAX] {
        assert!(rt; reads_up_to_the_bound(rt.alloc(), most)?, "{most} a call");
        assert!(rt; refuses_one_more(rt.alloc(), most)?, "{most} a call");
    }
    Ok(())
}

// Whether an error at this byte is told, and nothing is read then.
fn reads_up_to(alloc: Global, place: usize) -> Result<bool, AllocError> {
    let mut reader = Fake::new(alloc, BYTES, 2, place);
    let fault = fault_of(alloc, &mut reader, 65, Document::Input)?;
    let is_told = fault == Some(RunFault::Read(Document::Input));
    Ok(is_told && reader.taken() == place && reader.errors() == 1)
}

// At each byte, and in place of the end.
#[test]
fn reads_up_to_an_error(rt: HostRuntime) -> Result<(), Fail> {
    for place in 0..=BYTES.len() {
        assert!(rt; reads_up_to(rt.alloc(), place)?, "at {place}");
    }
    Ok(())
}

// Whether a write ends so, where the writer takes at most `most` bytes a call and fails after `fails_after`, and
// whether the writer has this front of the line then, and `errors` errors.
fn writes(
    alloc: Global,
    (most, fails_after): (usize, usize),
    outcome: Result<(), Failed>,
    front: &[u8],
    errors: u64,
) -> bool {
    let mut writer = Fake::new(alloc, b"", most, fails_after);
    write_whole(&mut writer, b"complete 1\n") == outcome
        && writer.written() == front
        && writer.errors() == errors
}

const WRITES: [((usize, usize), Result<(), Failed>, &[u8], u64); 3] = [
    ((1, usize::MAX), Ok(()), b"complete 1\n", 0),
    ((2, 3), Err(Failed), b"com", 1),
    ((0, usize::MAX), Err(Failed), b"", 0),
];

#[test]
fn writes_up_to_an_error(rt: HostRuntime) {
    for (bounds, outcome, front, errors) in WRITES.iter() {
        assert!(rt; writes(rt.alloc(), *bounds, *outcome, front, *errors));
    }
}

// Is interrupted at each other call, and gives or takes one byte at the others.
#[derive(Drop)]
struct Interrupted {
    calls: u32,
}

impl Interrupted {
    fn turn(&mut self) -> io::Result<()> {
        self.calls = self.calls.wrapping_add(1);
        if self.calls % 2 == 1 {
            return Err(io::Error::from(ErrorKind::Interrupted));
        }
        if self.calls > 4 {
            return Err(io::Error::from(ErrorKind::BrokenPipe));
        }
        Ok(())
    }
}

impl Read for Interrupted {
    fn read(&mut self, buffer: &mut [u8]) -> io::Result<usize> {
        self.turn()?;
        match buffer {
            [] => Ok(0),
            [first, ..] => {
                *first = b'x';
                Ok(1)
            }
        }
    }
}

impl Write for Interrupted {
    fn write(&mut self, bytes: &[u8]) -> io::Result<usize> {
        self.turn()?;
        Ok(bytes.len().min(1))
    }

    fn flush(&mut self) -> io::Result<()> {
        Ok(())
    }
}

// Twice a byte moves, and then there is an error of another kind.
#[test]
fn tries_again_where_it_is_interrupted(rt: HostRuntime) {
    let mut reader = Input::new(Interrupted { calls: 0 });
    let mut writer = Output::new(Interrupted { calls: 0 });
    for outcome in [Ok(1), Ok(1), Err(Failed)] {
        assert!(rt; reader.read(&mut [0; 4]) == outcome);
        assert!(rt; writer.write(b"end") == outcome);
    }
}
