//! Documents that are read, and texts that are written, in order: where one fails, those after it are left alone.

use crate::fakes::{FakeSinks, FakeSources, NEVER};
use byte_streams::{
    Document, Documents, Fake, InputFault, Inputs, JoinedSource, MadeText, OneSink, OneSource,
    Outputs, OwnedDocuments, Products, TwoSources,
};
use std::alloc::{AllocError, Global};
use std::test::Fail;

// What reading comes to; where it wants memory, so does the test.
fn with_memory<T: Drop>(
    outcome: Result<T, InputFault>,
) -> Result<Result<T, InputFault>, AllocError> {
    match outcome {
        Err(InputFault::Memory) => Err(AllocError),
        other => Ok(other),
    }
}

const MAX: usize = usize::MAX;

// The puzzle has three bytes, the list two, the certificate one.
const THREE: Documents<'static> = Documents {
    puzzle: b"abc",
    list: b"de",
    certificate: b"f",
};

const JOINED: &[u8] = b"p\nend\nl\nend\nc\nend\n";

const OF_JOINED: Documents<'static> = Documents {
    puzzle: b"p\nend\n",
    list: b"l\nend\n",
    certificate: b"c\nend\n",
};

// Whether these documents were read.
fn are_read(
    outcome: Result<OwnedDocuments, InputFault>,
    wanted: &Documents<'_>,
) -> Result<bool, AllocError> {
    let Ok(read) = with_memory(outcome)? else {
        return Ok(false);
    };
    let found = read.lend();
    Ok(
        found.puzzle == wanted.puzzle
            && found.list == wanted.list
            && found.certificate == wanted.certificate,
    )
}

// Whether the three were read, or the reader of this document failed.
fn is_as_wanted(
    outcome: Result<OwnedDocuments, InputFault>,
    failed: Option<Document>,
) -> Result<bool, AllocError> {
    match failed {
        None => are_read(outcome, &THREE),
        Some(document) => Ok(with_memory(outcome)?.err() == Some(InputFault::Read(document))),
    }
}

// Whether reading sources that fail after these numbers of bytes fails at this document, or at none, and takes these
// numbers of bytes.
fn reads(
    alloc: Global,
    fails_after: [usize; 3],
    failed: Option<Document>,
    taken: [usize; 3],
) -> Result<bool, AllocError> {
    let mut fakes = FakeSources::new(alloc, &THREE, 2, fails_after);
    let is_right = is_as_wanted(fakes.read_all(alloc), failed)?;
    Ok(is_right && fakes.taken() == taken)
}

// A source may fail in the place of its end.
const READS: [([usize; 3], Option<Document>, [usize; 3]); 4] = [
    ([MAX, MAX, MAX], None, [3, 2, 1]),
    ([1, MAX, MAX], Some(Document::Puzzle), [1, 0, 0]),
    ([MAX, 2, MAX], Some(Document::List), [3, 2, 0]),
    ([MAX, MAX, 0], Some(Document::Certificate), [3, 2, 0]),
];

#[test]
fn reads_three_documents_in_order(rt: HostRuntime) -> Result<(), Fail> {
    for (fails_after, failed, taken) in READS.iter() {
        assert!(rt; reads(rt.alloc(), *fails_after, *failed, *taken)?);
    }
    Ok(())
}

fn reads_joined(alloc: Global) -> Result<bool, AllocError> {
    let mut input = Fake::new(alloc, JOINED, 5, MAX);
    let mut source = JoinedSource { input: &mut input };
    are_read(source.read_all(alloc), &OF_JOINED)
}

#[test]
fn reads_three_joined_documents(rt: HostRuntime) -> Result<(), Fail> {
    assert!(rt; reads_joined(rt.alloc())?);
    Ok(())
}

// Whether the first two of the three are read.
fn reads_two(alloc: Global, fakes: &mut FakeSources<'_>) -> Result<bool, AllocError> {
    let mut sources = TwoSources {
        puzzle: &mut fakes.puzzle,
        list: &mut fakes.list,
    };
    let Ok(two) = with_memory(sources.read_all(alloc))? else {
        return Ok(false);
    };
    Ok(two.puzzle.bytes() == THREE.puzzle && two.list.bytes() == THREE.list)
}

// Whether nothing is left in this source.
fn is_at_its_end(alloc: Global, source: &mut Fake<'_>) -> Result<bool, AllocError> {
    let mut source = OneSource {
        source,
        document: Document::Certificate,
    };
    let Ok(rest) = with_memory(source.read_all(alloc))? else {
        return Ok(false);
    };
    Ok(rest.bytes().is_empty())
}

// The second of two is read on by one.
fn reads_two_and_one(alloc: Global) -> Result<bool, AllocError> {
    let mut fakes = FakeSources::new(alloc, &THREE, 2, NEVER);
    Ok(reads_two(alloc, &mut fakes)? && is_at_its_end(alloc, &mut fakes.list)?)
}

#[test]
fn reads_two_documents_and_one(rt: HostRuntime) -> Result<(), Fail> {
    assert!(rt; reads_two_and_one(rt.alloc())?);
    Ok(())
}

fn products(alloc: Global) -> Result<Products, AllocError> {
    Ok(Products {
        list: MadeText::new(b"list".to_vec(alloc)?),
        certificate: MadeText::new(b"shown".to_vec(alloc)?),
        report: MadeText::new(b"told".to_vec(alloc)?),
    })
}

// Whether the list is written once more, alone.
fn is_written_again(alloc: Global, list: &MadeText) -> bool {
    let mut again = Fake::new(alloc, b"", 1, MAX);
    let is_done = OneSink { sink: &mut again }.write_all(list).is_ok();
    is_done && again.written() == b"list".as_slice()
}

// Whether sinks that fail after these numbers of bytes take all three texts or don't, as `is_done` says, and whether
// they have these fronts then.
fn writes(
    alloc: Global,
    fails_after: [usize; 3],
    is_done: bool,
    fronts: [&[u8]; 3],
) -> Result<bool, AllocError> {
    let made = products(alloc)?;
    let mut fakes = FakeSinks::new(alloc, 3, fails_after);
    let is_right = fakes.write_all(&made).is_ok() == is_done;
    Ok(is_right && fakes.have(fronts) && is_written_again(alloc, &made.list))
}

// A sink that fails has a front, and those after it have nothing.
const WRITES: [([usize; 3], bool, [&[u8]; 3]); 4] = [
    ([MAX, MAX, MAX], true, [b"list", b"shown", b"told"]),
    ([3, MAX, MAX], false, [b"lis", b"", b""]),
    ([MAX, 0, MAX], false, [b"list", b"", b""]),
    ([MAX, MAX, 2], false, [b"list", b"shown", b"to"]),
];

#[test]
fn writes_three_texts_in_order(rt: HostRuntime) -> Result<(), Fail> {
    for (fails_after, is_done, fronts) in WRITES.iter() {
        assert!(rt; writes(rt.alloc(), *fails_after, *is_done, *fronts)?);
    }
    Ok(())
}
