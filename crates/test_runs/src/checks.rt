//! Checks over readers and a writer that fail, or that move little at once, and of files whose texts are known.

use crate::fakes::{FakeSources, NEVER};
use crate::outcomes::is_as_wanted;
use byte_streams::Fake;
use command_runs::{Document, Documents, RunFault, Status, run_check, run_joined};
use match_limits::{Forks, Workers};
use std::alloc::{AllocError, Global};
use std::process::Abort;
use std::test::Fail;
use std::thread::Threads;
use test_samples::{
    SQUARE_OF_FOUR, SQUARE_OF_FOUR_CERTIFICATE, SQUARE_OF_FOUR_LIST, TURNING_TRIANGLE,
    TURNING_TRIANGLE_CERTIFICATE, TURNING_TRIANGLE_LIST, TWIN_TILES, TWIN_TILES_CERTIFICATE,
    TWIN_TILES_LIST,
};

pub const SQUARE: Documents<'static> = Documents {
    puzzle: SQUARE_OF_FOUR,
    list: SQUARE_OF_FOUR_LIST,
    certificate: SQUARE_OF_FOUR_CERTIFICATE,
};

pub const TWINS: Documents<'static> = Documents {
    puzzle: TWIN_TILES,
    list: TWIN_TILES_LIST,
    certificate: TWIN_TILES_CERTIFICATE,
};

pub const TRIANGLE: Documents<'static> = Documents {
    puzzle: TURNING_TRIANGLE,
    list: TURNING_TRIANGLE_LIST,
    certificate: TURNING_TRIANGLE_CERTIFICATE,
};

/// The line of a check whose list has one arrangement.
pub const COMPLETE: &[u8] = b"complete 1\n";

// What a check of these sources comes to.
pub fn check_over<R: Threads + Sync>(
    rt: &R,
    alloc: Global,
    sources: &mut FakeSources<'_>,
    writer: &mut Fake<'_>,
) -> Result<Status, RunFault> {
    run_check(
        rt,
        alloc,
        &mut sources.puzzle,
        &mut sources.list,
        &mut sources.certificate,
        Workers::new(1),
        Forks::new(0),
        writer,
    )
}

// Whether a check says that the reader of this document failed, which fails after `place` bytes, and writes nothing.
fn is_told<R: Threads + Sync>(
    rt: &R,
    alloc: Global,
    documents: &Documents<'_>,
    document: Document,
    place: usize,
) -> Result<bool, AllocError> {
    let fails_after = match document {
        Document::Puzzle => [place, usize::MAX, usize::MAX],
        Document::List => [usize::MAX, place, usize::MAX],
        _ => [usize::MAX, usize::MAX, place],
    };
    let mut sources = FakeSources::new(alloc, documents, 7, fails_after);
    let mut writer = Fake::new(alloc, b"", 5, usize::MAX);
    let outcome = check_over(rt, alloc, &mut sources, &mut writer);
    is_as_wanted(outcome, Err(RunFault::Read(document)), &writer, b"")
}

// Asserts that a check says so, and writes nothing, where a reader fails at any of `len` bytes, or at the end.
fn assert_each_failure_is_told<R: Threads + Sync + Abort>(
    rt: &R,
    alloc: Global,
    documents: &Documents<'_>,
    document: Document,
    len: usize,
) -> Result<(), AllocError> {
    for place in 0..=len {
        assert!(rt;
            is_told(rt, alloc, documents, document, place)?,
            "at {place}"
        );
    }
    Ok(())
}

const READ: [(Documents<'static>, Document, &[u8]); 4] = [
    (SQUARE, Document::Puzzle, SQUARE_OF_FOUR),
    (TRIANGLE, Document::Puzzle, TURNING_TRIANGLE),
    (TRIANGLE, Document::List, TURNING_TRIANGLE_LIST),
    (
        TRIANGLE,
        Document::Certificate,
        TURNING_TRIANGLE_CERTIFICATE,
    ),
];

#[test]
fn names_the_document_whose_reader_fails(rt: HostRuntime) -> Result<(), Fail> {
    for (documents, document, text) in READ.iter() {
        assert_each_failure_is_told(&rt, rt.alloc(), documents, *document, text.len())?;
    }
    Ok(())
}

// Whether a check whose writer fails after this front of the answer says so, and wrote that.
fn writes_front<R: Threads + Sync>(
    rt: &R,
    alloc: Global,
    front: &[u8],
) -> Result<bool, AllocError> {
    let mut sources = FakeSources::new(alloc, &SQUARE, 7, NEVER);
    let mut writer = Fake::new(alloc, b"", usize::MAX, front.len());
    let outcome = check_over(rt, alloc, &mut sources, &mut writer);
    is_as_wanted(outcome, Err(RunFault::Write), &writer, front)
}

// The documents, one behind the other.
fn joined(alloc: Global, documents: &Documents<'_>) -> Result<Vec<u8>, AllocError> {
    let mut input = Vec::from_slice(alloc, documents.puzzle)?;
    input.extend_from_slice(documents.list)?;
    input.extend_from_slice(documents.certificate)?;
    Ok(input)
}

// Whether a check of joined documents does so.
fn writes_front_of_joined<R: Threads + Sync>(
    rt: &R,
    alloc: Global,
    front: &[u8],
) -> Result<bool, AllocError> {
    let input = joined(alloc, &SQUARE)?;
    let mut reader = Fake::new(alloc, &input, usize::MAX, usize::MAX);
    let mut writer = Fake::new(alloc, b"", usize::MAX, front.len());
    let outcome = run_joined(
        rt,
        alloc,
        &mut reader,
        Workers::new(1),
        Forks::new(0),
        &mut writer,
    );
    is_as_wanted(outcome, Err(RunFault::Write), &writer, front)
}

#[test]
fn writes_a_front_where_the_writer_fails(rt: HostRuntime) -> Result<(), Fail> {
    for count in 0..COMPLETE.len() {
        let front = &COMPLETE[..count];
        assert!(rt; writes_front(&rt, rt.alloc(), front)?, "after {count}");
        assert!(rt;
            writes_front_of_joined(&rt, rt.alloc(), front)?,
            "joined, after {count}"
        );
    }
    Ok(())
}
