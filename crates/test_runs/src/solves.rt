//! Solves whose readers and writers fail, and runs that may want memory.

use crate::checks::{COMPLETE, SQUARE, TRIANGLE, TWINS, check_over};
use crate::expansions::expand_over;
use crate::fakes::{FakeSinks, FakeSources, NEVER};
use crate::outcomes::with_memory;
use byte_streams::Fake;
use command_runs::{Document, Documents, RunFault, Status, run_solve};
use match_limits::{Depth, Fuel, Workers};
use std::alloc::{AllocError, Global};
use std::random::RandomSource;
use std::sync::Wait;
use std::test::Fail;
use std::thread::Threads;
use test_samples::{ALL_OF_TURNING_TRIANGLE, SQUARE_OF_FOUR_LIST};

// What a solve comes to whose puzzle comes from this reader.
fn solve_over<R: Threads + Wait + Sync>(
    rt: &R,
    alloc: Global,
    puzzle: &mut Fake<'_>,
    depth: Depth,
    fuel: Fuel,
    sinks: &mut FakeSinks,
) -> Result<(), RunFault> {
    run_solve(
        rt,
        alloc,
        puzzle,
        depth,
        fuel,
        Workers::new(1),
        &mut sinks.list,
        &mut sinks.certificate,
        &mut sinks.report,
    )
}

// Whether a solve stops with this fault and wrote these texts, where its reader fails after `read` bytes, and each of
// its writers after its number of bytes in `written`.
fn stops<R: Threads + Wait + Sync>(
    rt: &R,
    alloc: Global,
    read: usize,
    written: [usize; 3],
    fault: RunFault,
    texts: [&[u8]; 3],
) -> Result<bool, AllocError> {
    let mut puzzle = Fake::new(alloc, SQUARE.puzzle, 7, read);
    let mut sinks = FakeSinks::new(alloc, 5, written);
    let outcome = solve_over(
        rt,
        alloc,
        &mut puzzle,
        Depth::new(0),
        Fuel::new(4),
        &mut sinks,
    );
    Ok(with_memory(outcome)? == Err(fault) && sinks.have(texts))
}

// The puzzle's reader fails, and then the certificate's writer: the report isn't begun.
const STOPS: [(usize, [usize; 3], RunFault, [&[u8]; 3]); 2] = [
    (20, NEVER, RunFault::Read(Document::Puzzle), [b"", b"", b""]),
    (
        usize::MAX,
        [usize::MAX, 12, usize::MAX],
        RunFault::Write,
        [SQUARE_OF_FOUR_LIST, b"certificate ", b""],
    ),
];

#[test]
fn says_why_it_stops(rt: HostRuntime) -> Result<(), Fail> {
    for (read, written, fault, texts) in STOPS.iter() {
        assert!(rt; stops(&rt, rt.alloc(), *read, *written, *fault, *texts)?);
    }
    Ok(())
}

// Whether a run that ended so wrote this text, and nothing where it wants memory. A writer that wants memory itself
// answers an error.
fn is_written(outcome: Result<Status, RunFault>, writer: &Fake<'_>, text: &[u8]) -> bool {
    match outcome {
        Ok(status) => status == Status::Complete && writer.written() == text,
        Err(RunFault::Write) => writer.errors() == 1,
        Err(fault) => fault == RunFault::Memory && writer.written().is_empty(),
    }
}

// Whether a check of these documents writes that the list is complete, or nothing where it wants memory, over readers
// and a writer that move at most `most` bytes a call.
fn checks<R: Threads + Sync>(
    rt: &R,
    alloc: Global,
    documents: &Documents<'_>,
    most: usize,
) -> bool {
    let mut sources = FakeSources::new(alloc, documents, most, NEVER);
    let mut writer = Fake::new(alloc, b"", most, usize::MAX);
    let outcome = check_over(rt, alloc, &mut sources, &mut writer);
    is_written(outcome, &writer, COMPLETE)
}

// Whether an expansion does.
fn expands<R: RandomSource>(rt: &R, alloc: Global) -> bool {
    let mut sources = FakeSources::new(alloc, &TRIANGLE, 7, NEVER);
    let mut writer = Fake::new(alloc, b"", 5, usize::MAX);
    let outcome = expand_over(rt, alloc, &mut sources, &mut writer);
    is_written(outcome, &writer, ALL_OF_TURNING_TRIANGLE)
}

// Whether what a solve wrote checks as complete.
fn is_solved<R: Threads + Sync>(rt: &R, alloc: Global, sinks: &FakeSinks) -> bool {
    let written = Documents {
        puzzle: TRIANGLE.puzzle,
        list: sinks.list.written(),
        certificate: sinks.certificate.written(),
    };
    checks(rt, alloc, &written, 7) && !sinks.report.written().is_empty()
}

// Whether a solve does, with its three writers.
fn solves<R: Threads + Wait + Sync>(rt: &R, alloc: Global) -> bool {
    let mut puzzle = Fake::new(alloc, TRIANGLE.puzzle, 7, usize::MAX);
    let mut sinks = FakeSinks::new(alloc, 5, NEVER);
    let outcome = solve_over(
        rt,
        alloc,
        &mut puzzle,
        Depth::new(1),
        Fuel::new(10),
        &mut sinks,
    );
    match outcome {
        Ok(()) => is_solved(rt, alloc, &sinks),
        Err(RunFault::Write) => sinks.has_one_error(),
        Err(fault) => fault == RunFault::Memory && sinks.have([b"", b"", b""]),
    }
}

// Where any request for memory is refused, a run that wants it wrote nothing; `scripts/refuse_each_growth.py` refuses
// each in turn. With ample memory the runs write what they are to.
#[test]
fn nothing_written(rt: HostRuntime) {
    for most in [1, 5, 7] {
        assert!(rt; checks(&rt, rt.alloc(), &SQUARE, most));
        assert!(rt; checks(&rt, rt.alloc(), &TWINS, most));
        assert!(rt; checks(&rt, rt.alloc(), &TRIANGLE, most));
    }
    assert!(rt; expands(&rt, rt.alloc()));
    assert!(rt; solves(&rt, rt.alloc()));
}
