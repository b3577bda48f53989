//! Expansions where the system has no random bytes.

use crate::checks::{TRIANGLE, TWINS};
use crate::fakes::{FakeSources, NEVER};
use crate::outcomes::is_as_wanted;
use byte_streams::Fake;
use command_runs::{Documents, RunFault, Status, run_expand};
use std::alloc::{AllocError, Global};
use std::io::{self, ErrorKind};
use std::random::RandomSource;
use std::test::Fail;
use test_samples::ALL_OF_TURNING_TRIANGLE;

// A system that has no random bytes.
struct NoRandomBytes;

impl RandomSource for NoRandomBytes {
    fn fill_bytes(&self, _buf: &mut [u8]) -> io::Result<()> {
        Err(io::Error::from(ErrorKind::Unsupported))
    }
}

// What an expansion of these sources comes to.
pub fn expand_over<R: RandomSource>(
    rt: &R,
    alloc: Global,
    sources: &mut FakeSources<'_>,
    writer: &mut Fake<'_>,
) -> Result<Status, RunFault> {
    run_expand(
        rt,
        alloc,
        &mut sources.puzzle,
        &mut sources.list,
        &mut sources.certificate,
        writer,
    )
}

// Whether an expansion writes this list.
fn expands<R: RandomSource>(
    rt: &R,
    alloc: Global,
    documents: &Documents<'_>,
    list: &[u8],
) -> Result<bool, AllocError> {
    let mut sources = FakeSources::new(alloc, documents, 7, NEVER);
    let mut writer = Fake::new(alloc, b"", 5, usize::MAX);
    let outcome = expand_over(rt, alloc, &mut sources, &mut writer);
    is_as_wanted(outcome, Ok(Status::Complete), &writer, list)
}

const ALL_OF_TWINS: &[u8] = b"list 1\narrangements 2\n0.0 1.0\n1.0 0.0\nend\n";

#[test]
fn prints_all_arrangements_without_a_secret(rt: HostRuntime) -> Result<(), Fail> {
    for (documents, all) in [(TWINS, ALL_OF_TWINS), (TRIANGLE, ALL_OF_TURNING_TRIANGLE)] {
        assert!(rt; expands(&NoRandomBytes, rt.alloc(), &documents, all)?);
    }
    Ok(())
}
