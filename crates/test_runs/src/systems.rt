//! What the system gives: files, limits and random bytes.

use command_orders::{SystemLimits, open};
use command_runs::{Document, FileSystem, RandomFold, RunFault, read_whole};
use std::alloc::Global;
use std::hash::BuildHasher;
use std::io;
use std::random::RandomSource;
use std::test::Fail;
use system_files::System;

// Whether a file without bytes is opened, and read.
fn reads_an_empty_file<S: FileSystem>(alloc: Global, system: &S) -> Result<bool, Fail> {
    let Ok(mut empty) = open(alloc, system, "/dev/null", Document::Puzzle) else {
        return Err(Fail::from("it was not opened"));
    };
    Ok(read_whole(alloc, &mut empty, 10, Document::Puzzle)?.is_empty())
}

// Whether the document is named whose file isn't there.
fn names_the_document<S: FileSystem>(alloc: Global, system: &S) -> bool {
    match open(alloc, system, "no/such/file", Document::List) {
        Ok(_) => false,
        Err(hinted) => hinted.fault == RunFault::Read(Document::List),
    }
}

#[test]
fn opens_a_file_or_names_its_document(rt: HostRuntime) -> Result<(), Fail> {
    let system = System::new(&rt, rt.stdout(), rt.stderr());
    assert!(rt; reads_an_empty_file(rt.alloc(), &system)?);
    assert!(rt; names_the_document(rt.alloc(), &system));
    Ok(())
}

const LINES: &str =
    "Limit                     Soft Limit           Hard Limit           Units     \nMax data size             unlimited            unlimited            bytes     \nMax stack size            8388608              unlimited            bytes     \nMax address space         1048576              unlimited            bytes     \n";

const UNLIMITED: &str =
    "Max stack size            unlimited            unlimited            bytes     \nMax address space         unlimited            unlimited            bytes     \n";

// Whether the limits of the lines are kept.
fn keeps_limits() -> bool {
    let limits = SystemLimits::of(LINES);
    limits.allow_stack(8_388_608) && !limits.allow_stack(8_388_609) && limits.bound_memory()
}

// Whether these lines tell no limit.
fn tell_no_limit(lines: &str) -> bool {
    let untold = SystemLimits::of(lines);
    untold.allow_stack(u64::MAX) && !untold.bound_memory()
}

#[test]
fn reads_what_the_system_tells(rt: HostRuntime) {
    assert!(rt; keeps_limits());
    assert!(rt; tell_no_limit(UNLIMITED));
    assert!(rt; tell_no_limit(""));
    assert!(rt; SystemLimits::read(&rt).allow_stack(1));
}

// Gives ones, but for a two at one place.
#[derive(Drop)]
struct TwoAt(usize);

impl RandomSource for TwoAt {
    fn fill_bytes(&self, buf: &mut [u8]) -> io::Result<()> {
        for (place, byte) in buf.iter_mut().enumerate() {
            *byte = if place == self.0 { 2 } else { 1 };
        }
        Ok(())
    }
}

// The hash of a number by the secret with a two at this place.
fn hash_by(place: usize) -> u64 {
    RandomFold::new(&TwoAt(place)).hash_one(5u32)
}

// Each byte of the secret counts.
#[test]
fn hashes_otherwise_by_another_secret(rt: HostRuntime) {
    assert!(rt; hash_by(8) == hash_by(8));
    for place in 0..8 {
        assert!(rt; hash_by(8) != hash_by(place), "{place}");
    }
}
