//! Boards and tallies are printed. Which worker takes what is chance, where there are several.

use match_puzzle::Puzzle;
use match_report::{Taken, write_board, write_tally};
use std::alloc::{AllocError, Global};
use std::test::Fail;
use test_samples::{TURNING_TRIANGLE_ARRANGEMENT, turning_triangle};

// Each worker took these.
fn tally(alloc: Global, shares: &[&[u32]]) -> Result<Vec<Taken>, AllocError> {
    let mut tally = Vec::new(alloc);
    for numbers in shares {
        tally.push(Taken::new(Vec::from_slice(alloc, numbers)?))?;
    }
    Ok(tally)
}

// Whether this is how a tally is printed.
fn is_text_of(alloc: Global, tally: &[Taken], text: &[u8]) -> Result<bool, AllocError> {
    if tally.len() > 64 {
        return Ok(false);
    }
    Ok(write_tally(alloc, tally)?.as_slice() == text)
}

// What each worker took, and how it is printed.
const TALLIES: [(&[&[u32]], &[u8]); 3] = [
    (&[&[0, 2], &[]], b"worker 0 took 0 2\nworker 1 took\n"),
    (&[], b""),
    (&[&[999_999, 10]], b"worker 0 took 999999 10\n"),
];

fn prints_tally(alloc: Global, shares: &[&[u32]], text: &[u8]) -> Result<bool, AllocError> {
    let tally = tally(alloc, shares)?;
    is_text_of(alloc, &tally, text)
}

// How the turning triangle's arrangement is printed.
const BOARD: &[u8] = b"0 2.2 020\n1 1.0 100\n2 0.0 123\n3 3.1 003\n";

// Whether it is printed so.
fn is_board_of(alloc: Global, puzzle: &Puzzle) -> Result<bool, Fail> {
    if puzzle
        .arrangement_fault(&TURNING_TRIANGLE_ARRANGEMENT)
        .is_some()
    {
        return Ok(false);
    }
    let written = write_board(alloc, puzzle, &TURNING_TRIANGLE_ARRANGEMENT)?;
    Ok(written.as_slice() == BOARD)
}

fn prints_board(alloc: Global) -> Result<bool, Fail> {
    let puzzle = turning_triangle(alloc)?;
    is_board_of(alloc, &puzzle)
}

#[test]
fn prints_boards_and_who_took_what(rt: HostRuntime) -> Result<(), Fail> {
    assert!(rt; prints_board(rt.alloc())?);
    for (shares, text) in TALLIES.iter() {
        assert!(rt; prints_tally(rt.alloc(), shares, text)?);
    }
    Ok(())
}
