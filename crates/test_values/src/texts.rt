//! Texts of puzzles and lists that are read, and written again.

use crate::fixtures::{CORNER_SHAPE, MATED_PAIR, SIX_TRIANGLES};
use match_text::{list_laws, puzzle_laws};
use std::test::Fail;
use test_samples::{
    SQUARE_OF_FOUR, SQUARE_OF_FOUR_LIST, TURNING_TRIANGLE, TURNING_TRIANGLE_LIST, TWIN_TILES,
    TWIN_TILES_LIST, list_again, puzzle_again,
};

// A puzzle with a rule of its own for each of the border's four pairs.
const ONE_CELL: &[u8] =
    b"match 1\nboard rect 1 1\nturns yes\nborder each 9 - a z\ntiles 1\ntile 9aaz\nend\n";

// A puzzle of version 2 in which each of the 36 colours has another as its mate.
const EVERY_COLOUR_MATED: &[u8] =
    b"match 2\nboard rect 1 1\nturns yes\nborder one z\nmates z y x w v u t s r q p o n m l k j i h g f e d c b a 9 8 7 6 5 4 3 2 1 0\ntiles 1\ntile zzzz\nend\n";

// Rows of one to three placements.
const UNEVEN_LIST: &[u8] = b"list 1\narrangements 3\n10.1 2.0\n3.3 4.2 50.0\n6.1\nend\n";

const PUZZLES: [&[u8]; 8] = [
    SQUARE_OF_FOUR,
    TWIN_TILES,
    TURNING_TRIANGLE,
    ONE_CELL,
    SIX_TRIANGLES,
    MATED_PAIR,
    EVERY_COLOUR_MATED,
    CORNER_SHAPE,
];

const LISTS: [&[u8]; 4] = [
    SQUARE_OF_FOUR_LIST,
    TWIN_TILES_LIST,
    TURNING_TRIANGLE_LIST,
    UNEVEN_LIST,
];

#[test]
fn writes_puzzles_that_were_read(rt: HostRuntime) -> Result<(), Fail> {
    for text in PUZZLES.iter() {
        assert!(rt; puzzle_again(rt.alloc(), text)?.as_slice() == *text);
    }
    puzzle_laws();
    Ok(())
}

#[test]
fn writes_lists_that_were_read(rt: HostRuntime) -> Result<(), Fail> {
    for text in LISTS.iter() {
        assert!(rt; list_again(rt.alloc(), text)?.as_slice() == *text);
    }
    list_laws();
    Ok(())
}
