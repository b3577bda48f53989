//! Puzzles as exact covers, worked out by hand.

use crate::fixtures::MATED_PAIR;
use match_puzzle::{Placement, Puzzle};
use std::alloc::Global;
use std::test::Fail;
use test_samples::{
    TURNING_TRIANGLE, TURNING_TRIANGLE_ARRANGEMENT, pair, puzzle_of, turning_triangle,
};
use xcc_form::{Edge, FormFault, Xcc, compile};

// The arrangement of the pair of mates.
const MATES: [Placement; 2] = [
    Placement { tile: 0, turn: 0 },
    Placement { tile: 1, turn: 0 },
];

// Whether these are the numbers of the cover's primary items, secondary items, options and entries.
fn has_sizes(xcc: &Xcc<'_>, sizes: [u32; 4]) -> bool {
    let found = [
        xcc.primaries(),
        xcc.secondaries(),
        xcc.options(),
        xcc.entries(),
    ];
    found == sizes
}

// Whether an arrangement has these options.
fn has_options(
    alloc: Global,
    xcc: &Xcc<'_>,
    listed: &[Placement],
    options: &[u32],
) -> Result<bool, Fail> {
    let found = xcc.options_of(alloc, listed)?;
    Ok(found.as_slice() == options)
}

// Whether the puzzle's cover has these sizes, and the arrangement these options.
fn has_cover(
    alloc: Global,
    puzzle: &Puzzle,
    sizes: [u32; 4],
    listed: &[Placement],
    options: &[u32],
) -> Result<bool, Fail> {
    let xcc = compile(alloc, puzzle)?;
    Ok(has_sizes(&xcc, sizes) && has_options(alloc, &xcc, listed, options)?)
}

// Whether that of the text's puzzle is so.
fn is_covered(
    alloc: Global,
    text: &[u8],
    sizes: [u32; 4],
    listed: &[Placement],
    options: &[u32],
) -> Result<bool, Fail> {
    let puzzle = puzzle_of(alloc, text)?;
    has_cover(alloc, &puzzle, sizes, listed, options)
}

// Whether the options of the triangle's cover, in another order, give the arrangement.
fn gives_the_arrangement(alloc: Global, xcc: &Xcc<'_>) -> Result<bool, Fail> {
    let found = xcc.arrangement_of(alloc, &[20, 6, 1, 3])?;
    Ok(found.placements() == TURNING_TRIANGLE_ARRANGEMENT.as_slice())
}

// Whether options that are no solution give none.
fn refuses_no_solution(alloc: Global, xcc: &Xcc<'_>) -> bool {
    matches!(
        xcc.arrangement_of(alloc, &[1, 3, 6, 19]),
        Err(FormFault::NotASolution)
    )
}

const EDGES: [Edge; 3] = [
    Edge { item: 8, colour: 2 },
    Edge { item: 9, colour: 1 },
    Edge {
        item: 10,
        colour: 3,
    },
];

// Whether option 6 of the triangle puts tile 0 in the middle.
fn shows_the_middle(xcc: &Xcc<'_>) -> bool {
    xcc.options() > 6 && xcc.pair(6) == pair(2, 0, 0) && xcc.edges(6) == EDGES.as_slice()
}

// Whether all that is so.
fn is_read(alloc: Global, triangle: &Puzzle) -> Result<bool, Fail> {
    let xcc = compile(alloc, triangle)?;
    Ok(
        shows_the_middle(&xcc)
            && refuses_no_solution(alloc, &xcc)
            && gives_the_arrangement(alloc, &xcc)?,
    )
}

fn is_triangle_read(alloc: Global) -> Result<bool, Fail> {
    let triangle = turning_triangle(alloc)?;
    is_read(alloc, &triangle)
}

#[test]
fn solutions_of_puzzles(rt: HostRuntime) -> Result<(), Fail> {
    let alloc = rt.alloc();
    assert!(rt; is_covered(alloc, MATED_PAIR, [4, 1, 4, 12], &MATES, &[0, 3])?);
    assert!(rt;
        is_covered(
            alloc,
            TURNING_TRIANGLE,
            [8, 3, 21, 87],
            &TURNING_TRIANGLE_ARRANGEMENT,
            &[1, 3, 6, 20]
        )?
    );
    assert!(rt; is_triangle_read(alloc)?);
    Ok(())
}
