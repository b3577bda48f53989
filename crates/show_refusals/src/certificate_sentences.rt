//! What is wrong with a certificate's symmetries and prefixes, in words.

use crate::sides::{CellSide, why_not_turned};
use cert_tree::Lemmas;
use match_puzzle::{Pair, Placement, PrefixFault, Puzzle};
use puzzle_symmetry::SymmetryFault;
use std::alloc::{AllocError, Global};
use text_words::letter;

// What is wrong with a line that is no symmetry of the puzzle.
pub(crate) fn symmetry_sentence(
    alloc: Global,
    puzzle: &Puzzle,
    fault: SymmetryFault,
) -> Result<String, AllocError> {
    match fault {
        SymmetryFault::Cells => images_sentence(alloc, "cell"),
        SymmetryFault::Colours => images_sentence(alloc, "colour"),
        SymmetryFault::Tiles => images_sentence(alloc, "tile"),
        SymmetryFault::EdgeBroken(cell, side) => {
            edge_sentence(alloc, puzzle, CellSide { cell, side })
        }
        SymmetryFault::BorderBroken(cell, side) => {
            border_sentence(alloc, puzzle, CellSide { cell, side })
        }
        SymmetryFault::TileBroken(tile) => {
            format!(in alloc; "the turns of tile {tile} do not go to those of its image")
        }
        SymmetryFault::MatesBroken(colour) => {
            let colour = letter(colour);
            format!(in alloc; "the mate of colour {colour} does not go to the mate of its image")
        }
        SymmetryFault::Memory => format!(in alloc; "{fault}"),
    }
}

fn images_sentence(alloc: Global, name: &str) -> Result<String, AllocError> {
    format!(in alloc; "the images of the {name}s are not each {name} once")
}

fn edge_sentence(alloc: Global, puzzle: &Puzzle, at: CellSide) -> Result<String, AllocError> {
    let name = at.name(puzzle);
    let cell = at.cell;
    format!(in alloc; "what the {name} of cell {cell} meets does not go to what its image meets")
}

fn border_sentence(alloc: Global, puzzle: &Puzzle, at: CellSide) -> Result<String, AllocError> {
    let name = at.name(puzzle);
    let cell = at.cell;
    let (asks, asked) = askers(puzzle, at);
    format!(in alloc;
        "what {asks} of the {name} of cell {cell} does not go to what {asked} of its image"
    )
}

// Who may ask the side for a colour, as a sentence begins and as it goes on: clues alone, where it meets another.
fn askers(puzzle: &Puzzle, at: CellSide) -> (&'static str, &'static str) {
    if puzzle.clues().is_empty() {
        ("the border asks", "it asks")
    } else if at.met(puzzle).is_some() {
        ("clues ask", "they ask")
    } else {
        ("the border and clues ask", "they ask")
    }
}

// What is wrong with pairs that are no prefix. Where they have no such fault, that is named alone.
pub(crate) fn prefix_sentence(
    alloc: Global,
    puzzle: &Puzzle,
    pairs: &[Pair],
    fault: PrefixFault,
) -> Result<String, AllocError> {
    let place = match fault {
        PrefixFault::Cell(place) | PrefixFault::Tile(place) | PrefixFault::Turn(place) => place,
    };
    let Some(pair) = pairs.get(place as usize) else {
        return format!(in alloc; "{fault}");
    };
    let last = puzzle.board().cells().saturating_sub(1);
    match fault {
        PrefixFault::Cell(_) => cell_sentence(alloc, *pair, last),
        PrefixFault::Tile(_) => tile_sentence(alloc, *pair, last),
        PrefixFault::Turn(_) => turn_sentence(alloc, *pair, why_not_turned(puzzle)),
    }
}

fn cell_sentence(alloc: Global, pair: Pair, last: u16) -> Result<String, AllocError> {
    let Pair { cell, placement } = pair;
    let Placement { tile, turn } = placement;
    if cell > last {
        return format!(in alloc;
            "the pair {cell}:{tile}.{turn} has cell {cell}, and the cells are 0 to {last}"
        );
    }
    format!(in alloc;
        "the pair {cell}:{tile}.{turn} has cell {cell}, which does not come after that of the pair before"
    )
}

fn tile_sentence(alloc: Global, pair: Pair, last: u16) -> Result<String, AllocError> {
    let Pair { cell, placement } = pair;
    let Placement { tile, turn } = placement;
    if tile > last {
        return format!(in alloc;
            "the pair {cell}:{tile}.{turn} has tile {tile}, and the tiles are 0 to {last}"
        );
    }
    format!(in alloc; "the pair {cell}:{tile}.{turn} has tile {tile}, which an earlier pair has")
}

fn turn_sentence(alloc: Global, pair: Pair, why: &str) -> Result<String, AllocError> {
    let Pair { cell, placement } = pair;
    let Placement { tile, turn } = placement;
    format!(in alloc; "the pair {cell}:{tile}.{turn} turns tile {tile} by {turn}, {why}")
}

// What is wrong with lemmas that end at no root.
pub(crate) fn root_sentence(alloc: Global, lemmas: &Lemmas) -> Result<String, AllocError> {
    let count = lemmas.len();
    if count == 0 {
        return format!(in alloc; "there is no lemma, and the last one has to say all");
    }
    let last = count - 1;
    format!(in alloc; "lemma {last}, the last one, has to begin with nothing placed")
}
