//! What is wrong with a node of a lemma's tree, in words.

ghost use Rattle.cert_tree.specs.Heads.{first, put};
ghost use Rattle.cert_tree.specs.Tree.{Forest};
ghost use Rattle.show_refusals.specs.Explanation.{MarksNode};

use crate::cited_pairs::{missing_image_sentence, missing_sentence};
use crate::differences::{Difference, first_difference, first_empty, place_in};
use cert_check::{NodeFault, Question};
use cert_tree::Head;
use match_puzzle::{Partial, Placement};
use std::alloc::{AllocError, Global};

// A node of a lemma's tree without its children, and what is placed there.
#[derive(Clone, Copy)]
pub(crate) struct Node<'a> {
    pub(crate) question: &'a Question<'a>,
    // The lemma's number.
    pub(crate) lemma: u32,
    pub(crate) head: Head,
    pub(crate) partial: &'a Partial<'a>,
}

impl<'a> Node<'a> {
    // Its words in the certificate.
    pub(crate) fn words(&self, alloc: Global) -> Result<String, AllocError> {
        match self.head {
            Head::Cell { cell, children } => format!(in alloc; "c {cell} {children}"),
            Head::Tile { tile, children } => format!(in alloc; "t {tile} {children}"),
            Head::DeadCell(cell) => format!(in alloc; "d {cell}"),
            Head::DeadTile(tile) => format!(in alloc; "e {tile}"),
            Head::Found(number) => format!(in alloc; "f {number}"),
            Head::Same(lemma) => format!(in alloc; "s {lemma}"),
            Head::Image { symmetry, lemma } => format!(in alloc; "i {lemma} {symmetry}"),
        }
    }

    // The cell that it is about, if it is about one.
    pub(crate) fn cell(&self) -> Option<u16>
        ensures { (rest : Forest) → MarksNode (first (put self.now.head rest)) result }
    {
        match self.head {
            Head::Cell { cell, .. } | Head::DeadCell(cell) => Some(cell),
            Head::Found(number) => self.cell_of_found(number),
            Head::Tile { .. } | Head::DeadTile(_) | Head::Same(_) | Head::Image { .. } => None,
        }
    }

    // The first cell that is empty, or filled as it isn't in the listed arrangement.
    fn cell_of_found(&self, number: u32) -> Option<u16> {
        if let Some(cell) = first_empty(self.partial) {
            return Some(cell);
        }
        let arrangement = self.question.listed().get(number as usize)?;
        Some(first_difference(self.partial, arrangement.placements())?.cell)
    }

    // What is wrong with it.
    pub(crate) fn sentence(&self, alloc: Global, fault: NodeFault) -> Result<String, AllocError> {
        let puzzle = self.partial.puzzle();
        let (cells, tiles) = (puzzle.board().cells(), puzzle.tile_count());
        match fault {
            NodeFault::CellRange => format!(in alloc;
                "cells of the board, numbered from 0: {cells}"
            ),
            NodeFault::TileRange => format!(in alloc;
                "tiles of the puzzle, numbered from 0: {tiles}"
            ),
            NodeFault::TileSpare => format!(in alloc;
                "the puzzle has {tiles} tiles for {cells} cells, so no tile has to be placed, and none is branched on"
            ),
            NodeFault::CellTaken | NodeFault::TileTaken => self.taken_sentence(alloc),
            NodeFault::WrongCount { fits, children } => self.count_sentence(alloc, fits, children),
            NodeFault::NotDead { fits } => self.dead_sentence(alloc, fits),
            NodeFault::NotWhole | NodeFault::ListRange | NodeFault::NotListed => {
                self.found_sentence(alloc)
            }
            NodeFault::NotEarlier => {
                format!(in alloc; "only a lemma before {} can be cited here", self.lemma)
            }
            NodeFault::SymmetryRange => {
                let count = self.question.certificate().symmetries().len();
                format!(in alloc; "symmetries of the certificate, numbered from 0: {count}")
            }
            NodeFault::NotWithin => self.cited_sentence(alloc),
        }
    }

    // Where the item of a branch or a dead end is.
    fn item(&self, alloc: Global) -> Result<String, AllocError> {
        match self.head {
            Head::Cell { cell, .. } | Head::DeadCell(cell) => format!(in alloc; "at cell {cell}"),
            Head::Tile { tile, .. } | Head::DeadTile(tile) => format!(in alloc; "with tile {tile}"),
            Head::Found(_) | Head::Same(_) | Head::Image { .. } => Ok(String::new(alloc)),
        }
    }

    fn taken_sentence(&self, alloc: Global) -> Result<String, AllocError> {
        let item = self.item(alloc)?;
        format!(in alloc; "a pair is placed already {item}")
    }

    fn dead_sentence(&self, alloc: Global, fits: u32) -> Result<String, AllocError> {
        let item = self.item(alloc)?;
        let does = does(fits);
        format!(in alloc; "no pair is said to fit {item}, and {fits} {does}")
    }

    fn count_sentence(
        &self,
        alloc: Global,
        fits: u32,
        children: u32,
    ) -> Result<String, AllocError> {
        let item = self.item(alloc)?;
        miscount_sentence(alloc, item.as_str(), fits, children)
    }

    fn found_sentence(&self, alloc: Global) -> Result<String, AllocError> {
        let Head::Found(number) = self.head else {
            return Ok(String::new(alloc));
        };
        if let Some(cell) = first_empty(self.partial) {
            return format!(in alloc; "an arrangement fills each cell, and cell {cell} is empty");
        }
        let listed = self.question.listed();
        let Some(arrangement) = listed.get(number as usize) else {
            let count = listed.len();
            return format!(in alloc; "arrangements of the list, numbered from 0: {count}");
        };
        match first_difference(self.partial, arrangement.placements()) {
            Some(difference) => self.difference_sentence(alloc, number, difference),
            None => Ok(String::new(alloc)),
        }
    }

    // How what is placed differs from the listed one with this number, and whether it is another.
    fn difference_sentence(
        &self,
        alloc: Global,
        number: u32,
        difference: Difference,
    ) -> Result<String, AllocError> {
        let Difference {
            cell,
            placed,
            other,
        } = difference;
        let mut sentence = format!(in alloc;
            "arrangement {number} has {}.{} at cell {cell}, where {}.{} is placed",
            other.tile, other.turn, placed.tile, placed.turn
        )?;
        match place_in(self.question.listed(), self.partial) {
            Some(found) => write!(sentence, "; what is placed is arrangement {found}")?,
            None => write!(sentence, "; what is placed is not listed")?,
        }
        Ok(sentence)
    }

    fn cited_sentence(&self, alloc: Global) -> Result<String, AllocError> {
        match self.head {
            Head::Same(lemma) => missing_sentence(alloc, self.question, self.partial, lemma),
            Head::Image { symmetry, lemma } => {
                missing_image_sentence(alloc, self.question, self.partial, lemma, symmetry)
            }
            _ => Ok(String::new(alloc)),
        }
    }
}

// That another number of pairs fits the item than the branch has children.
fn miscount_sentence(
    alloc: Global,
    item: &str,
    fits: u32,
    children: u32,
) -> Result<String, AllocError> {
    let does = does(fits);
    if fits == children {
        return format!(in alloc; "no pair fits {item}: that is a dead end, and no branch");
    }
    if children == 1 {
        return format!(in alloc; "1 pair is said to fit {item}, and {fits} {does}");
    }
    format!(in alloc; "{children} pairs are said to fit {item}, and {fits} {does}")
}

fn does(count: u32) -> &'static str {
    if count == 1 { "does" } else { "do" }
}
