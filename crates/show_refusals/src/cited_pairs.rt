//! The pairs of lemmas that are cited.

use cert_check::Question;
use match_puzzle::{Pair, Partial};
use puzzle_symmetry::{Symmetry, SymmetryFault};
use std::alloc::{AllocError, Global};

// Which pair of the lemma's prefix isn't placed.
pub(crate) fn missing_sentence(
    alloc: Global,
    question: &Question<'_>,
    partial: &Partial<'_>,
    lemma: u32,
) -> Result<String, AllocError> {
    let Some(pair) = first_missing(partial, prefix_of(question, lemma)) else {
        return Ok(String::new(alloc));
    };
    let Pair { cell, placement } = pair;
    format!(in alloc;
        "{cell}:{}.{} of the prefix of lemma {lemma} is not placed",
        placement.tile, placement.turn
    )
}

// The first of these pairs that isn't placed.
fn first_missing(partial: &Partial<'_>, pairs: &[Pair]) -> Option<Pair> {
    for pair in pairs {
        if !partial.holds(&[*pair]) {
            return Some(*pair);
        }
    }
    None
}

// Which image of a pair of the lemma's prefix under the symmetry isn't placed.
pub(crate) fn missing_image_sentence(
    alloc: Global,
    question: &Question<'_>,
    partial: &Partial<'_>,
    lemma: u32,
    symmetry: u16,
) -> Result<String, AllocError> {
    let lines = question.certificate().symmetries();
    let Some(line) = lines.get(usize::from(symmetry)) else {
        return Ok(String::new(alloc));
    };
    let missing = match Symmetry::new(alloc, question.puzzle(), line) {
        Ok(motion) => first_missing_image(&motion, partial, prefix_of(question, lemma)),
        Err(SymmetryFault::Memory) => return Err(AllocError),
        Err(_) => None,
    };
    match missing {
        Some(moved) => moved.sentence(alloc, lemma),
        None => Ok(String::new(alloc)),
    }
}

// A pair and its image under a symmetry.
#[derive(Clone, Copy)]
struct Moved {
    pair: Pair,
    image: Pair,
}

impl Moved {
    // That the image isn't placed, of a pair of the lemma's prefix.
    fn sentence(self, alloc: Global, lemma: u32) -> Result<String, AllocError> {
        let Pair { cell, placement } = self.image;
        let (from, of) = (self.pair.cell, self.pair.placement);
        format!(in alloc;
            "{cell}:{}.{} is not placed, which is the image of {from}:{}.{} of the prefix of lemma {lemma}",
            placement.tile, placement.turn, of.tile, of.turn
        )
    }
}

// The first of these pairs whose image isn't placed.
fn first_missing_image(
    motion: &Symmetry<'_>,
    partial: &Partial<'_>,
    pairs: &[Pair],
) -> Option<Moved> {
    for pair in pairs {
        let image = image_of(motion, *pair);
        if !partial.holds(&[image]) {
            return Some(Moved { pair: *pair, image });
        }
    }
    None
}

// The prefix of the lemma, or none where there is no such lemma.
pub(crate) fn prefix_of<'a>(question: &Question<'a>, lemma: u32) -> &'a [Pair] {
    let lemmas = question.lemmas();
    if (lemma as usize) < lemmas.len() {
        lemmas.at(lemma as usize).prefix
    } else {
        &[]
    }
}

// The image of the pair, or the pair itself if it isn't one of the puzzle.
fn image_of(motion: &Symmetry<'_>, pair: Pair) -> Pair {
    let puzzle = motion.puzzle();
    if pair.cell < puzzle.board().cells() && puzzle.legal(pair.placement) {
        motion.image(pair.cell, pair.placement)
    } else {
        pair
    }
}
