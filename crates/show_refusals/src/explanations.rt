//! Why a list and its certificate are refused, in words and drawings.

ghost use Rattle.std.specs.Prelude.{IfOk};
ghost use Rattle.cert_check.specs.Answer.{IsAnswer};
ghost use Rattle.cert_check.specs.declared.faults.Answer.TheVariants.{Refused};
ghost use Rattle.show_refusals.specs.Explanation.{IsExplanation};

use crate::certificate_sentences::{prefix_sentence, root_sentence, symmetry_sentence};
use crate::cited_pairs::prefix_of;
use crate::list_sentences::Listed;
use crate::node_explanations::{explain_node, put_drawing};
use crate::places::{LemmaLine, line_of};
use cert_check::{Fault, Question};
use cert_tree::Lemmas;
use match_puzzle::{Arrangement, ArrangementFault, PrefixFault, Puzzle};
use puzzle_symmetry::SymmetryFault;
use std::alloc::{AllocError, Global};
use std::hash::BuildHasher;

/// Why a question's list and certificate are refused, by this fault: where it stands in their texts, what is wrong
/// there, and for a listed arrangement or a node of a tree the board, drawn with what is placed.
///
/// Of a node whose board is an arrangement that isn't listed, that is told, and whether it is an image of a listed one;
/// its images are looked up by their hash, of which [`expand`](symmetry_orbits::expand) says more.
///
/// The certificate's text is asked for the line that a lemma stands on. An `Err` where memory is refused, and nowhere
/// else. It takes time in proportion to the question, the text and those images, and memory for these and for what is
/// written.
pub fn write_explanation<S: BuildHasher + Drop>(
    alloc: Global,
    question: &Question<'_>,
    fault: &Fault,
    certificate: &[u8],
    hasher: S,
) -> Result<Vec<u8>, AllocError>
    requires { IsAnswer question.now (Refused fault.now) }
    ensures { IfOk result (λ text. IsExplanation question.now fault.now text.items) }
{
    match fault {
        Fault::List(number, fault) => explain_listed(alloc, question, *number, *fault),
        Fault::Repeated(number) => explain_repeated(alloc, question.listed(), *number),
        Fault::Symmetry(number, fault) => {
            explain_symmetry(alloc, question.puzzle(), *number, *fault)
        }
        Fault::Prefix(number, fault) => {
            explain_prefix(alloc, question, *number, *fault, certificate)
        }
        Fault::Root => explain_root(alloc, question.lemmas()),
        Fault::Tree(number, fault) => {
            let lemma = LemmaLine {
                number: *number,
                line: line_of(alloc, certificate, *number)?,
            };
            explain_node(alloc, question, lemma, fault, hasher)
        }
    }
}

// What a certificate that is refused leaves open.
pub(crate) const CLOSING: &str = "This does not say that the list is incomplete.\n";

// The line, from 1, of a list's first arrangement, and of a certificate's first symmetry.
const FIRST_LINE: u64 = 3;

fn explain_listed(
    alloc: Global,
    question: &Question<'_>,
    number: u32,
    fault: ArrangementFault,
) -> Result<Vec<u8>, AllocError> {
    let Some(arrangement) = question.listed().get(number as usize) else {
        return Ok(Vec::new(alloc));
    };
    let listed = Listed {
        puzzle: question.puzzle(),
        placements: arrangement.placements(),
    };
    let mut text = listed_line(alloc, &listed, number, fault)?;
    put_laid_out(alloc, &mut text, &listed, cell_of(fault))?;
    Ok(text)
}

// Puts the board behind the text, with what of the listed arrangement can be laid out.
fn put_laid_out(
    alloc: Global,
    text: &mut Vec<u8>,
    listed: &Listed<'_>,
    mark: Option<u16>,
) -> Result<(), AllocError> {
    let board = listed.laid_out(alloc)?;
    put_drawing(alloc, text, &board, mark)
}

fn listed_line(
    alloc: Global,
    listed: &Listed<'_>,
    number: u32,
    fault: ArrangementFault,
) -> Result<Vec<u8>, AllocError> {
    let sentence = listed.sentence(alloc, fault)?;
    let line = u64::from(number) + FIRST_LINE;
    let words = format!(in alloc; "list line {line}, arrangement {number}: {sentence}\n")?;
    Ok(Vec::from(words))
}

// The cell where a listed arrangement has the fault.
fn cell_of(fault: ArrangementFault) -> Option<u16> {
    match fault {
        ArrangementFault::Length => None,
        ArrangementFault::TileRange(cell)
        | ArrangementFault::Turn(cell)
        | ArrangementFault::TileTwice(cell)
        | ArrangementFault::BorderBroken(cell, _)
        | ArrangementFault::EdgeBroken(cell, _) => u16::try_from(cell).ok(),
    }
}

fn explain_repeated(
    alloc: Global,
    listed: &[Arrangement],
    number: u32,
) -> Result<Vec<u8>, AllocError> {
    let line = u64::from(number) + FIRST_LINE;
    let first = first_like(listed, number);
    let text = format!(in alloc;
        "list line {line}, arrangement {number}: it is arrangement {first} once more\n"
    )?;
    Ok(Vec::from(text))
}

// The number of the first listed one that has the placements of that with this number.
fn first_like(listed: &[Arrangement], number: u32) -> u32 {
    let Some(arrangement) = listed.get(number as usize) else {
        return number;
    };
    let mut first = 0u32;
    for other in listed {
        if other.placements() == arrangement.placements() {
            return first;
        }
        first = first.saturating_add(1);
    }
    number
}

fn explain_symmetry(
    alloc: Global,
    puzzle: &Puzzle,
    number: u32,
    fault: SymmetryFault,
) -> Result<Vec<u8>, AllocError> {
    let sentence = symmetry_sentence(alloc, puzzle, fault)?;
    let line = u64::from(number) + FIRST_LINE;
    let text = format!(in alloc;
        "certificate line {line}, symmetry {number}: {sentence}\n{CLOSING}"
    )?;
    Ok(Vec::from(text))
}

fn explain_prefix(
    alloc: Global,
    question: &Question<'_>,
    number: u32,
    fault: PrefixFault,
    certificate: &[u8],
) -> Result<Vec<u8>, AllocError> {
    let pairs = prefix_of(question, number);
    let sentence = prefix_sentence(alloc, question.puzzle(), pairs, fault)?;
    let line = line_of(alloc, certificate, number)?;
    let text = format!(in alloc; "certificate line {line}, lemma {number}: {sentence}\n{CLOSING}")?;
    Ok(Vec::from(text))
}

fn explain_root(alloc: Global, lemmas: &Lemmas) -> Result<Vec<u8>, AllocError> {
    let sentence = root_sentence(alloc, lemmas)?;
    let text = format!(in alloc; "certificate: {sentence}\n{CLOSING}")?;
    Ok(Vec::from(text))
}
