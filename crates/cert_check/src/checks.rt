//! The check of a certificate, on one thread.

ghost use Rattle.std.specs.Prelude.{◌≡◌, ◌<◌, ◌^◌, IfOk, OnErr, length, map};
ghost use Rattle.puzzle_symmetry.specs.Motion.{motion_of};
ghost use Rattle.cert_check.specs.Setting.{Question, question_of, BeginWithPrefixes};
ghost use Rattle.cert_check.specs.Walk.{TellsOfLemma};
ghost use Rattle.match_puzzle.specs.Arrangement.{AreArrangements};
ghost use Rattle.cert_check.specs.Answer.{IsAnswer, IsSound, IsCovering};

use crate::faults::{Answer, TreeFault};
use crate::gates::Open;
use crate::questions::Question;
use crate::settings::Setting;
use crate::walks::lemma_fault;
use cert_tree::Certificate;
use match_puzzle::{Arrangement, Partial, Puzzle};
use puzzle_symmetry::Symmetry;
use std::alloc::{AllocError, Global};

/// Checks whether the certificate shows that the list is complete: that the listed arrangements, with their images
/// under the certificate's symmetries, are all arrangements of the puzzle, and that none is listed twice.
///
/// A refusal names the first fault in the order of [`Fault`](crate::Fault), with its least number, and within a tree
/// the first in preorder (each node before its children). A refusal does not mean that an arrangement is missing. An
/// `Err` comes where memory is refused before a fault is found.
///
/// It goes through the list twice. Where the list does not rise, it also sorts its n places, with 16 bytes for each and
/// O(log n) comparisons for each. It walks each tree once, on one board for all lemmas, with no memory for a node, and
/// at most one level deeper than there are cells. A citation (a node that names an earlier lemma) costs at most the
/// length of that lemma's prefix.
pub fn check(
    alloc: Global,
    puzzle: &Puzzle,
    listed: &[Arrangement],
    certificate: &Certificate,
) -> Result<Answer, AllocError>
    requires { length listed.now < 2 ^ 32 }
    ensures answer { IfOk result (IsAnswer (question_of puzzle.now listed.now certificate.now)) }
    // The main theorem: a list that is called complete is.
    ensures complete { IfOk result (IsSound (question_of puzzle.now listed.now certificate.now)) }
    ensures covered { IfOk result (IsCovering (question_of puzzle.now listed.now certificate.now)) }
    // If memory is refused, no listed entry has a fault.
    ensures memory { OnErr result (AreArrangements puzzle.now listed.now) }
{
    Question::new(puzzle, listed, certificate).check(alloc, &Open)
}

/// Returns the first fault, in preorder, of the tree of the lemma with this number; `None` where the tree holds.
///
/// `symmetries` has to be the symmetries of the certificate's lines, in order. An `Err` comes where memory is refused.
pub fn tree_fault(
    alloc: Global,
    puzzle: &Puzzle,
    listed: &[Arrangement],
    symmetries: &[Symmetry<'_>],
    certificate: &Certificate,
    lemma: u32,
) -> Result<Option<TreeFault>, AllocError>
    requires symmetries { symmetries.now ≡ map (motion_of puzzle.now) certificate.now.symmetries }
    requires prefixes { BeginWithPrefixes puzzle.now certificate.now.lemmas }
    requires lemma { lemma < length certificate.now.lemmas }
    ensures { IfOk result (TellsOfLemma (question_of puzzle.now listed.now certificate.now) lemma) }
{
    let setting = Setting::new(puzzle, listed, symmetries, certificate, lemma);
    let mut partial = Partial::new(alloc, puzzle)?;
    let lemma = certificate.lemmas().at(lemma as usize);
    lemma_fault(alloc, &setting, &lemma, &mut partial)
}
