//! Questions to the checker, and what is checked before the trees.

use crate::faults::{Answer, Fault};
use crate::gates::Gate;
use crate::list_faults::list_fault;
use crate::prefixes::{ends_at_a_root, prefixes_fault};
use crate::prepared::Prepared;
use crate::repeats::first_repeated;
use crate::symmetries::{SymmetriesFault, make_symmetries};
use cert_tree::{Certificate, Lemmas};
use match_puzzle::{Arrangement, ArrangementFault, Puzzle};
use std::alloc::{AllocError, Global};
use std::marker::Model;

/// The question whether a certificate shows that a list is complete: that the listed arrangements, with their images
/// under the certificate's symmetries, are all arrangements of the puzzle, and that none is listed twice.
#[derive(Drop)]
pub struct Question<'a> {
    puzzle: &'a Puzzle,
    listed: &'a [Arrangement],
    certificate: &'a Certificate,
}

impl<'a> Model for Question<'a> {
    ghost use Rattle.std.specs.Prelude.{◌<◌, ◌^◌, length};
    ghost use Rattle.std.specs.Coded.{codes};
    ghost use Rattle.cert_tree.specs.contracts.heads.Head as head;
    ghost use Rattle.cert_tree.specs.HeadCode.{tree_code};
    ghost use Rattle.cert_check.specs.Setting.{Question, question_of};

    ghost Value = { Question };

    ghost coded = { Prim.hlevel (codes, tree_code head.the_row.coded) };

    ghost view = { λ q. question_of q.puzzle.now q.listed.now q.certificate.now };

    ghost invariant = { λ q. length q.listed.now < 2 ^ 32 };
}

impl<'a> Question<'a> {
    ghost use Rattle.std.specs.Prelude.{◌≡◌, ◌<◌, ◌≤◌, ◌^◌, IfOk, IfErr, OnErr, length};
    ghost use Rattle.match_limits.specs.First.{IsFirst};
    ghost use Rattle.match_limits.specs.declared.TheConstants.{MOST_LEMMAS};
    ghost use Rattle.cert_check.specs.Setting.{question_of};
    ghost use Rattle.cert_check.specs.Walk.{TellsOfArrangements, TellsOfRepeats};
    ghost use Rattle.match_puzzle.specs.Arrangement.{AreArrangements};
    ghost use Rattle.cert_check.specs.Answer.{IsAnswer, IsSound, IsCovering, Occurs, fault_rank};

    /// Asks whether these are all arrangements of the puzzle, by this certificate.
    pub fn new(
        puzzle: &'a Puzzle,
        listed: &'a [Arrangement],
        certificate: &'a Certificate,
    ) -> Question<'a>
        requires { length listed.now < 2 ^ 32 }
        ensures { result ≡ question_of puzzle.now listed.now certificate.now }
    {
        Question {
            puzzle,
            listed,
            certificate,
        }
    }

    /// Returns the puzzle.
    pub fn puzzle(&self) -> &'a Puzzle
        ensures { result.now ≡ self.now.puzzle }
    {
        self.puzzle
    }

    /// Returns the list, which has fewer than 2^32 entries.
    pub fn listed(&self) -> &'a [Arrangement]
        ensures listed { result.now ≡ self.now.listed }
        ensures few { length result.now < 2 ^ 32 }
    {
        self.listed
    }

    /// Returns the certificate.
    pub fn certificate(&self) -> &'a Certificate
        ensures { result.now ≡ record { symmetries = self.now.symmetries; lemmas = self.now.lemmas } }
    {
        self.certificate
    }

    /// Returns the certificate's lemmas, at most 1,000,000.
    pub fn lemmas(&self) -> &'a Lemmas
        ensures lemmas { result.now ≡ self.now.lemmas }
        ensures few { length result.now ≤ MOST_LEMMAS }
    {
        self.certificate.lemmas()
    }

    /// Returns the first listed entry that is no arrangement of the puzzle, with its first fault; `None` where all are
    /// arrangements.
    pub fn list_fault(&self) -> Option<(u32, ArrangementFault)>
        ensures { TellsOfArrangements self.now.puzzle self.now.listed result }
    {
        list_fault(self.puzzle, self.listed)
    }

    /// Checks everything but the trees. Returns the question with the certificate's symmetries, or its first fault.
    ///
    /// `bad` has to be what [`list_fault`](Question::list_fault) returns: the first listed entry that is no
    /// arrangement, with its first fault. An `Err` comes where memory is refused before a fault is found.
    pub fn prepare(
        &self,
        alloc: Global,
        bad: Option<(u32, ArrangementFault)>,
    ) -> Result<Result<Prepared<'_>, Fault>, AllocError>
        requires { TellsOfArrangements self.now.puzzle self.now.listed bad }
        ensures prepared { IfOk result (λ r. IfOk r (λ prepared. prepared ≡ self.now)) }
        ensures fault { IfOk result (λ r. IfErr r (IsFirst fault_rank (Occurs self.now))) }
        // If memory is refused, no listed entry has a fault.
        ensures memory { OnErr result (AreArrangements self.now.puzzle self.now.listed) }
    {
        if let Some((number, fault)) = bad {
            return Ok(Err(Fault::List(number, fault)));
        }
        let repeated = first_repeated(alloc, self.listed)?;
        self.prepare_listed(alloc, repeated)
    }

    /// Checks everything but the trees, for a list whose entries are known to be arrangements. Returns the question
    /// with the certificate's symmetries, or its first fault. An `Err` comes where memory is refused before a fault is
    /// found.
    ///
    /// `repeated` has to be what [`first_repeated`] returns: the first entry that equals an earlier one, or `None`.
    pub fn prepare_listed(
        &self,
        alloc: Global,
        repeated: Option<u32>,
    ) -> Result<Result<Prepared<'_>, Fault>, AllocError>
        requires arrangements { AreArrangements self.now.puzzle self.now.listed }
        requires repeated { TellsOfRepeats self.now.listed repeated }
        ensures prepared { IfOk result (λ r. IfOk r (λ prepared. prepared ≡ self.now)) }
        ensures fault { IfOk result (λ r. IfErr r (IsFirst fault_rank (Occurs self.now))) }
    {
        let puzzle = self.puzzle;
        if let Some(number) = repeated {
            return Ok(Err(Fault::Repeated(number)));
        }
        let symmetries = match make_symmetries(alloc, puzzle, self.certificate.symmetries()) {
            Ok(symmetries) => symmetries,
            Err(SymmetriesFault::Line(number, fault)) => {
                return Ok(Err(Fault::Symmetry(number, fault)));
            }
            Err(SymmetriesFault::Memory) => return Err(AllocError),
        };
        let lemmas = self.certificate.lemmas();
        if let Some((number, fault)) = prefixes_fault(puzzle, lemmas) {
            return Ok(Err(Fault::Prefix(number, fault)));
        }
        if !ends_at_a_root(lemmas) {
            return Ok(Err(Fault::Root));
        }
        // its contract says that this is a puzzle
        let _ = puzzle.board();
        Ok(Ok(Prepared::new(self, symmetries)))
    }

    /// Answers the question on one thread, and on one board for all lemmas. The gate is told of each lemma before its
    /// tree is walked. An `Err` comes where memory is refused before a fault is found.
    pub fn check<G: Gate>(&self, alloc: Global, gate: &G) -> Result<Answer, AllocError>
        ensures answer { IfOk result (IsAnswer self.now) }
        // The main theorem: a list that is called complete is.
        ensures complete { IfOk result (IsSound self.now) }
        ensures covered { IfOk result (IsCovering self.now) }
        // If memory is refused, no listed entry has a fault.
        ensures memory { OnErr result (AreArrangements self.now.puzzle self.now.listed) }
    {
        let prepared = match self.prepare(alloc, self.list_fault())? {
            Ok(prepared) => prepared,
            Err(fault) => return Ok(Answer::Refused(fault)),
        };
        let found = prepared.trees_fault(alloc, gate)?;
        Ok(prepared.answer(found))
    }
}
