//! Questions of which only the trees are still to be checked.

use crate::faults::{Answer, Fault, TreeFault};
use crate::forks::Forker;
use crate::gates::Gate;
use crate::questions::Question;
use crate::settings::Setting;
use crate::walks::lemma_fault;
use cert_tree::FlatLemma;
use match_puzzle::Partial;
use puzzle_symmetry::Symmetry;
use std::alloc::{AllocError, Global};
use std::marker::Model;
use std::thread::Threads;

/// A question of which only the trees are still to be checked. The rest is right: the list has different arrangements,
/// each symmetry line is a symmetry, each lemma begins with a prefix (legal placements of different tiles at rising
/// cells), and the last lemma with nothing placed.
#[derive(Drop)]
pub struct Prepared<'a> {
    question: &'a Question<'a>,
    symmetries: Vec<Symmetry<'a>>,
}

impl<'a> Model for Prepared<'a> {
    ghost use Rattle.std.specs.Coded.{codes};
    ghost use Rattle.cert_tree.specs.contracts.heads.Head as head;
    ghost use Rattle.cert_tree.specs.HeadCode.{tree_code};
    ghost use Rattle.cert_check.specs.Setting.{Question};

    ghost Value = { Question };

    ghost coded = { Prim.hlevel (codes, tree_code head.the_row.coded) };

    ghost use Rattle.cert_check.specs.Answer.{IsPreparedWith};

    ghost view = { λ p. p.question.now };

    ghost invariant = { λ p. IsPreparedWith p.question.now p.symmetries.items };
}

impl<'a> Prepared<'a> {
    ghost use Rattle.std.specs.Prelude.{◌≡◌, ◌<◌, ◌≤◌, IfOk, None, length, slice_get};
    ghost use Rattle.match_puzzle.specs.Prefix.{empty_prefix};
    ghost use Rattle.match_limits.specs.declared.TheConstants.{MOST_FORKS};
    ghost use Rattle.cert_check.specs.Setting.{motions_of, setting_at};
    ghost use Rattle.cert_check.specs.Walk.{TellsOfLemma, TellsOfTrees};
    ghost use Rattle.match_puzzle.specs.Puzzle.{IsPuzzle};
    ghost use Rattle.match_puzzle.specs.PrefixFaults.{IsPairList};
    ghost use Rattle.cert_tree.specs.Certificate.{flat_piece};
    ghost use Rattle.cert_check.specs.Answer.{IsPrepared, IsPreparedWith, IsAnswer, IsSound, IsCovering};

    // The question with these symmetries, which are those of its lines.
    pub(crate) fn new(question: &'a Question<'a>, symmetries: Vec<Symmetry<'a>>) -> Prepared<'a>
        requires { IsPreparedWith question.now symmetries.items }
        ensures { result ≡ question.now }
    {
        Prepared {
            question,
            symmetries,
        }
    }

    /// Returns the question.
    pub fn question(&self) -> &Question<'a>
        ensures question { result.now ≡ self.now }
        ensures prepared { IsPrepared self.now }
        ensures puzzle { IsPuzzle self.now.puzzle }
    {
        self.question
    }

    /// Returns the symmetries of the certificate's lines, in order.
    pub fn symmetries(&self) -> &[Symmetry<'a>]
        ensures { result.now ≡ motions_of self.now }
    {
        &self.symmetries
    }

    /// Hands over the symmetries of the certificate's lines, in order.
    pub fn into_symmetries(self) -> Vec<Symmetry<'a>>
        ensures { result.items ≡ motions_of self.entry }
    {
        self.symmetries
    }

    // What the tree of the lemma with this number may name.
    fn setting(&self, lemma: u32) -> Setting<'_>
        requires { lemma < length self.now.lemmas }
        ensures { result ≡ setting_at self.now lemma }
    {
        let question = self.question;
        Setting::new(
            question.puzzle(),
            question.listed(),
            &self.symmetries,
            question.certificate(),
            lemma,
        )
    }

    // The lemma with this number.
    fn lemma(&self, number: u32) -> FlatLemma<'_>
        requires { number < length self.now.lemmas }
        ensures place { slice_get self.now.lemmas number ≡ Some (flat_piece result) }
        ensures prefix { IsPairList self.now.puzzle result.prefix.now }
    {
        self.question.lemmas().at(number as usize)
    }

    /// Returns the first fault, in preorder, of the tree of the lemma with this number; `None` where the tree holds.
    ///
    /// In the first `forks` levels, at most 6, the halves of a branch's children are walked at the same time, as
    /// [`forked_tree_fault`](crate::forked_tree_fault) does, and the gate is told of each. An `Err` comes where memory
    /// is refused.
    pub fn forked_tree_fault<R: Threads + Sync, G: Gate + Sync>(
        &self,
        rt: &R,
        alloc: Global,
        lemma: u32,
        forks: u8,
        gate: &G,
    ) -> Result<Option<TreeFault>, AllocError>
        requires lemma { lemma < length self.now.lemmas }
        requires forks { forks ≤ MOST_FORKS }
        ensures { IfOk result (TellsOfLemma self.now lemma) }
    {
        let forker = Forker { rt, gate, lemma };
        forker.lemma_fault(alloc, &self.setting(lemma), &self.lemma(lemma), forks)
    }

    // The first fault of the tree of the lemma with this number; `None` where it holds. Nothing is placed before, nor
    // afterwards if it holds.
    fn tree_fault(
        &self,
        alloc: Global,
        number: u32,
        partial: &mut Partial<'_>,
    ) -> Result<Option<TreeFault>, AllocError>
        requires lemma { number < length self.now.lemmas }
        requires empty { partial.old ≡ record { puzzle = self.now.puzzle; placed = empty_prefix self.now.puzzle } }
        ensures tells { IfOk result (TellsOfLemma self.now number) }
        ensures restored { IfOk result (λ fault. fault ≡ None → partial.new ≡ partial.old) }
    {
        let setting = self.setting(number);
        let lemma = self.lemma(number);
        lemma_fault(alloc, &setting, &lemma, partial)
    }

    /// Returns the first lemma whose tree has a fault, with its first fault in preorder; `None` where all trees hold.
    /// The gate is told of each lemma before its tree is walked. An `Err` comes where memory is refused.
    pub fn trees_fault<G: Gate>(
        &self,
        alloc: Global,
        gate: &G,
    ) -> Result<Option<(u32, TreeFault)>, AllocError>
        ensures { IfOk result (TellsOfTrees self.now) }
    {
        let mut partial = Partial::new(alloc, self.question.puzzle())?;
        for number in 0..self.question.lemmas().len() as u32 {
            gate.enter(number);
            if let Some(fault) = self.tree_fault(alloc, number, &mut partial)? {
                return Ok(Some((number, fault)));
            }
        }
        Ok(None)
    }

    /// Returns the answer, given what was found of the trees: the first lemma whose tree has a fault, with its first
    /// fault, or `None` where all trees hold.
    pub fn answer(&self, found: Option<(u32, TreeFault)>) -> Answer
        requires { TellsOfTrees self.now found }
        ensures answer { IsAnswer self.now result }
        // The main theorem: a list that is called complete is.
        ensures complete { IsSound self.now result }
        ensures covered { IsCovering self.now result }
    {
        // its contract says that all but the trees is right
        let _ = self.question();
        match found {
            None => Answer::Complete,
            Some((number, fault)) => Answer::Refused(Fault::Tree(number, fault)),
        }
    }
}
