//! What the tree of a lemma may name.

ghost use Rattle.std.specs.Prelude.{◌≡◌, ◌<◌, ◌≤◌, IfSome, None, Some, length, map, slice_get};
ghost use Rattle.match_puzzle.specs.PrefixFaults.{IsPairList};
ghost use Rattle.puzzle_symmetry.specs.Motion.{motion_of};
ghost use Rattle.cert_check.specs.Setting.{question_of, setting_at, BeginWithPrefixes};

use cert_tree::{Certificate, Lemmas};
use match_puzzle::{Arrangement, Pair, Puzzle};
use puzzle_symmetry::Symmetry;
use std::marker::Model;

// The listed arrangements, the symmetries, and the lemmas before a lemma, each by number.
#[derive(Drop)]
pub(crate) struct Setting<'a> {
    puzzle: &'a Puzzle,
    listed: &'a [Arrangement],
    symmetries: &'a [Symmetry<'a>],
    lemmas: &'a Lemmas,
    // how many lemmas come before the lemma
    earlier: usize,
}

impl<'a> Model for Setting<'a> {
    ghost use Rattle.std.specs.Prelude.{◌≤◌, length, take};
    ghost use Rattle.cert_check.specs.Setting.{Setting, setting_of, IsSetting};

    ghost Value = { Setting };

    ghost view = { λ s. setting_of s.puzzle.now s.listed.now s.symmetries.now (take s.earlier s.lemmas.now) };

    ghost invariant = { λ s. IsSetting s.puzzle.now s.symmetries.now s.lemmas.now × (s.earlier ≤ length s.lemmas.now) };
}

impl<'a> Setting<'a> {
    // What the tree of the lemma with this number may name. The symmetries have to be those of the certificate's lines,
    // and the lemmas have to begin with prefixes.
    pub(crate) fn new(
        puzzle: &'a Puzzle,
        listed: &'a [Arrangement],
        symmetries: &'a [Symmetry<'a>],
        certificate: &'a Certificate,
        lemma: u32,
    ) -> Setting<'a>
        requires symmetries { symmetries.now ≡ map (motion_of puzzle.now) certificate.now.symmetries }
        requires prefixes { BeginWithPrefixes puzzle.now certificate.now.lemmas }
        requires lemma { lemma < length certificate.now.lemmas }
        ensures { result ≡ setting_at (question_of puzzle.now listed.now certificate.now) lemma }
    {
        Setting {
            puzzle,
            listed,
            symmetries,
            lemmas: certificate.lemmas(),
            earlier: lemma as usize,
        }
    }

    pub(crate) fn puzzle(&self) -> &'a Puzzle
        ensures { result.now ≡ self.now.puzzle }
    {
        self.puzzle
    }

    pub(crate) fn listed(&self) -> &'a [Arrangement]
        ensures { result.now ≡ self.now.listed }
    {
        self.listed
    }

    // The pairs that an earlier lemma begins with.
    pub(crate) fn prefix(&self, lemma: u32) -> Option<&'a [Pair]>
        ensures some { IfSome result (λ pairs. slice_get self.now.earlier lemma ≡ Some pairs.now) }
        ensures right { IfSome result (λ pairs. IsPairList self.now.puzzle pairs.now) }
        ensures none { result ≡ None → length self.now.earlier ≤ lemma }
    {
        let number = lemma as usize;
        if number >= self.earlier {
            return None;
        }
        Some(self.lemmas.at(number).prefix)
    }

    pub(crate) fn symmetry(&self, number: u16) -> Option<&'a Symmetry<'a>>
        ensures some { IfSome result (λ symmetry. slice_get self.now.symmetries number ≡ Some symmetry.now.line) }
        ensures puzzle { IfSome result (λ symmetry. symmetry.now.puzzle ≡ self.now.puzzle) }
        ensures none { result ≡ None → length self.now.symmetries ≤ number }
    {
        self.symmetries.get(usize::from(number))
    }
}
