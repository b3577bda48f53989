//! What a search may cite instead of searching.

ghost use Rattle.std.specs.Prelude.{◌≡◌, List, Option, IfOk, IfSome};
ghost use Rattle.match_puzzle.specs.declared.placements.Pair.{Pair as Placed};
ghost use Rattle.xcc_dance.specs.Outcome.{IsCiteWithin};

use match_puzzle::Pair;
use std::alloc::AllocError;

/// A lemma (an earlier claim) that takes the place of a child of a branch.
#[derive(Clone, Copy, PartialEq, Eq, Debug)]
pub enum Cite {
    /// The lemma with this number. Its prefix is part of what is placed.
    Same(u32),
    /// The image of a lemma under a symmetry: the number of the lemma, then that of the symmetry.
    Image(u32, u16),
}

/// Knows lemmas that a search may cite.
pub trait Cites {
    ghost use Rattle.xcc_dance.specs.declared.cites.Cite.{Cite as Answer};

    /// The prefixes that it may be asked about.
    ghost takes: { Self → List Placed → Type 0 };
    /// How it may change when it is asked.
    ghost moves: { Self → Self → Type 0 };
    /// What it may have answered about these pairs.
    ghost answers: { Self → List Placed → Option Answer → Type 0 };

    /// Returns what takes the place of the node at which these pairs are placed, in the order of placing; `None` where
    /// the node is to be searched. Lemmas are numbered below 1,000,000 and symmetries below 1,024.
    ///
    /// An error comes where memory is refused.
    fn cite(&mut self, prefix: &[Pair]) -> Result<Option<Cite>, AllocError>
        requires { takes self.old prefix.now }
        ensures within { IfOk result (λ o. IfSome o IsCiteWithin) }
        ensures answered { IfOk result (answers self.new prefix.now) }
        ensures moved { moves self.old self.new };

    ghost stays: { (c : Self) → moves c c };

    ghost goes_on: { (c d e : Self) → moves c d → moves d e → moves c e };

    ghost takes_still: { (c d : Self) (prefix : List Placed) → moves c d → takes c prefix → takes d prefix };

    ghost answers_still: { (c d : Self) (prefix : List Placed) (answer : Option Answer) → moves c d → answers c prefix answer → answers d prefix answer };
}

/// Cites nothing: every node is searched.
#[derive(Clone, Copy, PartialEq, Eq, Debug)]
pub struct NoCites;

impl Cites for NoCites {
    ghost use Rattle.std.specs.Prelude.{Ok, None, refl};
    ghost use Rattle.std.proofs.Common.{◌∙◌};

    ghost takes = { λ _ _. Unit {0} };

    ghost moves = { λ c d. c ≡ d };

    ghost answers = { λ _ _ answer. answer ≡ None };

    ghost stays = { λ c. refl };

    ghost goes_on = { λ c d e one two. one ∙ two };

    ghost takes_still = { λ c d prefix moved takes. takes };

    ghost answers_still = { λ c d prefix answer moved is. is };

    fn cite(&mut self, _prefix: &[Pair]) -> Result<Option<Cite>, AllocError>
        ensures none { result ≡ Ok None }
        ensures moved { self.new ≡ self.old }
    {
        Ok(None)
    }
}
