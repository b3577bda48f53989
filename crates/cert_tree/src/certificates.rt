//! Lemmas (numbered claims, each with a tree of cases that shows it), and certificates, which are made of them.

use crate::flat_lemmas::Lemmas;
use crate::nodes::Node;
use match_board::SymmetryLine;
use match_puzzle::Pair;
use std::marker::Model;

/// Pairs of a cell and a placement, in order. They may be any pairs.
#[derive(Drop)]
pub struct Pairs {
    pairs: Vec<Pair>,
}

impl Model for Pairs {
    ghost use Rattle.std.specs.Prelude.{List};
    ghost use Rattle.match_puzzle.specs.declared.placements.Pair.{Pair};

    ghost Value = { List Pair };

    ghost view = { λ p. p.pairs.items };
}

impl Pairs {
    ghost use Rattle.std.specs.Prelude.{◌≡◌};

    /// Keeps these pairs, in order.
    pub fn new(pairs: Vec<Pair>) -> Pairs
        ensures { result ≡ pairs.items }
    {
        Pairs { pairs }
    }

    /// Returns the pairs, in order.
    pub fn as_slice(&self) -> &[Pair]
        ensures { result.now ≡ self.now }
    {
        &self.pairs
    }
}

/// A claim, and a tree of cases that shows it: each arrangement that extends the prefix (pairs of a cell and a
/// placement) is listed, or has an image under a symmetry that is listed.
///
/// The nodes of the tree own their children, so it can be built from its leaves or from its root. A certificate keeps
/// its lemmas in another form, as [`Lemmas`].
#[derive(Drop)]
pub struct Lemma {
    /// The number of the lemma in its certificate, from 0.
    pub number: u32,
    /// The pairs that are placed where the tree begins.
    pub prefix: Pairs,
    pub tree: Node,
}

/// Symmetries and lemmas, both numbered from 0. The last lemma is the root: it is to show that the list of arrangements
/// is complete.
///
/// There are at most 1,000,000 lemmas, and fewer than 2^32 symmetries. A prefix has fewer than 2^32 pairs.
#[derive(Drop)]
pub struct Certificate {
    symmetries: Vec<SymmetryLine>,
    lemmas: Lemmas,
}

impl Model for Certificate {
    ghost use Rattle.std.specs.Coded.{codes};
    ghost use Rattle.cert_tree.specs.contracts.heads.Head as head;
    ghost use Rattle.cert_tree.specs.HeadCode.{tree_code};
    ghost use Rattle.cert_tree.specs.Certificate.{Contents, IsNumbered};

    ghost Value = { Contents };

    ghost coded = { Prim.hlevel (codes, tree_code head.the_row.coded) };

    ghost view = { λ c. record { symmetries = c.symmetries.items; lemmas = c.lemmas } };

    ghost invariant = { λ c. IsNumbered (record { symmetries = c.symmetries.items; lemmas = c.lemmas }) };
}

impl Certificate {
    ghost use Rattle.std.specs.Prelude.{◌≡◌};
    ghost use Rattle.cert_tree.specs.Certificate.{IsNumbered};

    /// Makes a certificate of these symmetries and lemmas, each in the order of their numbers.
    pub fn of(symmetries: Vec<SymmetryLine>, lemmas: Lemmas) -> Certificate
        requires { IsNumbered (record { symmetries = symmetries.items; lemmas = lemmas }) }
        ensures { result ≡ record { symmetries = symmetries.items; lemmas = lemmas } }
    {
        Certificate { symmetries, lemmas }
    }

    /// Returns the symmetries, in the order of their numbers.
    pub fn symmetries(&self) -> &[SymmetryLine]
        ensures symmetries { result.now ≡ self.now.symmetries }
        ensures numbered { IsNumbered self.now }
    {
        &self.symmetries
    }

    /// Returns the lemmas, in the order of their numbers.
    pub fn lemmas(&self) -> &Lemmas
        ensures lemmas { result.now ≡ self.now.lemmas }
        ensures numbered { IsNumbered self.now }
    {
        &self.lemmas
    }
}
