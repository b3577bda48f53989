//! Lemmas that lie flat, each in memory of its own.

use crate::certificates::Lemma;
use crate::conversions::put_node;
use crate::flat_lemmas::FlatLemma;
use crate::packed_trees::PackedTree;
use match_puzzle::Pair;
use std::alloc::{AllocError, Global};
use std::marker::Model;

/// A lemma (a claim with a tree of cases) that lies flat in memory of its own: 6 bytes for each pair and 8 for each
/// node, and up to twice as many where room was taken for more.
#[derive(Drop)]
pub struct PackedLemma {
    number: u32,
    pairs: Vec<Pair>,
    tree: PackedTree,
}

impl Model for PackedLemma {
    ghost use Rattle.std.specs.Coded.{codes};
    ghost use Rattle.cert_tree.specs.contracts.heads.Head as head;
    ghost use Rattle.cert_tree.specs.HeadCode.{tree_code};
    ghost use Rattle.cert_tree.specs.Certificate.{Piece};

    ghost Value = { Piece };

    ghost coded = { Prim.hlevel (codes, tree_code head.the_row.coded) };

    ghost view = { λ l. record { number = l.number; prefix = l.pairs.items; tree = l.tree } };
}

impl PackedLemma {
    ghost use Rattle.std.specs.Prelude.{◌≡◌, IfOk};
    ghost use Rattle.match_limits.specs.declared.TheConstants.{MOST_CELLS};
    ghost use Rattle.cert_tree.specs.Certificate.{flat_piece, piece_of};
    ghost use Rattle.cert_tree.specs.Limits.{IsLemmaWithin};

    /// Makes the lemma with this number, these pairs and this tree.
    pub fn new(number: u32, pairs: Vec<Pair>, tree: PackedTree) -> PackedLemma
        ensures { result ≡ record { number = number; prefix = pairs.items; tree = tree } }
    {
        PackedLemma {
            number,
            pairs,
            tree,
        }
    }

    /// Makes an equal lemma that lies flat, by a loop over the nodes.
    pub fn of(alloc: Global, lemma: &Lemma) -> Result<PackedLemma, AllocError>
        requires { IsLemmaWithin MOST_CELLS (piece_of lemma.now) }
        ensures { IfOk result (λ packed. packed ≡ piece_of lemma.now) }
    {
        let pairs = Vec::from_slice(alloc, lemma.prefix.as_slice())?;
        let mut heads = Vec::new(alloc);
        put_node(&mut heads, &lemma.tree)?;
        Ok(PackedLemma::new(lemma.number, pairs, PackedTree::of(heads)))
    }

    /// Lends the lemma in the form that a certificate lends its lemmas in. Pairs and heads are not copied.
    pub fn lend(&self) -> FlatLemma<'_>
        ensures { flat_piece result ≡ self.now }
    {
        FlatLemma {
            number: self.number,
            prefix: &self.pairs,
            tree: self.tree.lend(),
        }
    }
}
