//! Lemmas that share a few pieces of memory.

ghost use Rattle.std.specs.Prelude.{◌≡◌, ◌++◌, All, OnOk, map};
ghost use Rattle.cert_tree.specs.Spans.{CanMove, moved_by};

use crate::flat_trees::FlatTree;
use crate::heads::Head;
use match_puzzle::Pair;
use std::alloc::{AllocError, Global};
use std::marker::Model;

/// The pairs and the heads of several lemmas, each in one piece of memory.
#[derive(Drop)]
pub(crate) struct Block {
    pub(crate) pairs: Vec<Pair>,
    pub(crate) heads: Vec<Head>,
}

/// Where a lemma lies among pairs and heads: in which block of them, and from where to where.
#[derive(Clone, Copy)]
pub struct LemmaSpan {
    pub(crate) number: u32,
    pub(crate) block: usize,
    pub(crate) pairs_start: usize,
    pub(crate) pairs_end: usize,
    pub(crate) heads_start: usize,
    pub(crate) heads_end: usize,
}

/// A lemma of a certificate, borrowed: its pairs and the heads of its tree (its nodes without their children) lie among
/// those of the other lemmas.
#[derive(Drop)]
pub struct FlatLemma<'a> {
    /// The number of the lemma in its certificate, from 0.
    pub number: u32,
    /// The pairs that are placed where the tree begins.
    pub prefix: &'a [Pair],
    pub tree: FlatTree<'a>,
}

/// The lemmas of a certificate, in the order of their numbers.
///
/// The pairs of all prefixes lie in one piece of memory, and the heads of all trees in another, so no lemma needs
/// memory of its own: it takes 48 bytes, and 6 for each pair and 8 for each node. Lemmas that were read side by side
/// stay where they are, in a few such pieces.
#[derive(Drop)]
pub struct Lemmas {
    blocks: Vec<Block>,
    spans: Vec<LemmaSpan>,
}

impl Model for Lemmas {
    ghost use Rattle.std.specs.Prelude.{List, map};
    ghost use Rattle.std.specs.Coded.{codes};
    ghost use Rattle.cert_tree.specs.contracts.heads.Head as head;
    ghost use Rattle.cert_tree.specs.HeadCode.{tree_code};
    ghost use Rattle.cert_tree.specs.Certificate.{Piece};

    ghost Value = { List Piece };

    ghost coded = { Prim.hlevel (codes, tree_code head.the_row.coded) };

    ghost use Rattle.cert_tree.specs.Spans.{piece_at, ArePlaced};

    ghost view = { λ l. map (piece_at l.blocks.items) l.spans.items };

    ghost invariant = { λ l. ArePlaced l.blocks.items l.spans.items };
}

impl Lemmas {
    ghost use Rattle.std.specs.Prelude.{◌≡◌, ◌<◌, ◌++◌, [], IfOk, Some, length, map, slice_get};
    ghost use Rattle.cert_tree.specs.Certificate.{flat_piece};
    ghost use Rattle.cert_tree.specs.Spans.{piece_at, piece_in, ArePlaced, AreSpans};

    /// Returns an empty list of lemmas.
    pub fn none(alloc: Global) -> Lemmas
        ensures { result ≡ [] }
    {
        Lemmas::of_blocks(Vec::new(alloc), Vec::new(alloc))
    }

    /// Takes the lemmas that lie at these spans of the pairs and heads, in order.
    pub fn of(
        pairs: Vec<Pair>,
        heads: Vec<Head>,
        spans: Vec<LemmaSpan>,
    ) -> Result<Lemmas, AllocError>
        requires { AreSpans pairs.items heads.items spans.items }
        ensures { IfOk result (λ lemmas. lemmas ≡ map (piece_in pairs.items heads.items) spans.items) }
    {
        let mut blocks = Vec::new(*spans.allocator());
        blocks.push(Block { pairs, heads })?;
        Ok(Lemmas::of_blocks(blocks, spans))
    }

    // The lemmas at these spans of the blocks.
    pub(crate) fn of_blocks(blocks: Vec<Block>, spans: Vec<LemmaSpan>) -> Lemmas
        requires { ArePlaced blocks.items spans.items }
        ensures { result ≡ map (piece_at blocks.items) spans.items }
    {
        Lemmas { blocks, spans }
    }

    // Takes the lemmas apart: their blocks of pairs and heads, and where each lemma lies in them.
    pub(crate) fn apart(self) -> (Vec<Block>, Vec<LemmaSpan>)
        ensures spans { ArePlaced result.0.items result.1.items }
        ensures lemmas { self ≡ map (piece_at result.0.items) result.1.items }
    {
        (self.blocks, self.spans)
    }

    /// Returns these lemmas, followed by the others. Pairs and heads stay where they lie.
    pub fn with(self, others: Lemmas) -> Result<Lemmas, AllocError>
        ensures { IfOk result (λ all. all ≡ self ++ others) }
    {
        let (mut blocks, mut spans) = self.apart();
        let (mut other_blocks, other_spans) = others.apart();
        let before = blocks.len();
        blocks.append(&mut other_blocks)?;
        put_moved(&mut spans, &other_spans, before)?;
        Ok(Lemmas::of_blocks(blocks, spans))
    }

    /// Returns how many lemmas there are.
    pub fn len(&self) -> usize
        ensures { result ≡ length self.now }
    {
        self.spans.len()
    }

    /// Returns the lemma at this place of the list, from 0.
    pub fn at(&self, number: usize) -> FlatLemma<'_>
        requires { number < length self.now }
        ensures { slice_get self.now number ≡ Some (flat_piece result) }
    {
        let span = self.spans[number];
        let block = &self.blocks[span.block];
        FlatLemma::of(&block.pairs, &block.heads, span)
    }
}

impl<'a> FlatLemma<'a> {
    ghost use Rattle.std.specs.Prelude.{◌≡◌};
    ghost use Rattle.cert_tree.specs.Certificate.{flat_piece};
    ghost use Rattle.cert_tree.specs.Spans.{piece_in, LiesIn};

    /// Returns the lemma that lies at this span of the pairs and heads.
    pub fn of(pairs: &'a [Pair], heads: &'a [Head], span: LemmaSpan) -> FlatLemma<'a>
        requires { LiesIn pairs.now heads.now span }
        ensures { flat_piece result ≡ piece_in pairs.now heads.now span }
    {
        FlatLemma {
            number: span.number,
            prefix: &pairs[span.pairs_start..span.pairs_end],
            tree: FlatTree::of(&heads[span.heads_start..span.heads_end]),
        }
    }
}

impl LemmaSpan {
    ghost use Rattle.std.specs.Prelude.{◌≡◌, ◌≤◌, length, drop};
    ghost use Rattle.cert_tree.specs.Heads.{trees_in, first, AreOfTree};
    ghost use Rattle.cert_tree.specs.Spans.{CanMove, moved_by, piece_in, IsSpan};

    /// Returns the span of a lemma that has all pairs from `pairs_start` on, and all heads from `heads_start` on.
    pub fn of_last(
        number: u32,
        pairs: &[Pair],
        pairs_start: usize,
        heads: &[Head],
        heads_start: usize,
    ) -> LemmaSpan
        requires pairs { pairs_start ≤ length pairs.now }
        requires heads { heads_start ≤ length heads.now }
        requires tree { AreOfTree (drop heads_start heads.now) }
        ensures span { IsSpan pairs.now heads.now result }
        ensures piece { piece_in pairs.now heads.now result ≡ record {
          number = number;
          prefix = drop pairs_start pairs.now;
          tree = first (trees_in (drop heads_start heads.now));
        } }
    {
        LemmaSpan {
            number,
            block: 0,
            pairs_start,
            pairs_end: pairs.len(),
            heads_start,
            heads_end: heads.len(),
        }
    }

    // This span, moved on by `blocks` blocks.
    fn moved(self, blocks: usize) -> LemmaSpan
        requires { CanMove blocks self }
        ensures { result ≡ moved_by blocks self }
    {
        LemmaSpan {
            number: self.number,
            block: blocks + self.block,
            pairs_start: self.pairs_start,
            pairs_end: self.pairs_end,
            heads_start: self.heads_start,
            heads_end: self.heads_end,
        }
    }
}

// Appends the other spans, each moved on by `blocks` blocks.
fn put_moved(
    spans: &mut Vec<LemmaSpan>,
    others: &[LemmaSpan],
    blocks: usize,
) -> Result<(), AllocError>
    requires { All (CanMove blocks) others.now }
    ensures { OnOk result (spans.new.items ≡ spans.old.items ++ map (moved_by blocks) others.now) }
{
    for span in others {
        spans.push(span.moved(blocks))?;
    }
    Ok(())
}
