//! Nodes of trees, with what is placed there.

ghost use Rattle.std.specs.Prelude.{◌≡◌, ◌≢◌, ◌≤◌, ℕ, List, IfOk, MatchOption, drop, length, slice_get};
ghost use Rattle.match_board.specs.Board.{cell_count};
ghost use Rattle.match_puzzle.specs.Fitting.{AreFitting, IsItem};
ghost use Rattle.match_puzzle.specs.Prefix.{Prefix};
ghost use Rattle.match_puzzle.specs.declared.items.Item.{Item};
ghost use Rattle.match_puzzle.specs.declared.placements.Pair.{Pair};
ghost use Rattle.match_puzzle.specs.PrefixFaults.{IsPairList};
ghost use Rattle.cert_tree.specs.Certificate.{flat_piece};
ghost use Rattle.cert_tree.specs.Heads.{arity, branch_head, first, past, put};
ghost use Rattle.cert_tree.specs.Tree.{Forest, Tree, count, none};
ghost use Rattle.cert_check.specs.Derivation.{start_of};
ghost use Rattle.cert_check.specs.Scene.{IsChild, IsPath, LeadsTo};

use cert_tree::{FlatLemma, Head, Trees};
use match_puzzle::{FittingPairs, Item, Pair, Partial, Puzzle};
use std::alloc::{AllocError, Global};

/// A node of a lemma's tree, and the board there.
#[derive(Drop)]
pub struct Scene<'a> {
    /// What is placed.
    pub partial: Partial<'a>,
    /// What is left of a walk in preorder; the node comes first.
    pub trees: Trees<'a>,
    /// How many words of the tree's text come before the node's, up to `usize::MAX`. No contract says it.
    pub words: usize,
}

impl<'a> Scene<'a> {
    /// Goes from the top of the lemma's tree to the node at this path of child numbers, from 0. It passes each node
    /// that comes before it in the text. An error comes where memory is refused.
    pub fn at(
        alloc: Global,
        puzzle: &'a Puzzle,
        lemma: &FlatLemma<'a>,
        path: &[u16],
    ) -> Result<Scene<'a>, AllocError>
        requires prefix { IsPairList puzzle.now (flat_piece lemma.now).prefix }
        requires path { IsPath puzzle.now (flat_piece lemma.now).tree (start_of puzzle.now (flat_piece lemma.now))
            path.now }
        ensures puzzle { IfOk result (λ scene. scene.partial.puzzle ≡ puzzle.now) }
        ensures leads { IfOk result (λ scene.
            LeadsTo puzzle.now (flat_piece lemma.now).tree (start_of puzzle.now (flat_piece lemma.now)) path.now
            (first scene.trees) scene.partial.placed) }
        ensures some { IfOk result (λ scene. scene.trees ≢ none) }
        ensures long { IfOk result (λ scene.
            length scene.partial.placed ≡ cell_count scene.partial.puzzle.board) }
    {
        let partial = Partial::of(alloc, puzzle, lemma.prefix)?;
        let mut scene = Scene {
            partial,
            trees: lemma.tree.trees(),
            words: 0,
        };
        scene.follow(path);
        Ok(scene)
    }

    /// Returns the node without its children.
    pub fn head(&self) -> Head
        requires { self.now.trees ≢ none }
        ensures { (rest : Forest) × (put result rest ≡ self.now.trees) }
    {
        self.trees.copy().next()
    }

    // Goes to the node at this path from here.
    fn follow(&mut self, path: &[u16])
        requires some { self.old.trees ≢ none }
        requires long { length self.old.partial.placed ≡ cell_count self.old.partial.puzzle.board }
        requires path { IsPath self.old.partial.puzzle (first self.old.trees) self.old.partial.placed path.now }
        ensures some { self.new.trees ≢ none }
        ensures long { length self.new.partial.placed ≡ cell_count self.new.partial.puzzle.board }
        ensures puzzle { self.new.partial.puzzle ≡ self.old.partial.puzzle }
        ensures leads { LeadsTo self.old.partial.puzzle (first self.old.trees) self.old.partial.placed path.now
            (first self.new.trees) self.new.partial.placed }
    {
        for number in path {
            self.go_to_child(*number);
        }
    }

    // Goes to the child with this number.
    fn go_to_child(&mut self, number: u16)
        requires some { self.old.trees ≢ none }
        requires long { length self.old.partial.placed ≡ cell_count self.old.partial.puzzle.board }
        requires child { (node : Tree) × (placed : Prefix)
            × IsChild self.old.partial.puzzle (first self.old.trees) self.old.partial.placed number node placed }
        ensures some { self.new.trees ≢ none }
        ensures long { length self.new.partial.placed ≡ cell_count self.new.partial.puzzle.board }
        ensures puzzle { self.new.partial.puzzle ≡ self.old.partial.puzzle }
        ensures child { IsChild self.old.partial.puzzle (first self.old.trees) self.old.partial.placed number
            (first self.new.trees) self.new.partial.placed }
    {
        let head = self.trees.next();
        let Some(item) = branched_on(head) else {
            unreachable!();
        };
        self.words = self.words.saturating_add(words_of(head));
        go_past(&mut self.trees, number, &mut self.words);
        let Some(pair) = pair_at(&self.partial, item, number) else {
            unreachable!();
        };
        self.partial.place(pair.cell, pair.placement);
    }
}

// The pair with this number, of those that fit and settle the item.
fn pair_at(partial: &Partial<'_>, item: Item, number: u16) -> Option<Pair>
    requires { IsItem partial.now.puzzle item }
    ensures { (xs : List Pair) × AreFitting partial.now.puzzle partial.now.placed item xs
        × (result ≡ slice_get xs number) }
{
    let mut pairs = pairs_from(item, u32::from(number), partial);
    pairs.take_first()
}

// The pairs that fit and settle the item, from this number on.
pub(crate) fn pairs_from(item: Item, number: u32, partial: &Partial<'_>) -> FittingPairs
    requires { IsItem partial.now.puzzle item }
    ensures { (xs : List Pair) × AreFitting partial.now.puzzle partial.now.placed item xs
        × (result ≡ drop number xs) }
{
    let mut pairs = partial.fitting(item);
    for _ in 0..number {
        pairs.take_first();
    }
    pairs
}

// Passes `number` trees, in a step for each of their nodes, and adds the words of their text.
fn go_past(trees: &mut Trees<'_>, number: u16, words: &mut usize)
    requires { number ≤ count trees.old }
    ensures { trees.new ≡ past number trees.old }
{
    let mut left = usize::from(number);
    while left > 0 {
        let head = trees.next();
        left = left - 1 + head.children() as usize;
        *words = words.saturating_add(words_of(head));
    }
}

// The item that the node is a branch on, if it is a branch.
pub(crate) fn branched_on(head: Head) -> Option<Item>
    ensures { MatchOption result ((item : Item) (children : ℕ) → head ≢ branch_head item children)
        (λ item. head ≡ branch_head item (arity head)) }
{
    match head {
        Head::Cell { cell, .. } => Some(Item::Cell(cell)),
        Head::Tile { tile, .. } => Some(Item::Tile(tile)),
        _ => None,
    }
}

// How many words a node has in the text of its tree.
fn words_of(head: Head) -> usize {
    match head {
        Head::Cell { .. } | Head::Tile { .. } | Head::Image { .. } => 3,
        Head::DeadCell(_) | Head::DeadTile(_) | Head::Found(_) | Head::Same(_) => 2,
    }
}
