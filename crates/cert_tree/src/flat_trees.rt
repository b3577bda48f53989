//! Trees whose nodes lie one after the other in memory, in preorder: each node before its children.

ghost use Rattle.std.specs.Prelude.{◌≡◌, ◌≢◌};

use crate::heads::Head;
use std::marker::Model;

/// A tree, borrowed as the heads of its nodes (nodes without their children). They lie in preorder, each node before
/// its children, in one piece of memory, and take 8 bytes each.
#[derive(Drop)]
pub struct FlatTree<'a> {
    heads: &'a [Head],
}

impl<'a> Model for FlatTree<'a> {
    ghost use Rattle.cert_tree.specs.contracts.heads.Head as head;
    ghost use Rattle.cert_tree.specs.Tree.{Tree};
    ghost use Rattle.cert_tree.specs.HeadCode.{tree_code};

    ghost Value = { Tree };

    ghost coded = { tree_code head.the_row.coded };

    ghost use Rattle.cert_tree.specs.Heads.{trees_in, first, AreOfTree};

    ghost view = { λ t. first (trees_in t.heads.now) };

    ghost invariant = { λ t. AreOfTree t.heads.now };
}

/// The trees that a walk in preorder has still to visit.
///
/// When the walk passes a node, the node's children become the first of these trees. They are a slice of the heads, so
/// a walk takes no memory.
#[derive(Drop)]
pub struct Trees<'a> {
    heads: &'a [Head],
}

impl<'a> Model for Trees<'a> {
    ghost use Rattle.cert_tree.specs.contracts.heads.Head as head;
    ghost use Rattle.cert_tree.specs.Tree.{Forest};
    ghost use Rattle.cert_tree.specs.HeadCode.{forest_code};

    ghost Value = { Forest };

    ghost coded = { forest_code head.the_row.coded };

    ghost use Rattle.cert_tree.specs.Heads.{trees_in, AreWhole};

    ghost view = { λ t. trees_in t.heads.now };

    ghost invariant = { λ t. AreWhole t.heads.now };
}

impl<'a> FlatTree<'a> {
    ghost use Rattle.std.specs.Prelude.{◌≡◌, length};
    ghost use Rattle.cert_tree.specs.Tree.{more, none};
    ghost use Rattle.cert_tree.specs.Heads.{heads_of, trees_in, first, AreOfTree};

    // The tree with these heads.
    pub(crate) fn of(heads: &'a [Head]) -> FlatTree<'a>
        requires { AreOfTree heads.now }
        ensures { result ≡ first (trees_in heads.now) }
    {
        FlatTree { heads }
    }

    /// Returns the heads of the nodes, in preorder.
    pub fn heads(&self) -> &'a [Head]
        ensures { result.now ≡ heads_of self.now }
    {
        self.heads
    }

    /// Returns how many nodes the tree has. Each has one head.
    pub fn nodes(&self) -> usize
        ensures { result ≡ length (heads_of self.now) }
    {
        self.heads().len()
    }

    /// Begins a walk in preorder over this tree alone.
    pub fn trees(&self) -> Trees<'a>
        ensures { result ≡ more self.now none }
    {
        Trees::of(self.heads)
    }
}

impl<'a> Trees<'a> {
    ghost use Rattle.std.specs.Prelude.{◌≡◌, ◌≢◌, ◌≤◌, ◌<◌, ◌^◌};
    ghost use Rattle.cert_tree.specs.Tree.{none, count};
    ghost use Rattle.cert_tree.specs.Heads.{arity, past, put, trees_in, AreWhole};

    // The trees that have these heads.
    pub(crate) fn of(heads: &'a [Head]) -> Trees<'a>
        requires { AreWhole heads.now }
        ensures { result ≡ trees_in heads.now }
    {
        Trees { heads }
    }

    /// Returns the same trees, for a walk of its own. It takes no memory.
    pub fn copy(&self) -> Trees<'a>
        ensures { result ≡ self.now }
    {
        Trees { heads: self.heads }
    }

    /// Passes the first node and returns its head. Its children are then the first trees. There has to be a tree.
    pub fn next(&mut self) -> Head
        requires { self.old ≢ none }
        ensures first { put result self.new ≡ self.old }
        ensures children { arity result ≤ count self.new }
        ensures few { count self.new < 2 ^ 60 }
    {
        let Some((head, rest)) = self.heads.split_first() else {
            unreachable!();
        };
        self.heads = rest;
        *head
    }

    /// Passes the first tree, in a step for each of its nodes. There has to be a tree.
    pub fn skip(&mut self)
        requires { self.old ≢ none }
        ensures { self.new ≡ past 1 self.old }
    {
        let mut left = 1;
        while left > 0 {
            left = left - 1 + self.next().children() as usize;
        }
    }
}
