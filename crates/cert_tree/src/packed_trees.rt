//! Trees whose heads (nodes without their children) lie in memory of their own.

use crate::conversions::first_node;
use crate::flat_trees::FlatTree;
use crate::heads::Head;
use crate::nodes::Node;
use std::alloc::{AllocError, Global};
use std::marker::Model;

/// A tree in memory of its own, as the heads of its nodes in preorder, each node before its children. It takes 8 bytes
/// for each node, and up to twice as many where room was taken for more.
#[derive(Drop)]
pub struct PackedTree {
    heads: Vec<Head>,
}

impl Model for PackedTree {
    ghost use Rattle.cert_tree.specs.contracts.heads.Head as head;
    ghost use Rattle.cert_tree.specs.Tree.{Tree};
    ghost use Rattle.cert_tree.specs.HeadCode.{tree_code};

    ghost Value = { Tree };

    ghost coded = { tree_code head.the_row.coded };

    ghost use Rattle.cert_tree.specs.Heads.{trees_in, first, AreOfTree};

    ghost view = { λ t. first (trees_in t.heads.items) };

    ghost invariant = { λ t. AreOfTree t.heads.items };
}

impl PackedTree {
    ghost use Rattle.std.specs.Prelude.{◌≡◌, IfOk};
    ghost use Rattle.cert_tree.specs.Heads.{trees_in, first, AreOfTree};
    ghost use Rattle.cert_tree.specs.Limits.{HasLevels};
    ghost use Rattle.match_limits.specs.declared.TheConstants.{MOST_LEVELS};
    ghost use Rattle.cert_tree.specs.Tree.{tree_of};

    /// Makes the tree with these heads.
    pub fn of(heads: Vec<Head>) -> PackedTree
        requires { AreOfTree heads.items }
        ensures { result ≡ first (trees_in heads.items) }
    {
        PackedTree { heads }
    }

    /// Lends the tree. The heads are not copied.
    pub fn lend(&self) -> FlatTree<'_>
        ensures { result ≡ self.now }
    {
        FlatTree::of(&self.heads)
    }

    /// Makes an equal tree of nodes that own their children. A recursion as deep as the tree makes it, so the tree must
    /// have no more levels than the text of a lemma may have.
    pub fn to_node(&self, alloc: Global) -> Result<Node, AllocError>
        requires { HasLevels MOST_LEVELS self.now }
        ensures { IfOk result (λ node. tree_of node ≡ self.now) }
    {
        first_node(alloc, &mut self.lend().trees())
    }
}
