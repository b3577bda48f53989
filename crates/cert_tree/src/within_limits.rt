//! Whether a lemma is within the limits of boards with up to a given number of cells.

ghost use Rattle.std.specs.Prelude.{◌≡◌, ◌≢◌, ◌≤◌, IsTrue, MatchBool};
ghost use Rattle.std.specs.List.{AllByRecursion};
ghost use Rattle.cert_tree.specs.Tree.{tree_of, forest_of, count, none};
ghost use Rattle.cert_tree.specs.Certificate.{piece_of, flat_piece};
ghost use Rattle.cert_tree.specs.Heads.{first, front, past};
ghost use Rattle.cert_tree.specs.Limits.{IsTreeWithin, AreTreesWithin, AreChildrenWithin, IsPairWithin, IsLemmaWithin};

use crate::certificates::Lemma;
use crate::flat_lemmas::FlatLemma;
use crate::flat_trees::Trees;
use crate::heads::Head;
use crate::nodes::Node;
use crate::packed_lemmas::PackedLemma;
use match_limits::{LAST_ARRANGEMENT, LAST_LEMMA, LAST_SYMMETRY, LAST_TURN, MOST_CELLS, TURNS};
use match_puzzle::Pair;

// Looks no deeper than `room` levels.
#[cycle(limits)]
#[tactic(auto, using(crate::proofs::TreeLemmas::tree_laws))]
fn is_node_within(cells: u16, node: &Node, room: u32) -> bool
    ensures { MatchBool result (IsTreeWithin cells room (tree_of node.now))
        (IsTreeWithin cells room (tree_of node.now) → ⊥) }
{
    if room == 0 {
        return false;
    }
    match node {
        Node::Cell { cell, children } => {
            *cell < cells && are_children_within(cells, children.as_slice(), room - 1)
        }
        Node::Tile { tile, children } => {
            *tile < cells && are_children_within(cells, children.as_slice(), room - 1)
        }
        Node::DeadCell(cell) => *cell < cells,
        Node::DeadTile(tile) => *tile < cells,
        Node::Found(number) => *number <= LAST_ARRANGEMENT,
        Node::Same(lemma) => *lemma <= LAST_LEMMA,
        Node::Image { lemma, symmetry } => *lemma <= LAST_LEMMA && *symmetry <= LAST_SYMMETRY,
    }
}

#[cycle(limits)]
fn are_children_within(cells: u16, nodes: &[Node], room: u32) -> bool
    ensures { MatchBool result (AreChildrenWithin cells room (forest_of nodes.now))
        (AreChildrenWithin cells room (forest_of nodes.now) → ⊥) }
{
    let count = nodes.len();
    let most = TURNS as usize * usize::from(cells);
    count > 0 && (count <= most && are_nodes_within(cells, nodes, room))
}

#[cycle(limits)]
fn are_nodes_within(cells: u16, nodes: &[Node], room: u32) -> bool
    ensures { MatchBool result (AreTreesWithin cells room (forest_of nodes.now))
        (AreTreesWithin cells room (forest_of nodes.now) → ⊥) }
{
    for node in nodes {
        if !is_node_within(cells, node, room) {
            return false;
        }
    }
    true
}

fn is_pair_within(cells: u16, pair: &Pair) -> bool
    ensures { MatchBool result (IsPairWithin cells pair.now) (IsPairWithin cells pair.now → ⊥) }
{
    pair.cell < cells && (pair.placement.tile < cells && pair.placement.turn <= LAST_TURN)
}

fn are_pairs_within(cells: u16, pairs: &[Pair]) -> bool
    ensures { MatchBool result (AllByRecursion (IsPairWithin cells) pairs.now)
        (AllByRecursion (IsPairWithin cells) pairs.now → ⊥) }
{
    pairs.iter().all(|pair| is_pair_within(cells, pair))
}

// Whether the first tree is within the limits; if so, the walk has passed it.
#[cycle(flat_limits)]
fn is_first_within(cells: u16, trees: &mut Trees<'_>, room: u32) -> bool
    requires { trees.old ≢ none }
    ensures within { MatchBool result (IsTreeWithin cells room (first trees.old))
        (IsTreeWithin cells room (first trees.old) → ⊥) }
    ensures past { IsTrue result → trees.new ≡ past 1 trees.old }
{
    if room == 0 {
        return false;
    }
    match trees.next() {
        Head::Cell { cell, children } => {
            cell < cells && are_first_within(cells, trees, room - 1, children)
        }
        Head::Tile { tile, children } => {
            tile < cells && are_first_within(cells, trees, room - 1, children)
        }
        Head::DeadCell(cell) => cell < cells,
        Head::DeadTile(tile) => tile < cells,
        Head::Found(number) => number <= LAST_ARRANGEMENT,
        Head::Same(lemma) => lemma <= LAST_LEMMA,
        Head::Image { symmetry, lemma } => lemma <= LAST_LEMMA && symmetry <= LAST_SYMMETRY,
    }
}

// Whether the first `children` trees are within the limits as the children of a branch; if so, the walk has passed
// them.
#[cycle(flat_limits)]
fn are_first_within(cells: u16, trees: &mut Trees<'_>, room: u32, children: u32) -> bool
    requires { children ≤ count trees.old }
    ensures within { MatchBool result (AreChildrenWithin cells room (front children trees.old))
        (AreChildrenWithin cells room (front children trees.old) → ⊥) }
    ensures past { IsTrue result → trees.new ≡ past children trees.old }
{
    if children == 0 {
        return false;
    }
    let most = TURNS as u32 * u32::from(cells);
    if children > most {
        return false;
    }
    for _ in 0..children {
        if !is_first_within(cells, trees, room) {
            return false;
        }
    }
    true
}

impl Lemma {
    ghost use Rattle.std.specs.Prelude.{MatchBool};
    ghost use Rattle.cert_tree.specs.Certificate.{piece_of};
    ghost use Rattle.cert_tree.specs.Limits.{IsLemmaWithin};

    /// Whether the lemma is within the limits of boards with at most `cells` cells:
    ///
    /// - numbers of lemmas and of listed arrangements are below 1,000,000, numbers of symmetries below 1,024
    /// - cells and tiles are below `cells`, turns below 4
    /// - the prefix has at most `cells` pairs
    /// - a branch has from 1 to 4 times `cells` children
    /// - the tree has at most `cells` + 1 levels
    ///
    /// It looks no deeper into the tree than that, and takes no memory.
    pub fn is_within(&self, cells: u16) -> bool
        ensures { MatchBool result (IsLemmaWithin cells (piece_of self.now))
            (IsLemmaWithin cells (piece_of self.now) → ⊥) }
    {
        let pairs = self.prefix.as_slice();
        self.number <= LAST_LEMMA
            && (pairs.len() <= usize::from(cells)
                && (are_pairs_within(cells, pairs)
                    && is_node_within(cells, &self.tree, u32::from(cells) + 1)))
    }
}

impl<'a> FlatLemma<'a> {
    ghost use Rattle.std.specs.Prelude.{MatchBool};
    ghost use Rattle.cert_tree.specs.Certificate.{flat_piece};
    ghost use Rattle.cert_tree.specs.Limits.{IsLemmaWithin};

    /// Whether the lemma is within the limits of boards with at most `cells` cells: the limits that
    /// [`Lemma::is_within`](crate::Lemma) lists. It looks no deeper into the tree than they allow, and takes no memory.
    pub fn is_within(&self, cells: u16) -> bool
        ensures { MatchBool result (IsLemmaWithin cells (flat_piece self.now))
            (IsLemmaWithin cells (flat_piece self.now) → ⊥) }
    {
        self.number <= LAST_LEMMA
            && (self.prefix.len() <= usize::from(cells)
                && (are_pairs_within(cells, self.prefix)
                    && is_first_within(cells, &mut self.tree.trees(), u32::from(cells) + 1)))
    }
}

impl PackedLemma {
    ghost use Rattle.std.specs.Prelude.{MatchBool};
    ghost use Rattle.match_limits.specs.declared.TheConstants.{MOST_CELLS, MOST_LEVELS};
    ghost use Rattle.cert_tree.specs.Limits.{IsTreeWithin, IsLemmaWithin};

    /// Whether the lemma is within the limits of boards with at most 256 cells, where its tree is known to be. Only the
    /// number and the prefix are looked at.
    pub fn prefix_within_limits(&self) -> bool
        requires { IsTreeWithin MOST_CELLS MOST_LEVELS self.now.tree }
        ensures { MatchBool result (IsLemmaWithin MOST_CELLS self.now) (IsLemmaWithin MOST_CELLS self.now → ⊥) }
    {
        let lemma = self.lend();
        lemma.number <= LAST_LEMMA
            && (lemma.prefix.len() <= usize::from(MOST_CELLS)
                && are_pairs_within(MOST_CELLS, lemma.prefix))
    }
}
