//! Converts lemmas between their two forms: nodes that own their children, and heads (nodes without their children)
//! that lie flat.

ghost use Rattle.std.specs.Prelude.{◌≡◌, ◌≢◌, ◌<◌, ◌≤◌, ◌^◌, ◌++◌, ◌∷◌, [], All, IfOk, OnOk, length, map, drop};
ghost use Rattle.cert_tree.specs.Tree.{count, none, tree_of, forest_of, IsNarrow, AreNarrow};
ghost use Rattle.cert_tree.specs.Certificate.{piece_of, flat_piece};
ghost use Rattle.cert_tree.specs.Spans.{piece_in, IsSpan};
ghost use Rattle.cert_tree.specs.Heads.{branch_head, first, front, heads_in, heads_of, past};

use crate::certificates::{Lemma, Pairs};
use crate::flat_lemmas::{FlatLemma, LemmaSpan, Lemmas};
use crate::flat_trees::Trees;
use crate::heads::Head;
use crate::nodes::{Children, Node};
use match_puzzle::{Item, Pair};
use std::alloc::{AllocError, Global};
use std::slice::from_ref;

// Returns the head of a branch, and its children.
fn branch_and_children(item: Item, children: &Children) -> (Head, &[Node])
    requires { length children.now.nodes.items < 2 ^ 32 }
    ensures head { result.0 ≡ branch_head item (length children.now.nodes.items) }
    ensures children { result.1.now ≡ children.now.nodes.items }
{
    let nodes = children.as_slice();
    (Head::branch(item, nodes.len() as u32), nodes)
}

// Returns the head of a node, and its children.
#[tactic(auto, using(crate::proofs::TreeLemmas::tree_laws))]
fn head_and_children(node: &Node) -> (Head, &[Node])
    requires { IsNarrow (tree_of node.now) }
    ensures heads { heads_of (tree_of node.now) ≡ result.0 ∷ heads_in (forest_of result.1.now) }
    ensures narrow { AreNarrow (forest_of result.1.now) }
{
    match node {
        Node::Cell { cell, children } => branch_and_children(Item::Cell(*cell), children),
        Node::Tile { tile, children } => branch_and_children(Item::Tile(*tile), children),
        Node::DeadCell(cell) => (Head::DeadCell(*cell), &[]),
        Node::DeadTile(tile) => (Head::DeadTile(*tile), &[]),
        Node::Found(number) => (Head::Found(*number), &[]),
        Node::Same(lemma) => (Head::Same(*lemma), &[]),
        Node::Image { lemma, symmetry } => {
            let head = Head::Image {
                symmetry: *symmetry,
                lemma: *lemma,
            };
            (head, &[])
        }
    }
}

// Appends the heads of the node's tree, in preorder: by a loop, since a caller's tree may be of any depth.
pub(crate) fn put_node(heads: &mut Vec<Head>, node: &Node) -> Result<(), AllocError>
    requires { IsNarrow (tree_of node.now) }
    ensures { OnOk result (heads.new.items ≡ heads.old.items ++ heads_of (tree_of node.now)) }
{
    // the nodes whose heads are still to come, those of the deepest level last
    let mut left = Vec::new(*heads.allocator());
    left.push(from_ref(node))?;
    while let Some(nodes) = left.pop() {
        let Some((node, others)) = nodes.split_first() else {
            continue;
        };
        let (head, children) = head_and_children(node);
        heads.push(head)?;
        left.push(others)?;
        left.push(children)?;
    }
    Ok(())
}

// Appends the lemma's pairs and heads, and returns where the lemma lies among them.
fn put_flat(
    pairs: &mut Vec<Pair>,
    heads: &mut Vec<Head>,
    lemma: &Lemma,
) -> Result<LemmaSpan, AllocError>
    requires { IsNarrow (tree_of lemma.now.tree) }
    ensures span { IfOk result (IsSpan pairs.new.items heads.new.items) }
    ensures lemma { IfOk result (λ span. piece_in pairs.new.items heads.new.items span ≡ piece_of lemma.now) }
    ensures pairs { OnOk result (pairs.new.items ≡ pairs.old.items ++ drop (length pairs.old.items) pairs.new.items) }
    ensures heads { OnOk result (heads.new.items ≡ heads.old.items ++ drop (length heads.old.items) heads.new.items) }
{
    let pairs_start = pairs.len();
    let heads_start = heads.len();
    pairs.extend_from_slice(lemma.prefix.as_slice())?;
    put_node(heads, &lemma.tree)?;
    Ok(LemmaSpan::of_last(lemma.number, pairs, pairs_start, heads, heads_start))
}

/// Lays out equal lemmas flat, in order.
pub(crate) fn flat_lemmas(alloc: Global, lemmas: &[Lemma]) -> Result<Lemmas, AllocError>
    requires { All (λ lemma. IsNarrow (tree_of lemma.tree)) lemmas.now }
    ensures { IfOk result (λ flat. flat ≡ map piece_of lemmas.now) }
{
    let mut pairs = Vec::new(alloc);
    let mut heads = Vec::new(alloc);
    let mut spans = Vec::with_capacity(alloc, lemmas.len())?;
    for lemma in lemmas {
        let span = put_flat(&mut pairs, &mut heads, lemma)?;
        spans.push(span)?;
    }
    Lemmas::of(pairs, heads, spans)
}

// Builds the first tree as a node, and moves the walk past it.
#[cycle(building)]
#[tactic(auto, using(crate::proofs::TreeLemmas::tree_laws))]
pub(crate) fn first_node(alloc: Global, trees: &mut Trees<'_>) -> Result<Node, AllocError>
    requires { trees.old ≢ none }
    ensures node { IfOk result (λ node. tree_of node ≡ first trees.old) }
    ensures past { OnOk result (trees.new ≡ past 1 trees.old) }
{
    match trees.next() {
        Head::Cell { cell, children } => {
            let children = first_children(alloc, trees, children)?;
            Ok(Node::Cell { cell, children })
        }
        Head::Tile { tile, children } => {
            let children = first_children(alloc, trees, children)?;
            Ok(Node::Tile { tile, children })
        }
        Head::DeadCell(cell) => Ok(Node::DeadCell(cell)),
        Head::DeadTile(tile) => Ok(Node::DeadTile(tile)),
        Head::Found(number) => Ok(Node::Found(number)),
        Head::Same(lemma) => Ok(Node::Same(lemma)),
        Head::Image { symmetry, lemma } => Ok(Node::Image { lemma, symmetry }),
    }
}

// Builds the first `children` trees as the children of a branch, and moves the walk past them.
#[cycle(building)]
fn first_children(
    alloc: Global,
    trees: &mut Trees<'_>,
    children: u32,
) -> Result<Children, AllocError>
    requires { children ≤ count trees.old }
    ensures nodes { IfOk result (λ built. forest_of built.nodes.items ≡ front children trees.old) }
    ensures past { OnOk result (trees.new ≡ past children trees.old) }
{
    let mut nodes = Vec::with_capacity(alloc, children as usize)?;
    for _ in 0..children {
        let node = first_node(alloc, trees)?;
        nodes.push(node)?;
    }
    Ok(Children::new(nodes))
}

impl<'a> FlatLemma<'a> {
    ghost use Rattle.std.specs.Prelude.{◌≡◌, IfOk};
    ghost use Rattle.cert_tree.specs.Certificate.{piece_of, flat_piece};
    ghost use Rattle.cert_tree.specs.Limits.{HasLevels};
    ghost use Rattle.match_limits.specs.declared.TheConstants.{MOST_LEVELS};

    /// Makes an equal lemma of nodes that own their children. A recursion as deep as the tree makes it, so the tree
    /// must have no more levels than the text of a lemma may have.
    pub fn to_lemma(&self, alloc: Global) -> Result<Lemma, AllocError>
        requires { HasLevels MOST_LEVELS (flat_piece self.now).tree }
        ensures { IfOk result (λ lemma. piece_of lemma ≡ flat_piece self.now) }
    {
        let prefix = Pairs::new(Vec::from_slice(alloc, self.prefix)?);
        let tree = first_node(alloc, &mut self.tree.trees())?;
        Ok(Lemma {
            number: self.number,
            prefix,
            tree,
        })
    }
}
