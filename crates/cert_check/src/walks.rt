//! Walks trees by their heads (nodes without their children).

ghost use Rattle.std.specs.Prelude.{◌≡◌, ◌≢◌, ◌<◌, ◌≤◌, ℕ, List, [], ◌∷◌, Option, IfOk, MatchBool, None};
ghost use Rattle.std.specs.Option.{option_map};
ghost use Rattle.match_puzzle.specs.Fitting.{Fits};
ghost use Rattle.match_puzzle.specs.Prefix.{empty_prefix, with_pair};
ghost use Rattle.match_puzzle.specs.declared.items.Item.{Item};
ghost use Rattle.match_puzzle.specs.declared.placements.Pair.{Pair};
ghost use Rattle.match_puzzle.specs.PrefixFaults.{IsPairList};
ghost use Rattle.cert_tree.specs.Certificate.{flat_piece};
ghost use Rattle.cert_tree.specs.Tree.{Forest, branch, count, none};
ghost use Rattle.cert_tree.specs.Heads.{branch_head, first, front, past, put};
ghost use Rattle.cert_check.specs.Derivation.{start_of};
ghost use Rattle.cert_check.specs.declared.faults.TreeFault.{TreeFault};
ghost use Rattle.cert_check.specs.Walk.{Tells, IsAtTop, below};

use crate::faults::{NodeFault, TreeFault};
use crate::node_faults::{branch_fault, dead_fault, found_fault, image_fault, same_fault};
use crate::pairs_left::PairsLeft;
use crate::settings::Setting;
use cert_tree::{FlatLemma, Head, Trees};
use match_limits::NumberSet;
use match_puzzle::{Item, Pair, Partial};
use std::alloc::{AllocError, Global};

// Whether the first tree holds with these pairs placed. If so, the same pairs are placed afterwards, and the walk has
// passed the tree; if not, `fault` is its first fault in preorder. Most trees hold, so a fault has a place of its own
// and is not handed from node to node. Each branch fills a cell for its children, so the walk goes no deeper than one
// level for each cell and one more. It is inlined into the walk of a branch, which then calls itself alone.
#[cycle(walk)]
#[inline(always)]
pub(crate) fn walk(
    alloc: Global,
    setting: &Setting<'_>,
    trees: &mut Trees<'_>,
    partial: &mut Partial<'_>,
    fault: &mut Option<TreeFault>,
) -> Result<bool, AllocError>
    requires made { partial.old.puzzle ≡ setting.now.puzzle }
    requires some { trees.old ≢ none }
    requires no_fault { fault.old ≡ None }
    ensures holds { IfOk result (λ holds. MatchBool holds (fault.new ≡ None) (fault.new ≢ None)) }
    ensures tells { IfOk result (λ holds. Tells setting.now (first trees.old) partial.old.placed fault.new) }
    ensures restored { IfOk result (λ holds. fault.new ≡ None → partial.new ≡ partial.old) }
    ensures past { IfOk result (λ holds. fault.new ≡ None → trees.new ≡ past 1 trees.old) }
{
    match trees.next() {
        Head::Cell { cell, children } => {
            let item = Item::Cell(cell);
            walk_branch(alloc, setting, item, children, trees, partial, fault)
        }
        Head::Tile { tile, children } => {
            let item = Item::Tile(tile);
            walk_branch(alloc, setting, item, children, trees, partial, fault)
        }
        leaf => Ok(at_top(alloc, leaf_fault(setting, leaf, partial), fault)),
    }
}

// Whether a branch holds whose children are the first `children` trees; what is placed, the walk and the fault are then
// as after `walk`.
#[cycle(walk)]
fn walk_branch(
    alloc: Global,
    setting: &Setting<'_>,
    item: Item,
    children: u32,
    trees: &mut Trees<'_>,
    partial: &mut Partial<'_>,
    fault: &mut Option<TreeFault>,
) -> Result<bool, AllocError>
    requires made { partial.old.puzzle ≡ setting.now.puzzle }
    requires counted { children ≤ count trees.old }
    requires no_fault { fault.old ≡ None }
    ensures holds { IfOk result (λ holds. MatchBool holds (fault.new ≡ None) (fault.new ≢ None)) }
    ensures tells { IfOk result
        (λ holds. Tells setting.now (branch item (front children trees.old)) partial.old.placed fault.new) }
    ensures restored { IfOk result (λ holds. fault.new ≡ None → partial.new ≡ partial.old) }
    ensures past { IfOk result (λ holds. fault.new ≡ None → trees.new ≡ past children trees.old) }
{
    let mut numbers = NumberSet::new();
    if let Some(of_node) = branch_fault(item, children, partial, &mut numbers) {
        return Ok(at_top(alloc, Some(of_node), fault));
    }
    let mut pairs = PairsLeft::of(item, &numbers);
    for number in 0..children {
        let pair = place_first(&mut pairs, partial);
        if !walk(alloc, setting, trees, partial, fault)? {
            put_below(number as u16, fault)?;
            return Ok(false);
        }
        partial.lift(pair.cell);
    }
    Ok(true)
}

// What is wrong with a node that has no children. A walk calls this at each leaf, so it is inlined there.
#[inline(always)]
fn leaf_fault(setting: &Setting<'_>, leaf: Head, partial: &Partial<'_>) -> Option<NodeFault>
    requires made { partial.now.puzzle ≡ setting.now.puzzle }
    requires leaf { (item : Item) (children : ℕ) → leaf ≢ branch_head item children }
    ensures { (rest : Forest) (said : Option TreeFault) → IsAtTop result said
        → Tells setting.now (first (put leaf rest)) partial.now.placed said }
{
    match leaf {
        Head::DeadCell(cell) => dead_fault(Item::Cell(cell), partial),
        Head::DeadTile(tile) => dead_fault(Item::Tile(tile), partial),
        Head::Found(number) => found_fault(setting, number, partial),
        Head::Same(lemma) => same_fault(setting, lemma, partial),
        Head::Image { symmetry, lemma } => image_fault(setting, lemma, symmetry, partial),
        Head::Cell { .. } | Head::Tile { .. } => unreachable!(),
    }
}

// Places the first of the pairs, and takes it from them. Walks call this at each node, so it is inlined there.
#[inline(always)]
fn place_first(pairs: &mut PairsLeft<'_>, partial: &mut Partial<'_>) -> Pair
    requires some { pairs.old ≢ [] }
    requires fits { (pair : Pair) (rest : List Pair) → pairs.old ≡ pair ∷ rest
        → Fits partial.old.puzzle partial.old.placed pair.cell pair.placement }
    ensures taken { pairs.old ≡ result ∷ pairs.new }
    ensures placed { partial.new ≡ record {
      puzzle = partial.old.puzzle;
      placed = with_pair partial.old.placed result.cell result.placement;
    } }
{
    let Some(pair) = pairs.take_first() else {
        unreachable!();
    };
    partial.place(pair.cell, pair.placement);
    pair
}

// Stores a fault of the first node; returns whether there is none.
fn at_top(alloc: Global, of_node: Option<NodeFault>, fault: &mut Option<TreeFault>) -> bool
    requires { fault.old ≡ None }
    ensures holds { MatchBool result (fault.new ≡ None) (fault.new ≢ None) }
    ensures fault { IsAtTop of_node fault.new }
{
    let Some(of_node) = of_node else {
        return true;
    };
    *fault = Some(TreeFault::at_top(alloc, of_node));
    false
}

// Turns a fault of a child into one of its parent.
fn put_below(number: u16, fault: &mut Option<TreeFault>) -> Result<(), AllocError>
    ensures { IfOk result (λ done. fault.new ≡ option_map (below number) fault.old) }
{
    if let Some(of_child) = fault.take() {
        *fault = Some(of_child.below(number)?);
    }
    Ok(())
}

// The first fault of the lemma's tree, given what it may name; `None` where it holds. Nothing is placed before, nor
// afterwards if it holds.
pub(crate) fn lemma_fault(
    alloc: Global,
    setting: &Setting<'_>,
    lemma: &FlatLemma<'_>,
    partial: &mut Partial<'_>,
) -> Result<Option<TreeFault>, AllocError>
    requires prefix { IsPairList setting.now.puzzle lemma.now.prefix.now }
    requires empty { partial.old ≡ record { puzzle = setting.now.puzzle; placed = empty_prefix setting.now.puzzle } }
    ensures tells { IfOk result
        (Tells setting.now lemma.now.tree (start_of setting.now.puzzle (flat_piece lemma.now))) }
    ensures restored { IfOk result (λ fault. fault ≡ None → partial.new ≡ partial.old) }
{
    let pairs = lemma.prefix;
    partial.place_all(pairs);
    let mut trees = lemma.tree.trees();
    let mut fault = None;
    if walk(alloc, setting, &mut trees, partial, &mut fault)? {
        partial.lift_all(pairs);
    }
    Ok(fault)
}
