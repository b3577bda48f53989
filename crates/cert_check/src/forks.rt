//! Walks of trees on several threads: in the first levels, the two halves of a branch's children are walked at the same
//! time.

ghost use Rattle.std.specs.Prelude.{◌≡◌, ◌≢◌, ◌<◌, ◌≤◌, ◌^◌, ◌∷◌, [], List, Option, IfOk, IfSome, None, Ok, Some};
ghost use Rattle.std.specs.Prelude.{length, map};
ghost use Rattle.std.specs.Option.{option_or};
ghost use Rattle.std.specs.Fn.{FnReturnsAt};
ghost use Rattle.std.specs.Thread.{IsSync};
ghost use Rattle.match_limits.specs.First.{IsFirst};
ghost use Rattle.match_puzzle.specs.Fitting.{Fits, IsItem};
ghost use Rattle.match_puzzle.specs.Prefix.{with_pair};
ghost use Rattle.match_puzzle.specs.PrefixFaults.{IsPairList};
ghost use Rattle.match_puzzle.specs.declared.placements.Pair.{Pair};
ghost use Rattle.cert_tree.specs.Certificate.{flat_piece};
ghost use Rattle.cert_tree.specs.Tree.{branch, count, none};
ghost use Rattle.cert_tree.specs.Heads.{first, front, past};
ghost use Rattle.cert_check.specs.Derivation.{start_of};
ghost use Rattle.puzzle_symmetry.specs.Motion.{motion_of};
ghost use Rattle.cert_check.specs.Setting.{question_of, BeginWithPrefixes};
ghost use Rattle.cert_check.specs.NodeRules.{IsBranch};
ghost use Rattle.cert_check.specs.TreeFaults.{BranchFails, node_rank};
ghost use Rattle.cert_check.specs.declared.faults.NodeFault.{NodeFault};
ghost use Rattle.cert_check.specs.declared.faults.TreeFault.{TreeFault};
ghost use Rattle.cert_check.specs.Walk.{Tells, TellsOfLemma, IsAtTop, IsPart, TellsOfPart, below};

use crate::faults::TreeFault;
use crate::gates::{Gate, Open};
use crate::node_faults::branch_fault;
use crate::scenes::{branched_on, pairs_from};
use crate::settings::Setting;
use crate::walks::walk;
use cert_tree::{Certificate, FlatLemma, Trees};
use match_limits::{MOST_FORKS, NumberSet};
use match_puzzle::{Arrangement, FittingPairs, Item, Pair, Partial, Puzzle};
use puzzle_symmetry::Symmetry;
use std::alloc::{AllocError, Global};
use std::thread::Threads;
use steal_crew::both;

/// Returns what [`tree_fault`](crate::tree_fault) returns, whatever the number of forks, by a walk on several threads.
///
/// In the first `forks` levels, at most 6, a branch's children are cut into two halves, which are walked at the same
/// time, each on a copy of what is placed. A fault of the left half comes before one of the right. A half is walked on
/// the caller's thread where no other thread can be started. An `Err` comes where memory is refused in either half.
pub fn forked_tree_fault<R: Threads + Sync>(
    rt: &R,
    alloc: Global,
    puzzle: &Puzzle,
    listed: &[Arrangement],
    symmetries: &[Symmetry<'_>],
    certificate: &Certificate,
    lemma: u32,
    forks: u8,
) -> Result<Option<TreeFault>, AllocError>
    requires symmetries { symmetries.now ≡ map (motion_of puzzle.now) certificate.now.symmetries }
    requires prefixes { BeginWithPrefixes puzzle.now certificate.now.lemmas }
    requires lemma { lemma < length certificate.now.lemmas }
    requires forks { forks ≤ MOST_FORKS }
    ensures { IfOk result (TellsOfLemma (question_of puzzle.now listed.now certificate.now) lemma) }
{
    let setting = Setting::new(puzzle, listed, symmetries, certificate, lemma);
    let forker = Forker {
        rt,
        gate: &Open,
        lemma,
    };
    let lemma = certificate.lemmas().at(lemma as usize);
    forker.lemma_fault(alloc, &setting, &lemma, forks)
}

// How a lemma's tree is walked: by which threads, and who is told of the halves.
#[derive(Drop)]
pub(crate) struct Forker<'a, R: Threads + Sync, G: Gate + Sync> {
    pub rt: &'a R,
    pub gate: &'a G,
    pub lemma: u32,
}

impl<'a, R: Threads + Sync, G: Gate + Sync> Forker<'a, R, G> {
    // The first fault of the lemma's tree; `None` where it holds. In the first `forks` levels halves are walked at
    // once.
    pub(crate) fn lemma_fault(
        &self,
        alloc: Global,
        setting: &Setting<'_>,
        lemma: &FlatLemma<'_>,
        forks: u8,
    ) -> Result<Option<TreeFault>, AllocError>
        requires { IsPairList setting.now.puzzle lemma.now.prefix.now }
        ensures { IfOk result
            (Tells setting.now lemma.now.tree (start_of setting.now.puzzle (flat_piece lemma.now))) }
    {
        let mut partial = Partial::of(alloc, setting.puzzle(), lemma.prefix)?;
        let trees = lemma.tree.trees();
        forked_walk(self, alloc, setting, forks, &trees, &mut partial)
    }
}

// The first fault, in preorder, of the first tree with these pairs placed; `None` where it holds, and then the same
// pairs are placed again. In the first `forks` levels halves are walked at once.
#[cycle(forking)]
fn forked_walk<R: Threads + Sync, G: Gate + Sync>(
    forker: &Forker<'_, R, G>,
    alloc: Global,
    setting: &Setting<'_>,
    forks: u8,
    trees: &Trees<'_>,
    partial: &mut Partial<'_>,
) -> Result<Option<TreeFault>, AllocError>
    requires made { partial.old.puzzle ≡ setting.now.puzzle }
    requires some { trees.now ≢ none }
    ensures tells { IfOk result (Tells setting.now (first trees.now) partial.old.placed) }
    ensures restored { IfOk result (λ fault. fault ≡ None → partial.new ≡ partial.old) }
{
    let Some(branch) = branch_to_fork(forks, trees) else {
        return plain_walk(alloc, setting, trees, partial);
    };
    forked_branch(forker, alloc, setting, forks - 1, &branch, partial)
}

// The first fault of the first tree, found on one thread.
fn plain_walk(
    alloc: Global,
    setting: &Setting<'_>,
    trees: &Trees<'_>,
    partial: &mut Partial<'_>,
) -> Result<Option<TreeFault>, AllocError>
    requires made { partial.old.puzzle ≡ setting.now.puzzle }
    requires some { trees.now ≢ none }
    ensures tells { IfOk result (Tells setting.now (first trees.now) partial.old.placed) }
    ensures restored { IfOk result (λ fault. fault ≡ None → partial.new ≡ partial.old) }
{
    let mut rest = trees.copy();
    let mut fault = None;
    walk(alloc, setting, &mut rest, partial, &mut fault)?;
    Ok(fault)
}

// The first fault of a branch.
#[cycle(forking)]
fn forked_branch<R: Threads + Sync, G: Gate + Sync>(
    forker: &Forker<'_, R, G>,
    alloc: Global,
    setting: &Setting<'_>,
    forks: u8,
    at: &Branch<'_>,
    partial: &Partial<'_>,
) -> Result<Option<TreeFault>, AllocError>
    requires made { partial.now.puzzle ≡ setting.now.puzzle }
    requires counted { at.now.children ≤ count at.now.trees }
    ensures { IfOk result
        (Tells setting.now (branch at.now.item (front at.now.children at.now.trees)) partial.now.placed) }
{
    if let Some(fault) = own_fault(alloc, at, partial) {
        return Ok(Some(fault));
    }
    let all = Part {
        setting: &*setting,
        item: at.item,
        start: 0,
        end: at.children,
        trees: &at.trees,
        partial: &*partial,
    };
    walk_halves(forker, alloc, forks, &all)
}

// A branch without its head: its children are the first `children` trees.
#[derive(Drop)]
struct Branch<'a> {
    item: Item,
    children: u32,
    trees: Trees<'a>,
}

// The first tree, where it is a branch and forks are left for it.
fn branch_to_fork<'a>(forks: u8, trees: &Trees<'a>) -> Option<Branch<'a>>
    requires { trees.now ≢ none }
    ensures forks { IfSome result (λ found. 0 < forks) }
    ensures tree { IfSome result
        (λ found. first trees.now ≡ branch found.item (front found.children found.trees)) }
    ensures counted { IfSome result (λ found. found.children ≤ count found.trees) }
{
    if forks == 0 {
        return None;
    }
    let mut rest = trees.copy();
    let head = rest.next();
    let item = branched_on(head)?;
    Some(Branch {
        item,
        children: head.children(),
        trees: rest,
    })
}

// What is wrong with a branch itself, apart from its children, as a fault of its tree.
fn own_fault(alloc: Global, at: &Branch<'_>, partial: &Partial<'_>) -> Option<TreeFault>
    ensures fault { IfSome result (λ fault. (of_node : NodeFault) × IsAtTop (Some of_node) (Some fault)
        × IsFirst node_rank (BranchFails partial.now.puzzle partial.now.placed at.now.item at.now.children) of_node) }
    ensures right { result ≡ None → (pairs : List Pair)
        × IsBranch partial.now.puzzle partial.now.placed at.now.item at.now.children pairs }
    ensures few { result ≡ None → at.now.children < 2 ^ 16 }
    ensures item { result ≡ None → IsItem partial.now.puzzle at.now.item }
{
    let mut numbers = NumberSet::new();
    let of_node = branch_fault(at.item, at.children, partial, &mut numbers)?;
    Some(TreeFault::at_top(alloc, of_node))
}

// Some children of a branch, from one number up to another, and what they are walked on.
#[derive(Clone, Copy)]
struct Part<'a> {
    setting: &'a Setting<'a>,
    item: Item,
    start: u32,
    end: u32,
    // all children of the branch come first
    trees: &'a Trees<'a>,
    partial: &'a Partial<'a>,
}

impl<'a> Part<'a> {
    ghost use Rattle.std.specs.Prelude.{◌<◌, Option};
    ghost use Rattle.std.specs.Option.{option_or};
    ghost use Rattle.cert_check.specs.declared.faults.TreeFault.{TreeFault};
    ghost use Rattle.cert_check.specs.Walk.{IsPart, TellsOfPart};

    // The left half and the right half. The left half's fault, or else the right half's, is that of the part.
    fn halves(&self) -> (Part<'a>, Part<'a>)
        requires { IsPart self.now }
        ensures left { IsPart result.0 }
        ensures right { IsPart result.1 }
        ensures both { (left right : Option TreeFault) → TellsOfPart result.0 left → TellsOfPart result.1 right
            → TellsOfPart self.now (option_or left right) }
    {
        let middle = self.start + (self.end - self.start) / 2;
        let left = Part {
            end: middle,
            ..*self
        };
        let right = Part {
            start: middle,
            ..*self
        };
        (left, right)
    }
}

// The first fault of some children. Where there are several, their halves are walked at once.
#[cycle(forking)]
fn walk_halves<R: Threads + Sync, G: Gate + Sync>(
    forker: &Forker<'_, R, G>,
    alloc: Global,
    forks: u8,
    part: &Part<'_>,
) -> Result<Option<TreeFault>, AllocError>
    requires { IsPart part.now }
    ensures { IfOk result (TellsOfPart part.now) }
{
    if part.end - part.start == 1 {
        return walk_part(forker, alloc, forks, part);
    }
    let (left, right) = part.halves();
    at_once(
        forker.rt,
        &left,
        &right,
        &|half: &Part<'_>| -> Result<Option<TreeFault>, AllocError>
            requires { IsSync R.row × IsSync G.row × IsPart half.now }
            ensures { IfOk result (TellsOfPart half.now) }
        {
            forker.gate.enter_half(forker.lemma, half.start);
            walk_part(forker, alloc, forks, half)
        },
    )
}

// Walks both at once, and returns the first fault.
fn at_once<P: Sync, F: Fn(&P) -> Result<Option<TreeFault>, AllocError> + Sync, R: Threads + Sync>(
    rt: &R,
    left: &P,
    right: &P,
    walk: &F,
) -> Result<Option<TreeFault>, AllocError>
    requires left { F.pre walk.now left }
    requires right { F.pre walk.now right }
    ensures { IfOk result (λ found. (x : Option TreeFault) × (y : Option TreeFault) × (found ≡ option_or x y)
        × FnReturnsAt F.Fn walk.now left.now (Ok x) × FnReturnsAt F.Fn walk.now right.now (Ok y)) }
{
    let (left, right) = both(
        rt,
        || -> Result<Option<TreeFault>, AllocError>
            requires { F.pre walk.now left }
            ensures { FnReturnsAt F.Fn walk.entry.now left.entry.now result }
        { walk(left) },
        || -> Result<Option<TreeFault>, AllocError>
            requires { F.pre walk.now right }
            ensures { FnReturnsAt F.Fn walk.entry.now right.entry.now result }
        { walk(right) },
    )?;
    Ok(earlier(left, right))
}

// The left fault, or else the right one.
fn earlier(left: Option<TreeFault>, right: Option<TreeFault>) -> Option<TreeFault>
    ensures { result ≡ option_or left right }
{
    left.or(right)
}

// The first fault of some children, walked on a copy of what is placed.
#[cycle(forking)]
fn walk_part<R: Threads + Sync, G: Gate + Sync>(
    forker: &Forker<'_, R, G>,
    alloc: Global,
    forks: u8,
    part: &Part<'_>,
) -> Result<Option<TreeFault>, AllocError>
    requires { IsPart part.now }
    ensures { IfOk result (TellsOfPart part.now) }
{
    let mut own = part.partial.copy(alloc)?;
    walk_children(forker, alloc, forks, part, &mut own)
}

// The first fault of some children, walked one after the other, on this copy.
#[cycle(forking)]
fn walk_children<R: Threads + Sync, G: Gate + Sync>(
    forker: &Forker<'_, R, G>,
    alloc: Global,
    forks: u8,
    part: &Part<'_>,
    own: &mut Partial<'_>,
) -> Result<Option<TreeFault>, AllocError>
    requires part { IsPart part.now }
    requires own { own.old ≡ part.now.partial.now }
    ensures { IfOk result (TellsOfPart part.now) }
{
    let mut pairs = pairs_from(part.item, part.start, part.partial);
    let mut rest = trees_from(part.start, part.trees);
    for number in part.start..part.end {
        let pair = place_first(&mut pairs, own);
        let fault = forked_walk(forker, alloc, part.setting, forks, &rest, own)?;
        if let Some(fault) = fault {
            return of_parent(fault, number as u16);
        }
        own.lift(pair.cell);
        rest.skip();
    }
    Ok(None)
}

// Places the first of the pairs, and takes it from them.
fn place_first(pairs: &mut FittingPairs, partial: &mut Partial<'_>) -> Pair
    requires some { pairs.old ≢ [] }
    requires fits { (pair : Pair) (rest : List Pair) → pairs.old ≡ pair ∷ rest
        → Fits partial.old.puzzle partial.old.placed pair.cell pair.placement }
    ensures taken { pairs.old ≡ result ∷ pairs.new }
    ensures placed { partial.new ≡ record {
      puzzle = partial.old.puzzle;
      placed = with_pair partial.old.placed result.cell result.placement;
    } }
{
    let Some(pair) = pairs.take_first() else {
        unreachable!();
    };
    partial.place(pair.cell, pair.placement);
    pair
}

// A fault of the child with this number, as a fault of its parent.
fn of_parent(of_child: TreeFault, number: u16) -> Result<Option<TreeFault>, AllocError>
    ensures { IfOk result (λ found. found ≡ Some (below number of_child)) }
{
    Ok(Some(of_child.below(number)?))
}

// The trees from this number on.
fn trees_from<'a>(number: u32, trees: &Trees<'a>) -> Trees<'a>
    requires { number ≤ count trees.now }
    ensures { result ≡ past number trees.now }
{
    let mut rest = trees.copy();
    for _ in 0..number {
        rest.skip();
    }
    rest
}
