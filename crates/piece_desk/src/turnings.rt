//! Renumbers lemmas with several threads.

ghost use Rattle.std.specs.Prelude.{◌≤◌, IfOk, Ok, length};
ghost use Rattle.std.specs.Fn.{FnReturnsAt};
ghost use Rattle.std.specs.Thread.{IsSync};
ghost use Rattle.piece_desk.specs.Turnings.{AreTurned, CanBeTurned};

use crate::turned_assemblies::turned_lemmas;
use cert_tree::{FlatLemma, Lemmas};
use std::alloc::{AllocError, Global};
use std::thread::Threads;
use steal_crew::both;

// One thread renumbers lemmas with fewer nodes: it is done before others would have started.
const LEAST_NODES: usize = 1 << 17;

// How many nodes all lemmas have together.
fn nodes_of(lemmas: &[FlatLemma<'_>]) -> usize {
    let mut nodes: usize = 0;
    for lemma in lemmas {
        nodes = nodes.saturating_add(lemma.tree.nodes());
    }
    nodes
}

// How many of the first lemmas have about half of the nodes.
fn middle(lemmas: &[FlatLemma<'_>]) -> usize
    ensures { result ≤ length lemmas.now }
{
    let half = nodes_of(lemmas) / 2;
    let mut before: usize = 0;
    for place in 0..lemmas.len() {
        let nodes = lemmas[place].tree.nodes();
        if before.saturating_add(nodes / 2) >= half {
            return place;
        }
        before = before.saturating_add(nodes);
    }
    lemmas.len()
}

// Some lemmas, one after the other.
#[derive(Clone, Copy)]
struct Half<'a, 'p> {
    lemmas: &'a [FlatLemma<'p>],
}

// Calls `turn` for both at the same time, and returns both results.
fn at_once<P: Sync, F: Fn(&P) -> Result<Lemmas, AllocError> + Sync, R: Threads>(
    rt: &R,
    left: &P,
    right: &P,
    turn: &F,
) -> Result<(Lemmas, Lemmas), AllocError>
    requires left { F.pre turn.now left }
    requires right { F.pre turn.now right }
    ensures left { IfOk result (λ r. FnReturnsAt F.Fn turn.now left.now (Ok r.0)) }
    ensures right { IfOk result (λ r. FnReturnsAt F.Fn turn.now right.now (Ok r.1)) }
{
    both(
        rt,
        || -> Result<Lemmas, AllocError>
            requires { F.pre turn.now left }
            ensures { FnReturnsAt F.Fn turn.entry.now left.entry.now result }
        { turn(left) },
        || -> Result<Lemmas, AllocError>
            requires { F.pre turn.now right }
            ensures { FnReturnsAt F.Fn turn.entry.now right.entry.now result }
        { turn(right) },
    )
}

// What `turned_lemmas` returns, by two threads.
fn turned_by_two<R: Threads>(
    rt: &R,
    alloc: Global,
    count: u32,
    first: &[u32],
    lemmas: &[FlatLemma<'_>],
) -> Result<Lemmas, AllocError>
    requires { CanBeTurned first.now lemmas.now }
    ensures { IfOk result (AreTurned count first.now lemmas.now) }
{
    let (front, back) = lemmas.split_at(middle(lemmas));
    let (front, back) = at_once(
        rt,
        &Half { lemmas: front },
        &Half { lemmas: back },
        &|half: &Half<'_, '_>| -> Result<Lemmas, AllocError>
            requires { CanBeTurned first.now half.now.lemmas.now }
            ensures { IfOk result (AreTurned count first.entry.now half.now.lemmas.now) }
        { turned_lemmas(alloc, count, first, half.lemmas) },
    )?;
    back.with(front)
}

// What `turned_lemmas` returns, by four threads.
fn turned_by_four<R: Threads + Sync>(
    rt: &R,
    alloc: Global,
    count: u32,
    first: &[u32],
    lemmas: &[FlatLemma<'_>],
) -> Result<Lemmas, AllocError>
    requires { CanBeTurned first.now lemmas.now }
    ensures { IfOk result (AreTurned count first.now lemmas.now) }
{
    let (front, back) = lemmas.split_at(middle(lemmas));
    let (front, back) = at_once(
        rt,
        &Half { lemmas: front },
        &Half { lemmas: back },
        &|half: &Half<'_, '_>| -> Result<Lemmas, AllocError>
            requires { IsSync R.row × CanBeTurned first.now half.now.lemmas.now }
            ensures { IfOk result (AreTurned count first.entry.now half.now.lemmas.now) }
        { turned_by_two(rt, alloc, count, first, half.lemmas) },
    )?;
    back.with(front)
}

// The renumbered lemmas, the last first, by one, two or four threads: no more than there are workers, and by one where
// there are few nodes.
pub(crate) fn turned_by<R: Threads + Sync>(
    rt: &R,
    alloc: Global,
    count: u32,
    first: &[u32],
    lemmas: &[FlatLemma<'_>],
    workers: u8,
) -> Result<Lemmas, AllocError>
    requires { CanBeTurned first.now lemmas.now }
    ensures { IfOk result (AreTurned count first.now lemmas.now) }
{
    if workers <= 1 || nodes_of(lemmas) < LEAST_NODES {
        return turned_lemmas(alloc, count, first, lemmas);
    }
    if workers < 4 {
        return turned_by_two(rt, alloc, count, first, lemmas);
    }
    turned_by_four(rt, alloc, count, first, lemmas)
}
