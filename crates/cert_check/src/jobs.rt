//! The jobs of a crew that checks a certificate: one for each lemma.

ghost use Rattle.std.specs.Prelude.{◌≡◌, ◌≤◌, ◌<◌, ◌^◌, IfOk, Ok, length};
ghost use Rattle.cert_check.specs.Jobs.{IsJob, IsFinding, IsFirstFound, fault_of};

use crate::faults::{Path, TreeFault};
use crate::gates::Gate;
use crate::prepared::Prepared;
use std::alloc::{AllocError, Global};
use std::thread::Threads;
use steal_crew::Work;

// A tree of fewer nodes is walked by one thread, which is done before others would have started.
const LEAST_FORKED: usize = 10_000;

// Walks the trees of a question's lemmas, each by a call: so what a walk sends to a thread depends on bounds of the
// function that makes the closure.
#[derive(Drop)]
pub(crate) struct Walks<'a, F: Fn(u32) -> Result<Option<Box<TreeFault>>, AllocError> + Sync> {
    pub walk: &'a F,
}

impl<'a, F: Fn(u32) -> Result<Option<Box<TreeFault>>, AllocError> + Sync> Work for Walks<'a, F> {
    type R = Option<Box<TreeFault>>;

    ghost accepts = { λ w n. F.pre w.walk.now n };

    ghost gives = { λ w n r. F.post w.walk.now n (Ok r) };

    fn one(&self, number: u32) -> Result<Option<Box<TreeFault>>, AllocError> {
        (self.walk)(number)
    }
}

// The first fault of the lemma's tree; `None` where it holds. The gate is told before. Most trees hold, and there may
// be a million, so a fault is boxed.
pub(crate) fn walk_tree<R: Threads + Sync, G: Gate + Sync>(
    rt: &R,
    alloc: Global,
    prepared: &Prepared<'_>,
    forks: u8,
    gate: &G,
    number: u32,
) -> Result<Option<Box<TreeFault>>, AllocError>
    requires { IsJob prepared.now forks number }
    ensures { IfOk result (IsFinding prepared.now number) }
{
    gate.enter(number);
    let forks = forks_of(prepared, number, forks);
    let found = prepared.forked_tree_fault(rt, alloc, number, forks, gate)?;
    boxed(alloc, found)
}

// Boxes a fault, if there is one.
fn boxed(alloc: Global, found: Option<TreeFault>) -> Result<Option<Box<TreeFault>>, AllocError>
    ensures { IfOk result (λ finding. fault_of finding ≡ found) }
{
    let Some(fault) = found else {
        return Ok(None);
    };
    Ok(Some(Box::new(alloc, fault)?))
}

// In how many levels of the lemma's tree, at most `forks`, the halves of a branch are walked at once.
fn forks_of(prepared: &Prepared<'_>, number: u32, forks: u8) -> u8
    requires { number < length prepared.now.lemmas }
    ensures { result ≤ forks }
{
    let lemma = prepared.question().lemmas().at(number as usize);
    if lemma.tree.nodes() < LEAST_FORKED {
        0
    } else {
        forks
    }
}

// The first fault among the results, with its number.
pub(crate) fn first_found(
    alloc: Global,
    results: &[Option<Box<TreeFault>>],
) -> Result<Option<(u32, TreeFault)>, AllocError>
    requires { length results.now < 2 ^ 32 }
    ensures { IfOk result (IsFirstFound results.now) }
{
    for number in 0..results.len() {
        if let Some(fault) = &results[number] {
            return Ok(Some((number as u32, copy(alloc, fault)?)));
        }
    }
    Ok(None)
}

// A copy of the fault.
fn copy(alloc: Global, fault: &TreeFault) -> Result<TreeFault, AllocError>
    ensures { IfOk result (λ r. r ≡ fault.now) }
{
    let steps = fault.path.steps().to_vec(alloc)?;
    Ok(TreeFault {
        path: Path::new(steps),
        fault: fault.fault,
    })
}
