//! Certificates are assembled of a caller's own lemmas.

ghost use Rattle.std.specs.Prelude.{◌<◌, ◌^◌, length};
ghost use Rattle.cert_tree.specs.Tree.{tree_of, IsNarrow};

use cert_tree::{AssembleFault, Head, Lemma, Lemmas, Node, assemble, assembly_laws};
use std::alloc::{AllocError, Global};
use std::test::Fail;
use test_samples::lemma_without_prefix;

// A lemma whose one node is the arrangement with this number.
#[tactic(auto, using(cert_tree::proofs::TreeLemmas::tree_laws))]
fn piece(alloc: Global, number: u32, found: u32) -> Lemma
    ensures narrow { IsNarrow (tree_of result.tree) }
    ensures prefix { length result.prefix < 2 ^ 32 }
{
    lemma_without_prefix(alloc, number, Node::Found(found))
}

// Whether this is the fault where `count` lemmas are wanted, and two are there that have these numbers.
fn has_fault(
    alloc: Global,
    count: u8,
    [first, second]: [u32; 2],
    fault: AssembleFault,
) -> Result<bool, AllocError> {
    let pieces = vec![in alloc; piece(alloc, first, 0), piece(alloc, second, 1)]?;
    match assemble(alloc, u32::from(count), Vec::new(alloc), pieces) {
        Err(AssembleFault::Memory) => Err(AllocError),
        outcome => Ok(outcome.err() == Some(fault)),
    }
}

// How many lemmas are wanted, the numbers of the two that are there, and the fault of that.
const FAULTS: [(u8, [u32; 2], AssembleFault); 3] = [
    (3, [0, 1], AssembleFault::Missing(2)),
    (2, [0, 0], AssembleFault::Double(0)),
    (2, [0, 2], AssembleFault::Stranger(2)),
];

#[test]
fn tells_the_fault_of_numbers(rt: HostRuntime) -> Result<(), Fail> {
    for (count, numbers, fault) in FAULTS.iter() {
        assert!(rt; has_fault(rt.alloc(), *count, *numbers, *fault)?);
    }
    Ok(())
}

// Whether the tree of the lemma with this number finds this arrangement.
fn finds(lemmas: &Lemmas, number: usize, found: u32) -> bool {
    number < lemmas.len() && lemmas.at(number).tree.trees().next() == Head::Found(found)
}

// Whether three lemmas come by number that are given in another order.
fn assembles_by_number(alloc: Global) -> Result<bool, Fail> {
    let pieces = vec![in alloc; piece(alloc, 2, 0), piece(alloc, 0, 1), piece(alloc, 1, 2)]?;
    let certificate = assemble(alloc, 3, Vec::new(alloc), pieces)?;
    let lemmas = certificate.lemmas();
    Ok(lemmas.len() == 3 && finds(lemmas, 0, 1) && finds(lemmas, 1, 2) && finds(lemmas, 2, 0))
}

#[test]
fn assembles_lemmas_by_number(rt: HostRuntime) -> Result<(), Fail> {
    assert!(rt; assembles_by_number(rt.alloc())?);
    assembly_laws();
    Ok(())
}
