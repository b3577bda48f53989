//! Assembles pieces by their numbers.

ghost use Rattle.std.specs.Prelude.{◌↔◌, Ok, Err, IfOk, IfErr, IsErrOf, IsTrue};
ghost use Rattle.cert_tree.specs.Assembly.{Assembles, HaveNoStranger};

use crate::faults::AssembleFault;
use crate::slots::{empty_slots, fill, take_each};
use crate::strangers::{Numbered, least_stranger};
use std::alloc::Global;

// The pieces by number, each of which is below the count.
fn in_order<N: Numbered + Drop>(
    alloc: Global,
    count: u32,
    pieces: Vec<N>,
) -> Result<Vec<N>, AssembleFault>
    requires { HaveNoStranger N.numbered count pieces.items }
    ensures ok { IfOk result (λ sorted. Assembles N.numbered count pieces.items (Ok sorted.items)) }
    ensures err { IfErr result (λ fault. Assembles N.numbered count pieces.items (Err fault)) }
{
    let mut slots = empty_slots(alloc, count)?;
    if let Some(number) = fill(&mut slots, pieces) {
        return Err(AssembleFault::Double(number));
    }
    take_each(alloc, slots)
}

// Whether the pieces stand in the order of their numbers, and none below the count is missing.
fn are_assembled<N: Numbered>(pieces: &[N], count: u32) -> bool
    ensures { IsTrue result ↔ Assembles N.numbered count pieces.now (Ok pieces.now) }
{
    if pieces.len() != count as usize {
        return false;
    }
    for (place, piece) in pieces.iter().enumerate() {
        if piece.number() as usize != place {
            return false;
        }
    }
    true
}

/// The pieces, sorted by number: the one at place i is the only piece with number i. The order in which they come
/// doesn't matter. Where they are sorted already, they stay as they are; else they are put into a table first.
///
/// An `Err` is the first fault in the order of [`AssembleFault`], with its least number. It is `Memory` only where
/// memory is refused, and then no number is at or past the count. On an `Err` all pieces are dropped.
///
/// It takes a step for each piece and each number below the count.
pub fn assembled<N: Numbered + Drop>(
    alloc: Global,
    count: u32,
    pieces: Vec<N>,
) -> Result<Vec<N>, AssembleFault>
    ensures ok { IfOk result (λ sorted. Assembles N.numbered count pieces.items (Ok sorted.items)) }
    ensures err { IfErr result (λ fault. Assembles N.numbered count pieces.items (Err fault)) }
    ensures memory { IsErrOf result AssembleFault.Memory → HaveNoStranger N.numbered count pieces.items }
{
    if are_assembled(&pieces, count) {
        return Ok(pieces);
    }
    if let Some(number) = least_stranger(&pieces, count) {
        return Err(AssembleFault::Stranger(number));
    }
    in_order(alloc, count, pieces)
}
