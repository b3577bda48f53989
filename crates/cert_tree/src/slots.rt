//! Places for pieces, one for each number below the count.

ghost use Rattle.std.specs.Prelude.{◌≡◌, ◌<◌, ◌^◌, ◌∷◌, [], List, None, Some, Contains};
ghost use Rattle.std.specs.Prelude.{IfOk, IfErr, MatchBool, length, map, replicate};
ghost use Rattle.cert_tree.specs.Slots.{IsPut, IsTaken, IsEntered, IsFirstEmpty};

use crate::faults::AssembleFault;
use crate::strangers::{Numbered, lesser};
use std::alloc::{AllocError, Global};

// A place for each number below the count, with nothing in it.
pub(crate) fn empty_slots<N: Drop>(alloc: Global, count: u32) -> Result<Vec<Option<N>>, AllocError>
    ensures { IfOk result (λ slots. slots.items ≡ replicate count None) }
{
    let mut slots = Vec::with_capacity(alloc, count as usize)?;
    for _ in 0..count {
        slots.push(None)?;
    }
    Ok(slots)
}

// Puts the piece into the place of its number, if nothing is there; whether it did.
fn put<N: Numbered + Drop>(slots: &mut Vec<Option<N>>, piece: N) -> bool
    requires { N.numbered piece < length slots.old.items }
    ensures { MatchBool result (IsPut N.numbered slots.old.items slots.new.items piece)
        (IsTaken N.numbered slots.old.items slots.new.items piece) }
{
    let number = piece.number() as usize;
    if slots[number].is_some() {
        return false;
    }
    slots[number] = Some(piece);
    true
}

// Puts the piece into the place of its number, if nothing is there, and answers the least number that more than one
// piece has. `double` is that of the pieces before.
fn enter<N: Numbered + Drop>(
    slots: &mut Vec<Option<N>>,
    double: Option<u32>,
    piece: N,
) -> Option<u32>
    requires { N.numbered piece < length slots.old.items }
    ensures long { length slots.new.items ≡ length slots.old.items }
    ensures entered { (before : List N) → IsEntered N.numbered before slots.old.items double
        → IsEntered N.numbered (piece ∷ before) slots.new.items result }
{
    let number = piece.number();
    if put(slots, piece) {
        return double;
    }
    Some(lesser(double, number))
}

// Puts each piece into the place of its number, and answers the least number that more than one piece has.
pub(crate) fn fill<N: Numbered + Drop>(
    slots: &mut Vec<Option<N>>,
    mut pieces: Vec<N>,
) -> Option<u32>
    requires empty { IsEntered N.numbered [] slots.old.items None }
    requires below { (piece : N) → Contains pieces.items piece → N.numbered piece < length slots.old.items }
    ensures long { length slots.new.items ≡ length slots.old.items }
    ensures entered { IsEntered N.numbered pieces.items slots.new.items result }
{
    let mut double = None;
    while let Some(piece) = pieces.pop() {
        double = enter(slots, double, piece);
    }
    double
}

// What stands in the places, in order. Missing, where one is empty.
pub(crate) fn take_each<N: Drop>(
    alloc: Global,
    mut slots: Vec<Option<N>>,
) -> Result<Vec<N>, AssembleFault>
    requires { length slots.items < 2 ^ 32 }
    ensures all { IfOk result (λ pieces. map Some pieces.items ≡ slots.items) }
    ensures missing { IfErr result (IsFirstEmpty slots.items) }
{
    let mut pieces = Vec::with_capacity(alloc, slots.len())?;
    for number in 0..slots.len() {
        let Some(piece) = slots[number].take() else {
            return Err(AssembleFault::Missing(number as u32));
        };
        pieces.push(piece)?;
    }
    Ok(pieces)
}
