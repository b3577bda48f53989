//! Desks, receipts for what was posted there, and walks over it.

ghost use Rattle.std.specs.Prelude.{All, ◌≡◌, ◌<◌, ◌≤◌, ◌^◌, Ok, Err, IfOk, IfErr, IfSome, length, map};
ghost use Rattle.std.specs.Iterator.{at_most};
ghost use Rattle.cert_tree.specs.Certificate.{flat_piece, lent_piece, piece_of};
ghost use Rattle.cert_tree.specs.Limits.{IsLemmaWithin};
ghost use Rattle.piece_desk.specs.TurnedAssembly.{AssemblesTurned};
ghost use Rattle.piece_desk.specs.Desks.{IsOf, lemma_of, posted_piece, places_left};

use crate::turned_assemblies::assemble_turned;
use boxcar::tag::Tag;
use boxcar::{Iter, Keeps, Pushed, Vec as Places};
use cert_tree::{AssembleFault, Certificate, FlatLemma, Lemma, PackedLemma};
use match_board::SymmetryLine;
use match_limits::{MOST_ARRANGEMENTS, MOST_CELLS, MOST_LEMMAS};
use std::alloc::{AllocError, Global};
use std::marker::Model;
use std::sync::Wait;

// Each lemma on a desk is within the limits of its text.
struct Within;

impl Keeps<Lemma> for Within {
    ghost use Rattle.cert_tree.specs.Certificate.{piece_of};
    ghost use Rattle.match_limits.specs.declared.TheConstants.{MOST_CELLS};
    ghost use Rattle.cert_tree.specs.Limits.{IsLemmaWithin};

    ghost holds = { λ _ _ lemma. IsLemmaWithin MOST_CELLS (piece_of lemma) };
}

/// Lemmas that threads put there for each other. None is ever taken away or changed.
#[derive(Drop)]
pub struct Desk {
    posted: Places<Lemma, Global, Within>,
}

/// Stands for the one lemma that was posted for it. It is three numbers, and needs no memory of its own.
#[derive(Drop)]
pub struct Receipt {
    token: Pushed<Lemma, Global, Within>,
}

impl Model for Receipt {
    ghost use Rattle.boxcar.specs.Table.{Where, where_coded};
    ghost use Rattle.cert_tree.specs.declared.certificates.Lemma.{Lemma};
    ghost use Rattle.cert_tree.specs.contracts.certificates.Lemma as lemma;

    ghost Value = { Where Lemma };

    ghost coded = { where_coded lemma.the_row.coded };

    ghost view = { λ receipt. receipt.token };

    ghost use Rattle.cert_tree.specs.Certificate.{piece_of};
    ghost use Rattle.match_limits.specs.declared.TheConstants.{MOST_CELLS};
    ghost use Rattle.cert_tree.specs.Limits.{IsLemmaWithin};

    ghost invariant = { λ receipt. IsLemmaWithin MOST_CELLS (piece_of receipt.token.value) };
}

/// A walk over lemmas that were posted.
#[derive(Drop)]
pub struct Shown<'a> {
    rest: Iter<'a, Lemma, Global, Within>,
}

impl Desk {
    /// Makes a desk with nothing on it. An error comes only where memory is refused.
    pub fn new(alloc: Global) -> Result<Desk, AllocError> {
        let posted = Places::with_rule(alloc, Tag::empty())?;
        Ok(Desk { posted })
    }

    /// Puts the lemma on the desk. Where memory is refused the lemma comes back, and the desk is as it was.
    ///
    /// A post takes no lock, but while another thread makes room for further lemmas it waits until there is room.
    pub fn post<R: Wait>(&self, rt: &R, lemma: Lemma) -> Result<Receipt, Lemma>
        requires { IsLemmaWithin MOST_CELLS (piece_of lemma) }
        ensures posted { IfOk result (λ receipt. IsOf self.now receipt × (lemma_of receipt ≡ lemma)) }
        ensures back { IfErr result (λ same. same ≡ lemma) }
    {
        let token = self.posted.push_shown(rt, lemma)?;
        Ok(Receipt { token })
    }

    /// Returns the lemma that the receipt stands for, at any time and on any thread, whatever others post. It waits for
    /// nobody.
    pub fn read<'a>(&'a self, receipt: &Receipt) -> &'a Lemma
        requires { IsOf self.now receipt.now }
        ensures lemma { result.now ≡ lemma_of receipt.now }
        ensures within { IsLemmaWithin MOST_CELLS (piece_of result.now) }
    {
        self.posted.value(&receipt.token)
    }

    /// Begins a walk over lemmas that were posted, each within the limits of its text. No contract says which of them
    /// it returns, nor in what order.
    pub fn shown(&self) -> Shown<'_> {
        Shown {
            rest: self.posted.iter(),
        }
    }

    // Lemmas that lie flat, equal to those of the receipts, in their order.
    fn packed(&self, alloc: Global, receipts: &[Receipt]) -> Result<Vec<PackedLemma>, AllocError>
        requires { All (λ receipt. IsOf self.now receipt) receipts.now }
        ensures pieces { IfOk result (λ lemmas. lemmas.items ≡ map posted_piece receipts.now) }
        ensures within { IfOk result (λ lemmas. All (IsLemmaWithin MOST_CELLS) lemmas.items) }
    {
        let mut lemmas = Vec::with_capacity(alloc, receipts.len())?;
        for receipt in receipts {
            let lemma = PackedLemma::of(alloc, self.read(receipt))?;
            lemmas.push(lemma)?;
        }
        Ok(lemmas)
    }

    /// Makes the certificate of these symmetries and of the receipts' lemmas. On the desk the root is lemma 0; in the
    /// certificate it is the last. So the number t of a lemma, and of a cited lemma below `count`, becomes `count - 1 -
    /// t`, and arrangement i of lemma t becomes `first[t] + i`. The order of the receipts doesn't matter.
    ///
    /// An `Err` is the first fault in the order of [`AssembleFault`], with a number as it is on the desk: `Stranger`,
    /// `Double`, `Missing`. `Memory` comes where memory is refused, perhaps before a number was looked at. On an `Err`
    /// the symmetries are dropped.
    ///
    /// Each tree is laid out flat, in a step for each node, and then copied. The rest takes a step for each receipt and
    /// for each number below `count`.
    pub fn gather(
        &self,
        alloc: Global,
        receipts: &[Receipt],
        symmetries: Vec<SymmetryLine>,
        count: u32,
        first: &[u32],
    ) -> Result<Certificate, AssembleFault>
        requires receipts { All (λ receipt. IsOf self.now receipt) receipts.now }
        requires count { count ≤ MOST_LEMMAS }
        requires many { length first.now ≡ count }
        requires first { All (λ n. n ≤ MOST_ARRANGEMENTS) first.now }
        requires symmetries { length symmetries.items < 2 ^ 32 }
        ensures symmetries { IfOk result (λ certificate. certificate.symmetries ≡ symmetries.items) }
        ensures lemmas { IfOk result (λ certificate. AssemblesTurned count first.now
            (map posted_piece receipts.now) (Ok certificate.lemmas)) }
        ensures fault { IfErr result (λ fault. AssemblesTurned count first.now
            (map posted_piece receipts.now) (Err fault)) }
    {
        let packed = self.packed(alloc, receipts)?;
        let lemmas = lend_all(alloc, &packed)?;
        assemble_turned(alloc, count, first, symmetries, lemmas)
    }
}

// The lemmas, lent, in their order.
fn lend_all(alloc: Global, packed: &[PackedLemma]) -> Result<Vec<FlatLemma<'_>>, AllocError>
    requires { All (IsLemmaWithin MOST_CELLS) packed.now }
    ensures pieces { IfOk result (λ lemmas. map flat_piece lemmas.items ≡ packed.now) }
    ensures within { IfOk result (λ lemmas. All (λ lemma. IsLemmaWithin MOST_CELLS (flat_piece lemma)) lemmas.items) }
{
    let mut lemmas = Vec::with_capacity(alloc, packed.len())?;
    for lemma in packed {
        lemmas.push(lemma.lend())?;
    }
    Ok(lemmas)
}

impl<'a> Iterator for Shown<'a> {
    type Item = &'a Lemma;

    ghost use Rattle.match_limits.specs.declared.TheConstants.{MOST_CELLS};

    ghost next_gives = { λ old item new. IfSome item (λ lemma. IsLemmaWithin MOST_CELLS (lent_piece lemma))
        × (places_left new ≤ places_left old)
        × IfSome item (λ _. places_left new < places_left old) };

    ghost remaining = { λ shown. at_most (places_left shown) };

    fn next(&mut self) -> Option<&'a Lemma> {
        let (_, lemma) = self.rest.next()?;
        Some(lemma)
    }
}
