//! Desks of lemmas that lie flat, and receipts for what was posted there.

ghost use Rattle.std.specs.Prelude.{All, ◌≡◌, ◌<◌, ◌≤◌, ◌^◌, Ok, Err, IfOk, IfErr, length, map};
ghost use Rattle.match_limits.specs.declared.TheConstants.{MOST_CELLS};
ghost use Rattle.cert_tree.specs.Certificate.{flat_piece};
ghost use Rattle.cert_tree.specs.Limits.{IsLemmaWithin};
ghost use Rattle.piece_desk.specs.TurnedAssembly.{AssemblesTurned};
ghost use Rattle.piece_desk.specs.FlatDesks.{IsOfFlat, flat_posted};

use crate::turned_assemblies::in_turned_order;
use crate::turnings::turned_by;
use boxcar::tag::Tag;
use boxcar::{Keeps, Pushed, Vec as Places};
use cert_tree::{AssembleFault, Certificate, FlatLemma, PackedLemma};
use match_board::SymmetryLine;
use match_limits::{MOST_ARRANGEMENTS, MOST_CELLS, MOST_LEMMAS};
use std::alloc::{AllocError, Global};
use std::marker::Model;
use std::sync::Wait;
use std::thread::Threads;

// Each lemma on a desk is within the limits of its text.
struct PackedWithin;

impl Keeps<PackedLemma> for PackedWithin {
    ghost use Rattle.match_limits.specs.declared.TheConstants.{MOST_CELLS};
    ghost use Rattle.cert_tree.specs.Limits.{IsLemmaWithin};

    ghost holds = { λ _ _ lemma. IsLemmaWithin MOST_CELLS lemma };
}

/// Lemmas that threads put there for each other, as on a [`Desk`](crate::Desk), but lying flat, so that a thread that
/// posts one needs its nodes no longer. None is ever taken away or changed.
#[derive(Drop)]
pub struct FlatDesk {
    posted: Places<PackedLemma, Global, PackedWithin>,
}

/// Stands for the one lemma that was posted for it. It is three numbers, and needs no memory of its own.
#[derive(Drop)]
pub struct FlatReceipt {
    token: Pushed<PackedLemma, Global, PackedWithin>,
}

impl Model for FlatReceipt {
    ghost use Rattle.boxcar.specs.Table.{Where, where_coded};
    ghost use Rattle.cert_tree.specs.Certificate.{Piece};
    ghost use Rattle.cert_tree.specs.contracts.packed_lemmas.PackedLemma as lemma;

    ghost Value = { Where Piece };

    ghost coded = { where_coded lemma.the_row.coded };

    ghost view = { λ receipt. receipt.token };

    ghost use Rattle.match_limits.specs.declared.TheConstants.{MOST_CELLS};
    ghost use Rattle.cert_tree.specs.Limits.{IsLemmaWithin};

    ghost invariant = { λ receipt. IsLemmaWithin MOST_CELLS receipt.token.value };
}

impl FlatDesk {
    /// Makes a desk with nothing on it. An error comes only where memory is refused.
    pub fn new(alloc: Global) -> Result<FlatDesk, AllocError> {
        let posted = Places::with_rule(alloc, Tag::empty())?;
        Ok(FlatDesk { posted })
    }

    /// Puts the lemma on the desk. Where memory is refused the lemma comes back, and the desk is as it was.
    ///
    /// A post takes no lock, but while another thread makes room for further lemmas it waits until there is room.
    pub fn post<R: Wait>(&self, rt: &R, lemma: PackedLemma) -> Result<FlatReceipt, PackedLemma>
        requires { IsLemmaWithin MOST_CELLS lemma }
        ensures posted { IfOk result (λ receipt. IsOfFlat self.now receipt × (flat_posted receipt ≡ lemma)) }
        ensures back { IfErr result (λ same. same ≡ lemma) }
    {
        let token = self.posted.push_shown(rt, lemma)?;
        Ok(FlatReceipt { token })
    }

    /// Returns the lemma that the receipt stands for, at any time and on any thread, whatever others post. It waits for
    /// nobody.
    pub fn read<'a>(&'a self, receipt: &FlatReceipt) -> FlatLemma<'a>
        requires { IsOfFlat self.now receipt.now }
        ensures lemma { flat_piece result ≡ flat_posted receipt.now }
        ensures within { IsLemmaWithin MOST_CELLS (flat_piece result) }
    {
        self.posted.value(&receipt.token).lend()
    }

    // The lemmas that the receipts stand for, in their order.
    fn lent<'a>(
        &'a self,
        alloc: Global,
        receipts: &[FlatReceipt],
    ) -> Result<Vec<FlatLemma<'a>>, AllocError>
        requires { All (λ receipt. IsOfFlat self.now receipt) receipts.now }
        ensures pieces { IfOk result (λ lemmas. map flat_piece lemmas.items ≡ map flat_posted receipts.now) }
        ensures within { IfOk result (λ lemmas. All (λ lemma. IsLemmaWithin MOST_CELLS (flat_piece lemma)) lemmas.items) }
    {
        let mut lemmas = Vec::with_capacity(alloc, receipts.len())?;
        for receipt in receipts {
            lemmas.push(self.read(receipt))?;
        }
        Ok(lemmas)
    }

    /// Makes a certificate of this desk's lemmas, as [`Desk::gather`](crate::Desk::gather) does: on the desk the root
    /// is lemma 0, in the certificate it is the last. Each tree is copied once, 8 bytes for each node, by at most four
    /// threads, and by no more than there are workers.
    pub fn gather<R: Threads + Sync>(
        &self,
        rt: &R,
        alloc: Global,
        receipts: &[FlatReceipt],
        symmetries: Vec<SymmetryLine>,
        count: u32,
        first: &[u32],
        workers: u8,
    ) -> Result<Certificate, AssembleFault>
        requires receipts { All (λ receipt. IsOfFlat self.now receipt) receipts.now }
        requires count { count ≤ MOST_LEMMAS }
        requires many { length first.now ≡ count }
        requires first { All (λ n. n ≤ MOST_ARRANGEMENTS) first.now }
        requires symmetries { length symmetries.items < 2 ^ 32 }
        ensures symmetries { IfOk result (λ certificate. certificate.symmetries ≡ symmetries.items) }
        ensures lemmas { IfOk result (λ certificate. AssemblesTurned count first.now
            (map flat_posted receipts.now) (Ok certificate.lemmas)) }
        ensures fault { IfErr result (λ fault. AssemblesTurned count first.now
            (map flat_posted receipts.now) (Err fault)) }
    {
        let lemmas = self.lent(alloc, receipts)?;
        let ordered = in_turned_order(alloc, count, lemmas)?;
        let turned = turned_by(rt, alloc, count, first, &ordered, workers)?;
        Ok(Certificate::of(symmetries, turned))
    }
}
