//! Puts certificates together from numbered pieces.

ghost use Rattle.std.specs.Prelude.{◌≡◌, ◌≤◌, ◌<◌, ◌^◌, Ok, Err, All, IfOk, IfErr, IsErrOf, length, map};
ghost use Rattle.cert_tree.specs.Assembly.{Assembles, HaveNoStranger};
ghost use Rattle.cert_tree.specs.Certificate.{piece_number, piece_of};
ghost use Rattle.cert_tree.specs.Spans.{number_of};
ghost use Rattle.cert_tree.specs.Tree.{tree_of, IsNarrow};

use crate::certificates::{Certificate, Lemma};
use crate::conversions::flat_lemmas;
use crate::faults::AssembleFault;
use crate::flat_lemmas::{FlatLemma, LemmaSpan, Lemmas};
use crate::numbered::assembled;
use crate::strangers::{Numbered, least_stranger};
use match_board::SymmetryLine;
use match_limits::MOST_LEMMAS;
use std::alloc::Global;

impl Numbered for LemmaSpan {
    ghost numbered = { number_of };

    fn number(&self) -> u32 {
        self.number
    }
}

impl Numbered for Lemma {
    ghost numbered = { λ lemma. lemma.number };

    fn number(&self) -> u32 {
        self.number
    }
}

impl<'a> Numbered for FlatLemma<'a> {
    ghost numbered = { λ lemma. lemma.number };

    fn number(&self) -> u32 {
        self.number
    }
}

/// Makes a certificate of these symmetries and of lemmas that lie flat: lemma i is the only piece with number i. Their
/// pairs and heads are not copied.
///
/// The order of the pieces doesn't matter. An `Err` is the first fault in the order of [`AssembleFault`], with its
/// least number: `Stranger`, `Double`, `Missing`; `Memory` comes only where memory is refused. On an `Err` all are
/// dropped.
pub fn assemble_flat(
    alloc: Global,
    count: u32,
    symmetries: Vec<SymmetryLine>,
    pieces: Lemmas,
) -> Result<Certificate, AssembleFault>
    requires count { count ≤ MOST_LEMMAS }
    requires symmetries { length symmetries.items < 2 ^ 32 }
    requires prefixes { All (λ piece. length piece.prefix < 2 ^ 32) pieces }
    ensures symmetries { IfOk result (λ certificate. certificate.symmetries ≡ symmetries.items) }
    ensures lemmas { IfOk result (λ certificate. Assembles piece_number count pieces (Ok certificate.lemmas)) }
    ensures fault { IfErr result (λ fault. Assembles piece_number count pieces (Err fault)) }
{
    let (blocks, spans) = pieces.apart();
    let spans = assembled(alloc, count, spans)?;
    let lemmas = Lemmas::of_blocks(blocks, spans);
    Ok(Certificate::of(symmetries, lemmas))
}

/// Makes a certificate of these symmetries and lemmas: lemma i is the only piece with number i.
///
/// The order of the pieces doesn't matter. An `Err` is the first fault in the order of [`AssembleFault`], with its
/// least number: `Stranger`, `Double`, `Missing`; `Memory` comes only where memory is refused, and then every number is
/// below `count`. On an `Err` all are dropped.
///
/// The trees may be of any depth. They are laid out flat, without recursion, into 8 bytes for each node beside the
/// pieces; while this goes on, what is left of a tree takes 32 bytes for each level. The rest takes a step for each
/// piece and for each number below `count`.
pub fn assemble(
    alloc: Global,
    count: u32,
    symmetries: Vec<SymmetryLine>,
    pieces: Vec<Lemma>,
) -> Result<Certificate, AssembleFault>
    requires count { count ≤ MOST_LEMMAS }
    requires symmetries { length symmetries.items < 2 ^ 32 }
    requires prefixes { All (λ piece. length piece.prefix < 2 ^ 32) pieces.items }
    requires narrow { All (λ piece. IsNarrow (tree_of piece.tree)) pieces.items }
    ensures symmetries { IfOk result (λ certificate. certificate.symmetries ≡ symmetries.items) }
    ensures lemmas { IfOk result
        (λ certificate. Assembles piece_number count (map piece_of pieces.items) (Ok certificate.lemmas)) }
    ensures fault { IfErr result (λ fault. Assembles piece_number count (map piece_of pieces.items) (Err fault)) }
    ensures memory { IsErrOf result AssembleFault.Memory
        → HaveNoStranger piece_number count (map piece_of pieces.items) }
{
    // before memory is asked for, which may be refused
    if let Some(stranger) = least_stranger(&pieces, count) {
        return Err(AssembleFault::Stranger(stranger));
    }
    let flat = flat_lemmas(alloc, &pieces)?;
    assemble_flat(alloc, count, symmetries, flat)
}
