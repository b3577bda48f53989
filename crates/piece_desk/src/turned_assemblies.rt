//! Lemmas whose numbers run upwards from the root, renumbered from the other end.

ghost use Rattle.std.specs.Prelude.{◌≡◌, ◌<◌, ◌≤◌, ◌^◌, ◌++◌, Ok, Err, All, IfOk, IfErr, IsErrOf, OnOk, length, map};
ghost use Rattle.std.specs.Prelude.{reverse, take, drop};
ghost use Rattle.cert_tree.specs.Certificate.{flat_piece, piece_number};
ghost use Rattle.cert_tree.specs.Limits.{IsLemmaWithin};
ghost use Rattle.cert_tree.specs.Spans.{piece_in, IsSpan};
ghost use Rattle.cert_tree.specs.Assembly.{Assembles, HaveNoStranger};
ghost use Rattle.piece_desk.specs.TurnedAssembly.{turned_number as number_of_turned, turned_piece, AssemblesTurned};
ghost use Rattle.piece_desk.specs.TurnedHeads.{turned_head as head_of_turned, IsFoundUpTo};

use cert_tree::{AssembleFault, Certificate, FlatLemma, Head, LemmaSpan, Lemmas, assembled};
use match_board::SymmetryLine;
use match_limits::{MOST_ARRANGEMENTS, MOST_CELLS, MOST_LEMMAS};
use match_puzzle::Pair;
use std::alloc::{AllocError, Global};

// A number below `count`, counted from the other end; any other number stays as it is.
fn turned_number(count: u32, number: u32) -> u32
    ensures { result ≡ number_of_turned count number }
{
    if number >= count {
        return number;
    }
    count - 1 - number
}

// The head, with the lemma that it cites renumbered, or its arrangement counted from `first`.
fn turned_head(count: u32, first: u32, head: Head) -> Head
    requires first { first ≤ MOST_ARRANGEMENTS }
    requires found { IsFoundUpTo MOST_ARRANGEMENTS head }
    ensures { result ≡ head_of_turned count first head }
{
    match head {
        Head::Found(number) => Head::Found(first + number),
        Head::Same(lemma) => Head::Same(turned_number(count, lemma)),
        Head::Image { symmetry, lemma } => {
            Head::Image {
                symmetry,
                lemma: turned_number(count, lemma),
            }
        }
        Head::Cell { .. } | Head::Tile { .. } | Head::DeadCell(_) | Head::DeadTile(_) => head,
    }
}

// Renumbers the heads from `start` on, where they lie.
fn turn_heads(heads: &mut Vec<Head>, start: usize, count: u32, first: u32)
    requires start { start ≤ length heads.old.items }
    requires first { first ≤ MOST_ARRANGEMENTS }
    requires found { All (IsFoundUpTo MOST_ARRANGEMENTS) (drop start heads.old.items) }
    ensures { heads.new.items
        ≡ take start heads.old.items ++ map (head_of_turned count first) (drop start heads.old.items) }
{
    for place in start..heads.len() {
        heads[place] = turned_head(count, first, heads[place]);
    }
}

// Appends the pairs of the lemma and the heads of its renumbered tree, and returns where it lies among them.
fn put_turned(
    pairs: &mut Vec<Pair>,
    heads: &mut Vec<Head>,
    count: u32,
    first: &[u32],
    lemma: &FlatLemma<'_>,
) -> Result<LemmaSpan, AllocError>
    requires number { lemma.now.number < length first.now }
    requires first { All (λ n. n ≤ MOST_ARRANGEMENTS) first.now }
    requires within { IsLemmaWithin MOST_CELLS (flat_piece lemma.now) }
    ensures span { IfOk result (IsSpan pairs.new.items heads.new.items) }
    ensures lemma { IfOk result
        (λ span. piece_in pairs.new.items heads.new.items span ≡ turned_piece count first.now (flat_piece lemma.now)) }
    ensures pairs { OnOk result (pairs.new.items ≡ pairs.old.items ++ drop (length pairs.old.items) pairs.new.items) }
    ensures heads { OnOk result (heads.new.items ≡ heads.old.items ++ drop (length heads.old.items) heads.new.items) }
{
    let pairs_start = pairs.len();
    let heads_start = heads.len();
    pairs.extend_from_slice(lemma.prefix)?;
    heads.extend_from_slice(lemma.tree.heads())?;
    turn_heads(heads, heads_start, count, first[lemma.number as usize]);
    let number = turned_number(count, lemma.number);
    Ok(LemmaSpan::of_last(number, pairs, pairs_start, heads, heads_start))
}

// The renumbered lemmas, the last first. Each tree is copied once, 8 bytes for each node, and renumbered where the copy
// lies.
pub(crate) fn turned_lemmas(
    alloc: Global,
    count: u32,
    first: &[u32],
    lemmas: &[FlatLemma<'_>],
) -> Result<Lemmas, AllocError>
    requires numbers { All (λ lemma. lemma.number < length first.now) lemmas.now }
    requires first { All (λ n. n ≤ MOST_ARRANGEMENTS) first.now }
    requires within { All (λ lemma. IsLemmaWithin MOST_CELLS (flat_piece lemma)) lemmas.now }
    ensures { IfOk result
        (λ turned. turned ≡ reverse (map (turned_piece count first.now) (map flat_piece lemmas.now))) }
{
    let mut pairs = Vec::new(alloc);
    let mut heads = Vec::new(alloc);
    let mut spans = Vec::with_capacity(alloc, lemmas.len())?;
    for lemma in lemmas {
        let span = put_turned(&mut pairs, &mut heads, count, first, lemma)?;
        spans.push(span)?;
    }
    spans.reverse();
    let turned = Lemmas::of(pairs, heads, spans)?;
    Ok(turned)
}

// The pieces in the order of their numbers, to be renumbered afterwards.
//
// An `Err` is the one that `cert_tree::assemble` returns for these pieces: `Stranger`, `Double`, `Missing`; `Memory`
// only where memory is refused, and then every number is below `count`.
pub(crate) fn in_turned_order(
    alloc: Global,
    count: u32,
    pieces: Vec<FlatLemma<'_>>,
) -> Result<Vec<FlatLemma<'_>>, AssembleFault>
    requires { All (λ piece. IsLemmaWithin MOST_CELLS (flat_piece piece)) pieces.items }
    ensures lemmas { IfOk result (λ lemmas.
        Assembles piece_number count (map flat_piece pieces.entry.items) (Ok (map flat_piece lemmas.items))) }
    ensures numbers { IfOk result (λ lemmas. All (λ lemma. lemma.number < count) lemmas.items) }
    ensures within { IfOk result (λ lemmas. All (λ lemma. IsLemmaWithin MOST_CELLS (flat_piece lemma)) lemmas.items) }
    ensures fault { IfErr result (λ fault.
        Assembles piece_number count (map flat_piece pieces.entry.items) (Err fault)) }
    ensures memory { IsErrOf result AssembleFault.Memory
        → HaveNoStranger piece_number count (map flat_piece pieces.entry.items) }
{
    let lemmas = assembled(alloc, count, pieces)?;
    Ok(lemmas)
}

// The certificate of these symmetries and pieces. The numbers of the pieces run upwards from the root, which is 0; in
// the certificate the root is the last. So the number t of a piece, and of a cited piece below `count`, becomes `count
// - 1 - t`, and arrangement i of piece t becomes `first[t] + i`.
//
// An `Err` is the one that `cert_tree::assemble` returns for these pieces, so its number is not yet renumbered:
// `Stranger`, `Double`, `Missing`; `Memory` only where memory is refused, and then every number is below `count`. On an
// `Err` the symmetries are dropped.
//
// Each tree is copied once, 8 bytes for each node, and renumbered where the copy lies. The rest takes a step for each
// piece and for each number below `count`.
pub(crate) fn assemble_turned(
    alloc: Global,
    count: u32,
    first: &[u32],
    symmetries: Vec<SymmetryLine>,
    pieces: Vec<FlatLemma<'_>>,
) -> Result<Certificate, AssembleFault>
    requires count { count ≤ MOST_LEMMAS }
    requires many { length first.now ≡ count }
    requires first { All (λ n. n ≤ MOST_ARRANGEMENTS) first.now }
    requires symmetries { length symmetries.items < 2 ^ 32 }
    requires within { All (λ piece. IsLemmaWithin MOST_CELLS (flat_piece piece)) pieces.items }
    ensures symmetries { IfOk result (λ certificate. certificate.symmetries ≡ symmetries.items) }
    ensures lemmas { IfOk result (λ certificate. AssemblesTurned count first.now
        (map flat_piece pieces.entry.items) (Ok certificate.lemmas)) }
    ensures fault { IfErr result (λ fault. AssemblesTurned count first.now
        (map flat_piece pieces.entry.items) (Err fault)) }
    ensures memory { IsErrOf result AssembleFault.Memory
        → HaveNoStranger piece_number count (map flat_piece pieces.entry.items) }
{
    let ordered = in_turned_order(alloc, count, pieces)?;
    let lemmas = turned_lemmas(alloc, count, first, &ordered)?;
    Ok(Certificate::of(symmetries, lemmas))
}
