//! Reads lemmas and certificates.

ghost use Rattle.std.specs.Prelude.{◌≡◌, ◌+◌, ◌<◌, ◌≤◌, ◌^◌, ℕ, Ok, Err, IfOk, IfSome};
ghost use Rattle.std.specs.Prelude.{length, take};
ghost use Rattle.match_limits.specs.Ranges.{AreRanges};
ghost use Rattle.text_words.specs.PlainWords.{Judges};
ghost use Rattle.text_words.specs.Place.{Gives, Reads, Says, fail, times, word_by};
ghost use Rattle.text_words.specs.declared.faults.TextKind.TheVariants as kinds;
ghost use Rattle.text_words.specs.Bytes.{line_ends};
ghost use Rattle.cert_tree.specs.Certificate.{Piece, piece_of};
ghost use Rattle.cert_tree.specs.Limits.{IsLemmaWithin};
ghost use Rattle.cert_text.specs.Lines.{said_of, Begins, ReadsBehind};
ghost use Rattle.cert_text.specs.CertificateText.{Said, mirrored_in, symmetry_line, lemma_line, lemma_text, lemma_of};
ghost use Rattle.cert_text.specs.CertificateText.{certificate_text, certificate_of};
ghost use Rattle.cert_text.specs.CertificateText.{CertificateGives, Makes};
ghost use Rattle.cert_text.specs.Writing.{said_by};
ghost use Rattle.cert_text.specs.CertificateSpelling.{lemma_spelling, certificate_spelling, IsCertificateWithin};

use crate::entries::{cell_images, colour_images, prefix, tile_images};
use crate::faults::{CertTextFault, LemmaTextFault};
use crate::tree_readers::tree;
use cert_tree::{Certificate, FlatLemma, Head, Lemma, LemmaSpan, Lemmas, assemble_flat};
use match_board::{Images, SymmetryLine};
use match_limits::{
    LAST_LEMMA, LAST_SIDE, MOST_CELLS, MOST_LEMMAS, MOST_SYMMETRIES, Ranges, SECOND, ranges_of,
};
use match_puzzle::Pair;
use std::alloc::Global;
use text_words::{Asked, FaultPlace, ReadFault, Scan, TextFault, TextKind};

fn mirrored_word(word: &[u8]) -> Result<bool, TextKind>
    ensures { Judges (λ mirrored. mirrored) result (mirrored_in word.now) }
{
    if word == b"+".as_slice() {
        return Ok(false);
    }
    if word == b"-".as_slice() {
        return Ok(true);
    }
    Err(TextKind::Word)
}

#[tactic(auto, unfolding(text_words::specs::Place::word_by))]
fn mirrored(scan: &mut Scan) -> Result<bool, TextFault>
    ensures { Gives (λ mirrored. mirrored) result scan.new (word_by mirrored_in scan.old) }
{
    let asked = Asked::OneOf("+, or -");
    let word = scan.next_word(asked)?;
    scan.accept(asked, mirrored_word(word))
}

#[tactic(auto, unfolding(crate::specs::CertificateText::symmetry_line))]
fn symmetry(alloc: Global, scan: &mut Scan, ranges: &Ranges) -> Result<SymmetryLine, ReadFault>
    ensures { Reads (λ line. line) result scan.new (symmetry_line ranges.now scan.old) }
{
    scan.next_line()?;
    scan.word(b"symmetry")?;
    let shift = scan.number(0, u32::from(LAST_SIDE))? as u8;
    let mirrored = mirrored(scan)?;
    scan.word(b"cells")?;
    let cells = Images::new(cell_images(alloc, scan, ranges)?);
    scan.word(b"colours")?;
    let colours = Images::new(colour_images(alloc, scan)?);
    scan.word(b"tiles")?;
    let tiles = Images::new(tile_images(alloc, scan, ranges)?);
    scan.end_of_line()?;
    Ok(SymmetryLine {
        shift,
        mirrored,
        cells,
        colours,
        tiles,
    })
}

fn symmetries(
    alloc: Global,
    scan: &mut Scan,
    ranges: &Ranges,
    count: u32,
) -> Result<Vec<SymmetryLine>, ReadFault>
    ensures { Reads (λ lines. lines.items) result scan.new (times count (symmetry_line ranges.now) scan.old) }
{
    let mut lines = Vec::new(alloc);
    for _ in 0..count {
        let line = symmetry(alloc, scan, ranges)?;
        lines.push(line)?;
    }
    Ok(lines)
}

// Reads a lemma, appends its pairs and heads, and returns where it lies among them.
#[tactic(auto, unfolding(crate::specs::CertificateText::lemma_line))]
fn lemma(
    scan: &mut Scan,
    ranges: &Ranges,
    pairs: &mut Vec<Pair>,
    heads: &mut Vec<Head>,
) -> Result<LemmaSpan, ReadFault>
    requires { AreRanges ranges.now }
    ensures { ReadsBehind result scan.new pairs.old.items pairs.new.items heads.old.items heads.new.items
        (lemma_line ranges.now scan.old) }
{
    scan.next_line()?;
    scan.word(b"lemma")?;
    let number = scan.number(0, LAST_LEMMA)?;
    scan.word(b"prefix")?;
    let pairs_start = pairs.len();
    prefix(scan, ranges, pairs)?;
    scan.word(b"tree")?;
    let heads_start = heads.len();
    tree(scan, ranges, heads)?;
    scan.end_of_line()?;
    Ok(LemmaSpan::of_last(number, pairs, pairs_start, heads, heads_start))
}

// Reads `count` lemmas, in the order of their lines.
pub(crate) fn read_lemmas(
    alloc: Global,
    scan: &mut Scan,
    ranges: &Ranges,
    count: u32,
) -> Result<Lemmas, ReadFault>
    requires { AreRanges ranges.now }
    ensures { Reads (λ lemmas. lemmas) result scan.new (times count (lemma_line ranges.now) scan.old) }
{
    let mut pairs = Vec::new(alloc);
    let mut heads = Vec::new(alloc);
    let mut spans = Vec::new(alloc);
    for _ in 0..count {
        let span = lemma(scan, ranges, &mut pairs, &mut heads)?;
        spans.push(span)?;
    }
    let lemmas = Lemmas::of(pairs, heads, spans)?;
    Ok(lemmas)
}

// Reads one lemma, in the ranges of version 2, and nothing after it.
#[tactic(auto, unfolding(crate::specs::CertificateText::lemma_text))]
fn whole_lemma(alloc: Global, scan: &mut Scan) -> Result<Lemma, ReadFault>
    ensures { Reads piece_of result scan.new (lemma_text scan.old) }
{
    let mut pairs = Vec::new(alloc);
    let mut heads = Vec::new(alloc);
    let span = lemma(scan, &SECOND, &mut pairs, &mut heads)?;
    scan.end_of_text()?;
    let lemma = FlatLemma::of(&pairs, &heads, span).to_lemma(alloc)?;
    Ok(lemma)
}

#[tactic(auto, unfolding(crate::specs::CertificateText::lemma_of))]
fn read_lemma_text(alloc: Global, text: &[u8]) -> Result<Lemma, ReadFault>
    requires { length text.now + 1 < 2 ^ 32 }
    ensures { Says piece_of result (lemma_of text.now) }
{
    let mut scan = Scan::new(text);
    let lemma = whole_lemma(alloc, &mut scan)?;
    Ok(lemma)
}

/// Reads a text that has one lemma line, in the ranges of version 2, and nothing after it. An `Err` is the first fault
/// of the text; `Memory` comes only where memory is refused.
pub fn read_lemma(alloc: Global, text: &[u8]) -> Result<Lemma, LemmaTextFault>
    requires { length text.now + 1 < 2 ^ 32 }
    // Which lemma is read, and which fault.
    ensures exact { Says piece_of result (lemma_of text.now) }
    // What is read is spelled this way.
    ensures found { IfOk result
        (λ lemma. IsLemmaWithin MOST_CELLS (piece_of lemma) × (text.now ≡ lemma_spelling (piece_of lemma))) }
    // What is spelled this way is read.
    ensures only { (piece : Piece) → IsLemmaWithin MOST_CELLS piece → text.now ≡ lemma_spelling piece
        → Says piece_of result (Ok piece) }
    // A spelling that is cut short ends at its last line.
    ensures cut { (piece : Piece) (k : ℕ) → IsLemmaWithin MOST_CELLS piece → k < length (lemma_spelling piece)
        → text.now ≡ take k (lemma_spelling piece)
        → Says piece_of result (fail (line_ends text.now + 1) kinds.Ends) }
{
    read_lemma_text(alloc, text)
}

// What a certificate's text says before its lemmas, and how many lemmas there are.
#[derive(Drop)]
pub(crate) struct Beginning {
    pub(crate) version: u8,
    pub(crate) symmetries: Vec<SymmetryLine>,
    pub(crate) count: u32,
}

#[tactic(auto, unfolding(crate::specs::CertificateText::certificate_text))]
pub(crate) fn read_beginning(alloc: Global, scan: &mut Scan) -> Result<Beginning, ReadFault>
    ensures begins { Begins result scan.new (certificate_text scan.old) }
    ensures few { IfOk result (λ it. it.count ≤ MOST_LEMMAS) }
{
    let version = scan.opening(b"certificate")?;
    let many = scan.counted(b"symmetries", 0, u32::from(MOST_SYMMETRIES))?;
    let symmetries = symmetries(alloc, scan, &ranges_of(version), many)?;
    let count = scan.counted(b"lemmas", 0, MOST_LEMMAS)?;
    Ok(Beginning {
        version,
        symmetries,
        count,
    })
}

// What a certificate's text says: its version, its symmetries, and its lemmas in the order of their lines.
#[derive(Drop)]
pub(crate) struct CertificateLines {
    pub(crate) version: u8,
    pub(crate) symmetries: Vec<SymmetryLine>,
    pub(crate) lemmas: Lemmas,
}

fn whole(alloc: Global, scan: &mut Scan) -> Result<CertificateLines, ReadFault>
    ensures { Reads said_of result scan.new (certificate_text scan.old) }
{
    let Beginning {
        version,
        symmetries,
        count,
    } = read_beginning(alloc, scan)?;
    let lemmas = read_lemmas(alloc, scan, &ranges_of(version), count)?;
    scan.closing()?;
    Ok(CertificateLines {
        version,
        symmetries,
        lemmas,
    })
}

#[tactic(auto, unfolding(crate::specs::CertificateText::certificate_of))]
fn read_lines(alloc: Global, text: &[u8]) -> Result<CertificateLines, ReadFault>
    requires { length text.now + 1 < 2 ^ 32 }
    ensures { Says said_of result (certificate_of text.now) }
{
    let mut scan = Scan::new(text);
    whole(alloc, &mut scan)
}

/// Returns where the text of a certificate has its first fault. `None` where it has no fault, or memory is refused.
/// Numbers of lemmas that make no certificate are no such fault.
#[tactic(auto, unfolding(crate::specs::CertificateText::certificate_of))]
pub fn certificate_fault_place(alloc: Global, text: &[u8]) -> Option<FaultPlace<'_>>
    requires { length text.now + 1 < 2 ^ 32 }
    ensures { IfSome result (λ place. certificate_of text.now ≡ Err place.fault) }
{
    let mut scan = Scan::new(text);
    match whole(alloc, &mut scan) {
        Err(ReadFault::Text(fault)) => Some(scan.fault_place(fault)),
        _ => None,
    }
}

/// The lemmas of a certificate's text in the order of their lines, and the number of the first of these lines, from 1.
#[derive(Drop)]
pub struct LemmaLines {
    pub first_line: usize,
    pub lemmas: Lemmas,
}

/// Reads the lemmas of a certificate's text as they are there, whether they make a certificate or not. `None` where the
/// text has a fault, or memory is refused.
pub fn read_lemma_lines(alloc: Global, text: &[u8]) -> Option<LemmaLines>
    requires { length text.now + 1 < 2 ^ 32 }
{
    let lines = read_lines(alloc, text).ok()?;
    // lines before: the version, how many symmetries, the symmetries, how many lemmas
    let first_line = lines.symmetries.len().saturating_add(4);
    Some(LemmaLines {
        first_line,
        lemmas: lines.lemmas,
    })
}

// The certificate of these lines.
pub(crate) fn made(alloc: Global, lines: CertificateLines) -> Result<Certificate, CertTextFault>
    requires { IsCertificateWithin (said_of lines) }
    ensures { Makes (said_of lines) result }
{
    let count = lines.lemmas.len() as u32;
    let certificate = assemble_flat(alloc, count, lines.symmetries, lines.lemmas)?;
    Ok(certificate)
}

fn read_and_make(alloc: Global, text: &[u8]) -> Result<Certificate, CertTextFault>
    requires { length text.now + 1 < 2 ^ 32 }
    ensures { CertificateGives result (certificate_of text.now) }
{
    let lines = read_lines(alloc, text)?;
    made(alloc, lines)
}

/// Reads the text of a certificate, of version 1 or 2, with its lemma lines in any order.
///
/// An `Err` is the first fault of the text, or else the first fault of its lemmas, which are put together with the
/// count that the text gives. `Memory` comes only where memory is refused.
pub fn read_certificate(alloc: Global, text: &[u8]) -> Result<Certificate, CertTextFault>
    requires { length text.now + 1 < 2 ^ 32 }
    // Which certificate is read, and which fault.
    ensures exact { CertificateGives result (certificate_of text.now) }
    // What is read is spelled this way, and put together from what the text says.
    ensures found { IfOk result (λ certificate. (said : Said) × IsCertificateWithin said
        × (text.now ≡ certificate_spelling said) × Makes said (Ok certificate)) }
    // What is read can be written.
    ensures within { IfOk result (λ certificate. IsCertificateWithin (said_by 2 certificate)) }
    // What is spelled this way is read and put together.
    ensures only { (said : Said) → IsCertificateWithin said → text.now ≡ certificate_spelling said
        → CertificateGives result (Ok said) }
    // A spelling that is cut short ends at its last line.
    ensures cut { (said : Said) (k : ℕ) → IsCertificateWithin said → k < length (certificate_spelling said)
        → text.now ≡ take k (certificate_spelling said)
        → CertificateGives result (fail (line_ends text.now + 1) kinds.Ends) }
{
    read_and_make(alloc, text)
}
