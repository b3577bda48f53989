//! Writes lemmas and certificates.

ghost use Rattle.std.specs.Prelude.{◌≡◌, ◌<◌, ◌≤◌, ◌^◌, ◌++◌, ◌∷◌, [], ℕ, Ok, length, map, decimal, IfOk, OnOk};
ghost use Rattle.std.specs.List.{AllByRecursion};
ghost use Rattle.std.specs.List.{flat_map};
ghost use Rattle.text_words.specs.Spelling.{line_text, text_of, spaced, colour_word};
ghost use Rattle.cert_tree.specs.Certificate.{piece_of, flat_piece};
ghost use Rattle.cert_tree.specs.Limits.{IsLemmaWithin};
ghost use Rattle.cert_text.specs.HeadSpelling.{head_words};
ghost use Rattle.cert_text.specs.CertificateText.{lemma_of, certificate_of, Makes};
ghost use Rattle.cert_text.specs.CertificateSpelling.{mirrored_word, symmetry_words, pair_word, lemma_words};
ghost use Rattle.cert_text.specs.CertificateSpelling.{lemma_spelling, certificate_spelling, symmetries_spelling};
ghost use Rattle.cert_text.specs.CertificateSpelling.{front_spelling, lemma_lines, AreLinesBetween};
ghost use Rattle.cert_text.specs.CertificateSpelling.{AreColourImagesWithin, IsCertificateWithin};
ghost use Rattle.cert_text.specs.Writing.{said_by};

use crate::limits::first_version;
use cert_tree::{Certificate, FlatLemma, Head, Lemma, Lemmas, PackedLemma};
use match_board::SymmetryLine;
use match_limits::{MOST_CELLS, MOST_COLOURS};
use match_puzzle::Pair;
use std::alloc::{AllocError, Global};
use text_words::{character, put_end, put_number, put_number_line, put_placement};

// Writes these bytes, and the number after them.
fn put_behind(text: &mut Vec<u8>, bytes: &[u8], number: u32) -> Result<(), AllocError>
    ensures { OnOk result (text.new.items ≡ text.old.items ++ (bytes.now ++ decimal number)) }
{
    text.extend_from_slice(bytes)?;
    put_number(text, u64::from(number))
}

// Writes a head, each word after a space.
#[tactic(auto, unfolding(text_words::specs::Spelling::spaced))]
fn put_head(text: &mut Vec<u8>, head: Head) -> Result<(), AllocError>
    ensures { OnOk result (text.new.items ≡ text.old.items ++ spaced (head_words head)) }
{
    match head {
        Head::Cell { cell, children } => {
            put_behind(text, b" c ", u32::from(cell))?;
            put_behind(text, b" ", children)
        }
        Head::Tile { tile, children } => {
            put_behind(text, b" t ", u32::from(tile))?;
            put_behind(text, b" ", children)
        }
        Head::DeadCell(cell) => put_behind(text, b" d ", u32::from(cell)),
        Head::DeadTile(tile) => put_behind(text, b" e ", u32::from(tile)),
        Head::Found(number) => put_behind(text, b" f ", number),
        Head::Same(lemma) => put_behind(text, b" s ", lemma),
        Head::Image { symmetry, lemma } => {
            put_behind(text, b" i ", lemma)?;
            put_behind(text, b" ", u32::from(symmetry))
        }
    }
}

// Writes a tree: its words are those of its heads.
#[tactic(auto, unfolding(text_words::specs::Spelling::spaced))]
fn put_heads(text: &mut Vec<u8>, heads: &[Head]) -> Result<(), AllocError>
    ensures { OnOk result (text.new.items ≡ text.old.items ++ spaced (flat_map head_words heads.now)) }
{
    for head in heads {
        put_head(text, *head)?;
    }
    Ok(())
}

/// Writes a space and the pair, as in a prefix. An error comes where memory is refused.
pub fn put_pair(text: &mut Vec<u8>, pair: Pair) -> Result<(), AllocError>
    ensures { OnOk result (text.new.items ≡ text.old.items ++ (32 ∷ pair_word pair)) }
{
    put_behind(text, b" ", u32::from(pair.cell))?;
    text.push(b':')?;
    put_placement(text, pair.placement)
}

#[tactic(auto, unfolding(text_words::specs::Spelling::spaced))]
fn put_pairs(text: &mut Vec<u8>, pairs: &[Pair]) -> Result<(), AllocError>
    ensures { OnOk result (text.new.items ≡ text.old.items ++ spaced (map pair_word pairs.now)) }
{
    for pair in pairs {
        put_pair(text, *pair)?;
    }
    Ok(())
}

fn put_lemma(text: &mut Vec<u8>, lemma: &FlatLemma<'_>) -> Result<(), AllocError>
    ensures { OnOk result (text.new.items ≡ text.old.items ++ line_text (lemma_words (flat_piece lemma.now))) }
{
    put_behind(text, b"lemma ", lemma.number)?;
    text.extend_from_slice(b" prefix")?;
    put_pairs(text, lemma.prefix)?;
    text.extend_from_slice(b" tree")?;
    put_heads(text, lemma.tree.heads())?;
    text.push(b'\n')?;
    Ok(())
}

fn put_lemmas(text: &mut Vec<u8>, lemmas: &Lemmas) -> Result<(), AllocError>
    ensures { OnOk result (text.new.items ≡ text.old.items ++ lemma_lines lemmas.now) }
{
    for number in 0..lemmas.len() {
        put_lemma(text, &lemmas.at(number))?;
    }
    Ok(())
}

#[tactic(auto, unfolding(text_words::specs::Spelling::spaced))]
fn put_numbers(text: &mut Vec<u8>, numbers: &[u16]) -> Result<(), AllocError>
    ensures { OnOk result (text.new.items ≡ text.old.items ++ spaced (map decimal numbers.now)) }
{
    for number in numbers {
        put_behind(text, b" ", u32::from(*number))?;
    }
    Ok(())
}

#[tactic(auto, unfolding(text_words::specs::Spelling::spaced))]
fn put_colours(text: &mut Vec<u8>, colours: &[u8]) -> Result<(), AllocError>
    requires { AllByRecursion (λ colour. colour < MOST_COLOURS) colours.now }
    ensures { OnOk result (text.new.items ≡ text.old.items ++ spaced (map colour_word colours.now)) }
{
    for colour in colours {
        text.push(b' ')?;
        text.push(character(*colour))?;
    }
    Ok(())
}

fn sign(mirrored: bool) -> u8
    ensures { result ∷ [] ≡ mirrored_word mirrored }
{
    if mirrored { b'-' } else { b'+' }
}

fn put_symmetry(text: &mut Vec<u8>, line: &SymmetryLine) -> Result<(), AllocError>
    requires { AreColourImagesWithin line.now.colours }
    ensures { OnOk result (text.new.items ≡ text.old.items ++ line_text (symmetry_words line.now)) }
{
    put_behind(text, b"symmetry ", u32::from(line.shift))?;
    text.push(b' ')?;
    text.push(sign(line.mirrored))?;
    text.extend_from_slice(b" cells")?;
    put_numbers(text, line.cells.as_slice())?;
    text.extend_from_slice(b" colours")?;
    put_colours(text, line.colours.as_slice())?;
    text.extend_from_slice(b" tiles")?;
    put_numbers(text, line.tiles.as_slice())?;
    text.push(b'\n')?;
    Ok(())
}

fn put_symmetries(text: &mut Vec<u8>, lines: &[SymmetryLine]) -> Result<(), AllocError>
    requires { AllByRecursion (λ line. AreColourImagesWithin line.colours) lines.now }
    ensures { OnOk result (text.new.items ≡ text.old.items ++ text_of (map symmetry_words lines.now)) }
{
    for line in lines {
        put_symmetry(text, line)?;
    }
    Ok(())
}

/// Writes how many symmetries there are, and a line for each, as a certificate has them.
pub fn write_symmetries(alloc: Global, lines: &[SymmetryLine]) -> Result<Vec<u8>, AllocError>
    requires few { length lines.now < 2 ^ 32 }
    requires colours { AllByRecursion (λ line. AreColourImagesWithin line.colours) lines.now }
    ensures { IfOk result (λ text. text.items ≡ symmetries_spelling lines.now) }
{
    let mut text = Vec::new(alloc);
    put_number_line(&mut text, b"symmetries", lines.len() as u64)?;
    put_symmetries(&mut text, lines)?;
    Ok(text)
}

/// Writes the text of the lemma: one line, which reads back as an equal lemma.
pub fn write_lemma(alloc: Global, lemma: &Lemma) -> Result<Vec<u8>, AllocError>
    requires { IsLemmaWithin MOST_CELLS (piece_of lemma.now) }
    ensures spelling { IfOk result (λ text. text.items ≡ lemma_spelling (piece_of lemma.now)) }
    ensures reads { IfOk result (λ text. lemma_of text.items ≡ Ok (piece_of lemma.now)) }
{
    let packed = PackedLemma::of(alloc, lemma)?;
    let mut text = Vec::new(alloc);
    put_lemma(&mut text, &packed.lend())?;
    Ok(text)
}

/// Writes what comes before the lemma lines of the certificate in this version.
pub fn certificate_front(
    alloc: Global,
    version: u8,
    certificate: &Certificate,
) -> Result<Vec<u8>, AllocError>
    requires { IsCertificateWithin (said_by version certificate.now) }
    ensures { IfOk result (λ text. text.items ≡ front_spelling (said_by version certificate.now)) }
{
    let symmetries = certificate.symmetries();
    let mut text = Vec::new(alloc);
    put_number_line(&mut text, b"certificate", u64::from(version))?;
    put_number_line(&mut text, b"symmetries", symmetries.len() as u64)?;
    put_symmetries(&mut text, symmetries)?;
    put_number_line(&mut text, b"lemmas", certificate.lemmas().len() as u64)?;
    Ok(text)
}

// Writes the text of the certificate in this version.
fn certificate_text(
    alloc: Global,
    version: u8,
    certificate: &Certificate,
) -> Result<Vec<u8>, AllocError>
    requires { IsCertificateWithin (said_by version certificate.now) }
    ensures spelling { IfOk result (λ text. text.items ≡ certificate_spelling (said_by version certificate.now)) }
    ensures reads { IfOk result (λ text. (certificate_of text.items ≡ Ok (said_by version certificate.now))
        × Makes (said_by version certificate.now) (Ok certificate.now)) }
{
    let mut text = certificate_front(alloc, version, certificate)?;
    put_lemmas(&mut text, certificate.lemmas())?;
    put_end(&mut text)?;
    Ok(text)
}

/// Writes the text of the certificate, its lemmas by number: in version 1 where that can spell it, otherwise in version
/// 2.
pub fn write_certificate(alloc: Global, certificate: &Certificate) -> Result<Vec<u8>, AllocError>
    requires { IsCertificateWithin (said_by 2 certificate.now) }
    ensures first { IsCertificateWithin (said_by 1 certificate.now)
        → IfOk result (λ text. text.items ≡ certificate_spelling (said_by 1 certificate.now)) }
    ensures second { (IsCertificateWithin (said_by 1 certificate.now) → ⊥)
        → IfOk result (λ text. text.items ≡ certificate_spelling (said_by 2 certificate.now)) }
    // It reads back as an equal certificate.
    ensures reads { IfOk result (λ text. (version : ℕ)
        × (certificate_of text.items ≡ Ok (said_by version certificate.now))
        × Makes (said_by version certificate.now) (Ok certificate.now)) }
{
    certificate_text(alloc, first_version(certificate), certificate)
}

/// Writes the lines of the certificate's lemmas from number `first` to before `last`.
pub fn write_lemma_lines(
    alloc: Global,
    lemmas: &Lemmas,
    first: usize,
    last: usize,
) -> Result<Vec<u8>, AllocError>
    requires { (first ≤ last) × (last ≤ length lemmas.now) }
    ensures { IfOk result (λ text. AreLinesBetween lemmas.now first last text.items) }
{
    let mut text = Vec::new(alloc);
    for number in first..last {
        put_lemma(&mut text, &lemmas.at(number))?;
    }
    Ok(text)
}
