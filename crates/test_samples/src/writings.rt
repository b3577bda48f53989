//! How what tests read is written again. Each call fails where that which reads its text does, and for want of memory.

ghost use Rattle.match_limits.specs.declared.TheConstants.{MOST_CELLS};
ghost use Rattle.cert_tree.specs.Certificate.{piece_of};
ghost use Rattle.cert_tree.specs.Limits.{IsLemmaWithin};

use crate::readings::{certificate_of, puzzle_of, short};
use cert_text::{WithinLimits, write_certificate, write_lemma};
use cert_tree::Lemma;
use match_text::{read_list, write_list, write_puzzle};
use std::alloc::{AllocError, Global};
use std::test::Fail;

/// What is written of the puzzle of this text.
pub fn puzzle_again(alloc: Global, text: &[u8]) -> Result<Vec<u8>, Fail> {
    let puzzle = puzzle_of(alloc, text)?;
    Ok(write_puzzle(alloc, &puzzle)?)
}

/// What is written of the list of this text.
pub fn list_again(alloc: Global, text: &[u8]) -> Result<Vec<u8>, Fail> {
    short(text)?;
    let list = read_list(alloc, text)?;
    Ok(write_list(alloc, &list)?)
}

/// What is written of the certificate of this text.
pub fn certificate_again(alloc: Global, text: &[u8]) -> Result<Vec<u8>, Fail> {
    let certificate = certificate_of(alloc, text)?;
    if !certificate.within_limits() {
        return Err(Fail::from("what was read can't be written"));
    }
    Ok(write_certificate(alloc, &certificate)?)
}

/// Whether this line is written of the lemma.
pub fn is_lemma_line(alloc: Global, lemma: &Lemma, line: &[u8]) -> Result<bool, AllocError>
    requires { IsLemmaWithin MOST_CELLS (piece_of lemma.now) }
{
    Ok(write_lemma(alloc, lemma)?.as_slice() == line)
}
