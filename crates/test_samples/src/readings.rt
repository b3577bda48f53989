//! What the texts of tests say. Each call fails where its text has a fault or 100,000 bytes, and for want of memory.

ghost use Rattle.std.specs.Prelude.{◌<◌, ◌^◌, IfOk, OnOk, length};
ghost use Rattle.match_limits.specs.declared.TheConstants.{MOST_CELLS};
ghost use Rattle.cert_tree.specs.Certificate.{piece_of};
ghost use Rattle.cert_tree.specs.Limits.{IsLemmaWithin};

use cert_text::{read_certificate, read_lemma};
use cert_tree::{Certificate, Lemma};
use match_puzzle::{Arrangement, Puzzle};
use match_text::{read_list, read_puzzle};
use std::alloc::Global;
use std::test::Fail;

// No test has a text of this number of bytes, or more.
const TOO_LONG: usize = 100_000;

pub(crate) fn short(text: &[u8]) -> Result<(), Fail>
    ensures { OnOk result (length text.now < 100000) }
{
    if text.len() >= TOO_LONG {
        return Err(Fail::from("the text is long"));
    }
    Ok(())
}

/// The puzzle of this text.
pub fn puzzle_of(alloc: Global, text: &[u8]) -> Result<Puzzle, Fail> {
    short(text)?;
    Ok(read_puzzle(alloc, text)?)
}

/// The list of this text.
pub fn list_of(alloc: Global, text: &[u8]) -> Result<Vec<Arrangement>, Fail>
    ensures { IfOk result (λ listed. length listed.items < 2 ^ 32) }
{
    short(text)?;
    let listed = read_list(alloc, text)?;
    if listed.len() >= TOO_LONG {
        return Err(Fail::from("the list is long"));
    }
    Ok(listed)
}

/// The certificate of this text.
pub fn certificate_of(alloc: Global, text: &[u8]) -> Result<Certificate, Fail> {
    short(text)?;
    Ok(read_certificate(alloc, text)?)
}

/// The lemma of this line.
pub fn lemma_of(alloc: Global, line: &[u8]) -> Result<Lemma, Fail>
    ensures { IfOk result (λ lemma. IsLemmaWithin MOST_CELLS (piece_of lemma)) }
{
    short(line)?;
    Ok(read_lemma(alloc, line)?)
}
