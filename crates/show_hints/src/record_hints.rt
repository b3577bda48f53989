//! What is wrong with the text of a list or of a certificate, in one line.

use crate::documents::Document;
use crate::text_hints::text_hint;
use cert_text::{CertTextFault, LemmaLines, read_lemma_lines};
use cert_tree::AssembleFault;
use match_limits::MOST_BYTES;
use match_text::ListTextFault;
use std::alloc::{AllocError, Global};

/// What has to stand where the text of a list has this fault, and what stands there, in one line. None where there is
/// nothing to tell.
///
/// An `Err` where memory is refused. It takes the time and the memory of reading the text once or twice more.
pub fn list_hint(
    alloc: Global,
    text: &[u8],
    fault: &ListTextFault,
) -> Result<Option<String>, AllocError> {
    match fault {
        ListTextFault::Text(_) => text_hint(alloc, Document::List, text),
        ListTextFault::Memory => Ok(None),
    }
}

/// What has to be changed in the text of a certificate that has this fault, in one line: what has to stand at a place
/// of the text, and what stands there, or which lines have a number that they can't have. None where there is nothing
/// to tell.
///
/// An `Err` where memory is refused. It takes the time and the memory of reading the text once or twice more.
pub fn certificate_hint(
    alloc: Global,
    text: &[u8],
    fault: &CertTextFault,
) -> Result<Option<String>, AllocError> {
    match fault {
        CertTextFault::Text(_) => text_hint(alloc, Document::Certificate, text),
        CertTextFault::Assemble(fault) => numbers_hint(alloc, text, *fault),
        CertTextFault::Memory => Ok(None),
    }
}

// Which lines have numbers that lemmas can't have.
fn numbers_hint(
    alloc: Global,
    text: &[u8],
    fault: AssembleFault,
) -> Result<Option<String>, AllocError> {
    if text.len() > MOST_BYTES as usize {
        return Ok(None);
    }
    match read_lemma_lines(alloc, text) {
        Some(lines) => lines_hint(alloc, &lines, fault),
        None => Ok(None),
    }
}

// What the fault finds wrong with the numbers of lemmas, and in which of these lines.
fn lines_hint(
    alloc: Global,
    lines: &LemmaLines,
    fault: AssembleFault,
) -> Result<Option<String>, AllocError> {
    let count = lines.lemmas.len();
    let last = count.saturating_sub(1);
    let hint = match fault {
        AssembleFault::Stranger(number) => {
            let (line, _) = lines_of(lines, number);
            format!(in alloc;
                "certificate line {line} has lemma {number}: behind \"lemmas {count}\" the numbers are 0 to {last}"
            )?
        }
        AssembleFault::Double(number) => {
            let (line, other) = lines_of(lines, number);
            format!(in alloc;
                "certificate lines {line} and {other} both have lemma {number}: \
                 behind \"lemmas {count}\" each number from 0 to {last} stands once"
            )?
        }
        AssembleFault::Missing(number) => format!(in alloc;
            "no certificate line has lemma {number}: \
             behind \"lemmas {count}\" each number from 0 to {last} stands once"
        )?,
        AssembleFault::Memory => return Ok(None),
    };
    Ok(Some(hint))
}

// The first two lines that have the lemma with this number; where there are none, the one of the first lemma.
fn lines_of(lines: &LemmaLines, number: u32) -> (usize, usize) {
    let mut first = None;
    for at in 0..lines.lemmas.len() {
        if lines.lemmas.at(at).number == number {
            let line = lines.first_line.saturating_add(at);
            match first {
                None => first = Some(line),
                Some(first) => return (first, line),
            }
        }
    }
    let first = first.unwrap_or(lines.first_line);
    (first, first)
}
