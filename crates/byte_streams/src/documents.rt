//! The texts of several documents, and an input cut into three.

ghost use Rattle.std.specs.Prelude.{◌≡◌, ◌==◌, ◌≤◌, ◌++◌, ◌∷◌, All, false, length, take, drop, IfSome, IfNone};
ghost use Rattle.byte_streams.specs.Documents.{cut_document, texts_in};
ghost use Rattle.byte_streams.specs.LentTexts.{texts_of};

use crate::texts::Text;
use memchr::memchr;
use std::marker::Model;

/// The three documents of an input.
#[derive(Clone, Copy)]
pub struct Documents<'a> {
    pub puzzle: &'a [u8],
    pub list: &'a [u8],
    pub certificate: &'a [u8],
}

/// The texts of a puzzle and a list that were read.
#[derive(Drop)]
pub struct TwoTexts {
    pub puzzle: Text,
    pub list: Text,
}

// What holds three texts.
#[derive(Drop)]
enum Parts {
    Apart {
        puzzle: Text,
        list: Text,
        certificate: Text,
    },
    Joined {
        input: Text,
    },
}

/// The texts of three documents that were read, apart or joined. Contracts see the three.
#[derive(Drop)]
pub struct OwnedDocuments {
    parts: Parts,
}

impl Model for OwnedDocuments {
    ghost use Rattle.byte_streams.specs.Documents.{Texts};

    ghost Value = { Texts };

    ghost use Rattle.byte_streams.specs.PartTexts.{texts_of_parts};

    ghost view = { λ d. texts_of_parts d.parts };
}

impl OwnedDocuments {
    ghost use Rattle.std.specs.Prelude.{◌≡◌};
    ghost use Rattle.byte_streams.specs.Documents.{AreShort, texts_in, three};
    ghost use Rattle.byte_streams.specs.LentTexts.{texts_of};

    /// The documents, each with a text of its own.
    pub fn apart(puzzle: Text, list: Text, certificate: Text) -> OwnedDocuments
        ensures { result ≡ three puzzle list certificate }
    {
        OwnedDocuments {
            parts: Parts::Apart {
                puzzle,
                list,
                certificate,
            },
        }
    }

    /// The documents of an input that has the three joined.
    pub fn joined(input: Text) -> OwnedDocuments
        ensures { result ≡ texts_in input }
    {
        OwnedDocuments {
            parts: Parts::Joined { input },
        }
    }

    /// The documents, borrowed. Where an input has them joined, this takes time in the length of the first two.
    pub fn lend(&self) -> Documents<'_>
        ensures texts { texts_of result ≡ self.now }
        ensures short { AreShort (texts_of result) }
    {
        match &self.parts {
            Parts::Apart {
                puzzle,
                list,
                certificate,
            } => Documents {
                puzzle: puzzle.bytes(),
                list: list.bytes(),
                certificate: certificate.bytes(),
            },
            Parts::Joined { input } => cut_joined(input.bytes()),
        }
    }
}

// The first line, and what stands after its LF.
fn first_line(text: &[u8]) -> Option<(&[u8], &[u8])>
    ensures whole { IfSome result (λ x. text.now ≡ x.0.now ++ 10 ∷ x.1.now) }
    ensures line { IfSome result (λ x. All (λ b. (b == 10) ≡ false) x.0.now) }
    ensures none { IfNone result (All (λ b. (b == 10) ≡ false) text.now) }
{
    let index = memchr(b'\n', text)?;
    Some((&text[..index], &text[index + 1..]))
}

// How many bytes the first document has.
fn document_len(text: &[u8]) -> usize
    ensures within { result ≤ length text.now }
    ensures cut { cut_document text.now ≡ (take result text.now, drop result text.now) }
{
    let mut at = 0;
    let mut rest = text;
    while let Some((line, after)) = first_line(rest) {
        at += line.len() + 1;
        rest = after;
        if line == b"end".as_slice() {
            return at;
        }
    }
    text.len()
}

/// Cuts after the first line that is exactly `end`, and after the next such line.
pub fn cut_joined(input: &[u8]) -> Documents<'_>
    ensures texts { texts_of result ≡ texts_in input.now }
    ensures whole { input.now ≡ result.puzzle.now ++ (result.list.now ++ result.certificate.now) }
{
    let (puzzle, others) = input.split_at(document_len(input));
    let (list, certificate) = others.split_at(document_len(others));
    Documents {
        puzzle,
        list,
        certificate,
    }
}
