//! What a page tells of its texts.

ghost use Rattle.std.specs.Prelude.{◌≡◌, IfOk, decimal, length};
ghost use Rattle.hex.specs.Hex.{encode_lower};
ghost use Rattle.sha2.specs.Sha256.{sha256};
ghost use Rattle.show_page.specs.Rows.{row_in, rows_text, rows_with};
ghost use Rattle.show_page.specs.Texts.{texts_of};

use crate::counts::digits;
use crate::fixed;
use crate::joining::join;
use crate::texts::{ListTexts, place_of};
use sha2::{Digest, Sha256};
use std::alloc::{AllocError, Global};

// What a row tells of a text.
#[derive(Clone, Copy)]
struct Told<'a> {
    place: &'a [u8],
    length: &'a [u8],
    digest: &'a [u8],
}

/// A row for each text: where it is, how many bytes it has, and its SHA-256. An error comes where memory is refused.
pub fn rows_of(alloc: Global, texts: &ListTexts<'_>) -> Result<Vec<u8>, AllocError>
    ensures { IfOk result (λ rows. rows.items ≡ rows_text (texts_of texts.now)) }
{
    let puzzle_length = length_of(alloc, texts.puzzle)?;
    let puzzle_digest = digest_of(alloc, texts.puzzle)?;
    let list_length = length_of(alloc, texts.list)?;
    let list_digest = digest_of(alloc, texts.list)?;
    let certificate_length = length_of(alloc, texts.certificate)?;
    let certificate_digest = digest_of(alloc, texts.certificate)?;
    let puzzle = Told {
        place: place_of(texts.puzzle),
        length: &puzzle_length,
        digest: &puzzle_digest,
    };
    let list = Told {
        place: place_of(texts.list),
        length: &list_length,
        digest: &list_digest,
    };
    let certificate = Told {
        place: place_of(texts.certificate),
        length: &certificate_length,
        digest: &certificate_digest,
    };
    let rows = rows_by(alloc, &puzzle, &list, &certificate)?;
    Ok(rows)
}

// The rows with what they tell.
fn rows_by(
    alloc: Global,
    puzzle: &Told<'_>,
    list: &Told<'_>,
    certificate: &Told<'_>,
) -> Result<Vec<u8>, AllocError>
    ensures { IfOk result (λ rows. rows.items ≡ rows_with (row_in puzzle.now) (row_in list.now) (row_in certificate.now)) }
{
    join(
        alloc,
        &[
            fixed::BEFORE_PUZZLE_PLACE,
            puzzle.place,
            fixed::BEFORE_PUZZLE_LENGTH,
            puzzle.length,
            fixed::BEFORE_PUZZLE_DIGEST,
            puzzle.digest,
            fixed::BEFORE_LIST_PLACE,
            list.place,
            fixed::BEFORE_LIST_LENGTH,
            list.length,
            fixed::BEFORE_LIST_DIGEST,
            list.digest,
            fixed::BEFORE_CERTIFICATE_PLACE,
            certificate.place,
            fixed::BEFORE_CERTIFICATE_LENGTH,
            certificate.length,
            fixed::BEFORE_CERTIFICATE_DIGEST,
            certificate.digest,
        ],
    )
}

// How many bytes a text has, in decimal.
fn length_of(alloc: Global, text: &[u8]) -> Result<Vec<u8>, AllocError>
    ensures { IfOk result (λ digits. digits.items ≡ decimal (length text.now)) }
{
    digits(alloc, text.len() as u64)
}

// The SHA-256 of a text, in hex digits, the letters of them small.
fn digest_of(alloc: Global, text: &[u8]) -> Result<Vec<u8>, AllocError>
    ensures { IfOk result (λ digits. digits.items ≡ encode_lower (sha256 text.now)) }
{
    let digest = Sha256::digest(text);
    let digits = hex::encode(alloc, &digest)?;
    let mut text = Vec::new(alloc);
    text.extend_from_slice(digits.as_bytes())?;
    Ok(text)
}
