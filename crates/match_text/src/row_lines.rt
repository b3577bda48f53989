//! Writes the lines of a list's arrangements in parts, so that several threads can share the work.

ghost use Rattle.std.specs.Prelude.{◌≡◌, ◌⊎◌, Ok, IfOk, true, MatchBool};
ghost use Rattle.std.specs.List.{AllByRecursion};
ghost use Rattle.match_limits.specs.declared.ranges.TheConstants.{SECOND};
ghost use Rattle.match_text.specs.Lists.{list_of};
ghost use Rattle.match_text.specs.ListSpelling.{IsListText, IsListWithin};
ghost use Rattle.match_text.specs.RowLines.{AreLinesOf, AreParts, whole_text};

use crate::list_spellings::{are_rows_within, heading, put_rows};
use match_limits::FIRST;
use match_puzzle::Arrangement;
use std::alloc::{AllocError, Global};

/// The lines of some arrangements, one after the other.
#[derive(Drop)]
pub struct RowLines {
    /// Whether all numbers in them are within the ranges of version 1.
    pub is_first: bool,
    pub text: Vec<u8>,
}

/// The lines of these arrangements, as a list has them.
pub fn write_rows(alloc: Global, rows: &[Arrangement]) -> Result<RowLines, AllocError>
    ensures { IfOk result (AreLinesOf rows.now) }
{
    let is_first = are_rows_within(&FIRST, rows);
    let mut text = Vec::new(alloc);
    put_rows(&mut text, rows)?;
    Ok(RowLines { is_first, text })
}

// Whether version 1 has the numbers for all parts.
fn are_all_first(parts: &[RowLines]) -> bool
    ensures { MatchBool result (AllByRecursion (λ part. part.is_first ≡ true) parts.now)
        (AllByRecursion (λ part. part.is_first ≡ true) parts.now → ⊥) }
{
    parts.iter().all(|part| part.is_first)
}

// The first version that has the numbers for all parts.
fn version_of(parts: &[RowLines]) -> u8
    ensures { ((result ≡ 1) × AllByRecursion (λ part. part.is_first ≡ true) parts.now)
        ⊎ ((result ≡ 2) × (AllByRecursion (λ part. part.is_first ≡ true) parts.now → ⊥)) }
{
    if are_all_first(parts) { 1 } else { 2 }
}

/// The beginning of a list's text, up to its first arrangement. After it come all lines, written in parts, and then the
/// last line of the text.
pub fn list_front(
    alloc: Global,
    list: &[Arrangement],
    parts: &[RowLines],
) -> Result<Vec<u8>, AllocError>
    requires within { IsListWithin SECOND list.now }
    requires parts { AreParts list.now parts.now }
    ensures text { IfOk result (λ front. IsListText list.now (whole_text front.items parts.now)) }
    ensures reads { IfOk result (λ front. list_of (whole_text front.items parts.now) ≡ Ok list.now) }
{
    let front = heading(alloc, version_of(parts), list.len())?;
    Ok(front)
}
