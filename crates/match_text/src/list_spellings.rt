//! Writes lists of arrangements.

ghost use Rattle.std.specs.Prelude.{◌≡◌, ◌≢◌, ◌<◌, ◌≤◌, ◌++◌, [], ◌&&◌, ℕ, List, Ok, length, map};
ghost use Rattle.std.specs.Prelude.{IfOk, OnOk, MatchBool};
ghost use Rattle.std.specs.List.{AllByRecursion};
ghost use Rattle.match_text.specs.Lists.{list_of};
ghost use Rattle.text_words.specs.Spelling.{line_text, text_of, space_before, placement_word};
ghost use Rattle.text_words.specs.Within.{IsPlacementWithin};
ghost use Rattle.match_text.specs.ListSpelling.{arrangement_words, list_head, list_spelling};
ghost use Rattle.match_text.specs.ListSpelling.{IsRowWithin, IsListWithin};

use match_limits::{FIRST, LAST_TURN, MOST_ARRANGEMENTS, Ranges, SECOND};
use match_puzzle::{Arrangement, Placement};
use std::alloc::{AllocError, Global};
use text_words::{put_end, put_number_line, put_placement};

fn is_placement_within(ranges: &Ranges, placement: &Placement) -> bool
    ensures { MatchBool result (IsPlacementWithin ranges.now placement.now)
        (IsPlacementWithin ranges.now placement.now → ⊥) }
{
    placement.tile <= ranges.last_cell && placement.turn <= LAST_TURN
}

fn are_placements_within(ranges: &Ranges, row: &[Placement]) -> bool
    ensures { MatchBool result (AllByRecursion (IsPlacementWithin ranges.now) row.now)
        (AllByRecursion (IsPlacementWithin ranges.now) row.now → ⊥) }
{
    row.iter()
        .all(|placement| is_placement_within(ranges, placement))
}

fn is_row_within(ranges: &Ranges, row: &Arrangement) -> bool
    ensures { MatchBool result (IsRowWithin ranges.now row.now) (IsRowWithin ranges.now row.now → ⊥) }
{
    let placements = row.placements();
    let count = placements.len();
    count > 0
        && (count <= usize::from(ranges.most_cells) && are_placements_within(ranges, placements))
}

pub(crate) fn are_rows_within(ranges: &Ranges, rows: &[Arrangement]) -> bool
    ensures { MatchBool result (AllByRecursion (IsRowWithin ranges.now) rows.now)
        (AllByRecursion (IsRowWithin ranges.now) rows.now → ⊥) }
{
    rows.iter().all(|row| is_row_within(ranges, row))
}

fn is_list_within(ranges: &Ranges, rows: &[Arrangement]) -> bool
    ensures { MatchBool result (IsListWithin ranges.now rows.now) (IsListWithin ranges.now rows.now → ⊥) }
{
    rows.len() <= MOST_ARRANGEMENTS as usize && are_rows_within(ranges, rows)
}

/// Whether the list can be written as a text: it has at most 1,000,000 arrangements, each with at least one placement,
/// and all numbers are within the ranges of version 2.
pub fn list_within_limits(list: &[Arrangement]) -> bool
    ensures within { MatchBool result (IsListWithin SECOND list.now) (IsListWithin SECOND list.now → ⊥) }
    ensures spelled { MatchBool result ((text : List ℕ) × (list_of text ≡ Ok list.now))
        ((text : List ℕ) → list_of text ≢ Ok list.now) }
{
    is_list_within(&SECOND, list)
}

// The placement, behind a space if it isn't the first of its line.
fn put_next(text: &mut Vec<u8>, index: usize, placement: Placement) -> Result<(), AllocError>
    ensures { OnOk result (text.new.items ≡ text.old.items ++ (space_before index ++ placement_word placement)) }
{
    if index > 0 {
        text.push(b' ')?;
    }
    put_placement(text, placement)?;
    Ok(())
}

#[tactic(auto, unfolding(text_words::specs::Spelling::line_text))]
fn put_row(text: &mut Vec<u8>, row: &[Placement]) -> Result<(), AllocError>
    ensures { OnOk result (text.new.items ≡ text.old.items ++ line_text (arrangement_words row.now)) }
{
    for (index, placement) in row.iter().enumerate() {
        put_next(text, index, *placement)?;
    }
    text.push(b'\n')?;
    Ok(())
}

pub(crate) fn put_rows(text: &mut Vec<u8>, rows: &[Arrangement]) -> Result<(), AllocError>
    ensures { OnOk result (text.new.items ≡ text.old.items ++ text_of (map arrangement_words rows.now)) }
{
    for row in rows {
        put_row(text, row.placements())?;
    }
    Ok(())
}

// The lines that come before the arrangements in a list of `count` arrangements, in this version.
pub(crate) fn heading(alloc: Global, version: u8, count: usize) -> Result<Vec<u8>, AllocError>
    ensures { IfOk result (λ text. text.items ≡ text_of (list_head version count)) }
{
    let mut text = Vec::new(alloc);
    put_number_line(&mut text, b"list", u64::from(version))?;
    put_number_line(&mut text, b"arrangements", count as u64)?;
    Ok(text)
}

// The text of the list in this version.
fn list_text(alloc: Global, version: u8, list: &[Arrangement]) -> Result<Vec<u8>, AllocError>
    requires { length list.now ≤ MOST_ARRANGEMENTS }
    ensures { IfOk result (λ text. text.items ≡ list_spelling version list.now) }
{
    let mut text = heading(alloc, version, list.len())?;
    put_rows(&mut text, list)?;
    put_end(&mut text)?;
    Ok(text)
}

/// The text of the list. Reading it gives the list back. It is in version 1 where all numbers are within the ranges of
/// version 1, else in version 2.
pub fn write_list(alloc: Global, list: &[Arrangement]) -> Result<Vec<u8>, AllocError>
    requires { IsListWithin SECOND list.now }
    ensures first { IsListWithin FIRST list.now → IfOk result (λ text. text.items ≡ list_spelling 1 list.now) }
    ensures second { (IsListWithin FIRST list.now → ⊥)
        → IfOk result (λ text. text.items ≡ list_spelling 2 list.now) }
    ensures reads { IfOk result (λ text. list_of text.items ≡ Ok list.now) }
{
    if is_list_within(&FIRST, list) {
        return list_text(alloc, 1, list);
    }
    list_text(alloc, 2, list)
}
