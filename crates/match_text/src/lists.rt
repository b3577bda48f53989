//! Reads lists of arrangements.

ghost use Rattle.std.specs.Prelude.{◌≡◌, ◌+◌, ◌<◌, ◌^◌, ℕ, List, Ok, Err, IfOk, IfSome, length, take};
ghost use Rattle.match_limits.specs.Ranges.{AreRanges};
ghost use Rattle.match_limits.specs.declared.ranges.TheConstants.{SECOND};
ghost use Rattle.text_words.specs.Words.{placement_in};
ghost use Rattle.text_words.specs.Place.{Reads, Says, entries, some_entries, times, fail};
ghost use Rattle.match_puzzle.specs.declared.placements.Placement.{Placement as PlacementOf};
ghost use Rattle.text_words.specs.Bytes.{line_ends};
ghost use Rattle.text_words.specs.declared.faults.TextKind.TheVariants as kinds;
ghost use Rattle.match_text.specs.ListSpelling.{list_spelling, IsListWithin, IsSpelledIn};
ghost use Rattle.match_text.specs.Lists.{arrangement_line, list_text, list_of, list_said, said_of};

use crate::faults::ListTextFault;
use match_limits::{MOST_ARRANGEMENTS, Ranges, ranges_of};
use match_puzzle::{Arrangement, Placement};
use std::alloc::Global;
use text_words::{FaultPlace, ReadFault, Scan};

// The bytes of a line of two placements.
const SHORT_LINE: usize = 8;

// What a text says of a list.
#[derive(Drop)]
struct ListText {
    version: u8,
    rows: Vec<Arrangement>,
}

// The rest of the line, in place of what the row had.
fn placements(scan: &mut Scan, ranges: &Ranges, row: &mut Vec<Placement>) -> Result<(), ReadFault>
    requires { AreRanges ranges.now }
    ensures { Reads (λ _. row.new.items) result scan.new
        (entries ranges.now.most_cells (placement_in ranges.now) scan.old) }
{
    row.clear();
    while scan.has_word() {
        scan.further_entry(row.len(), ranges.most_cells)?;
        let placement = scan.placement(ranges)?;
        row.push(placement)?;
    }
    Ok(())
}

#[tactic(auto, unfolding(text_words::specs::Place::some_entries))]
fn some_placements(
    scan: &mut Scan,
    ranges: &Ranges,
    row: &mut Vec<Placement>,
) -> Result<(), ReadFault>
    requires { AreRanges ranges.now }
    ensures { Reads (λ _. row.new.items) result scan.new
        (some_entries ranges.now.most_cells (placement_in ranges.now) scan.old) }
{
    scan.some_word()?;
    placements(scan, ranges, row)
}

// The row is read first, since an arrangement is kept with no spare room.
#[tactic(auto, unfolding(crate::specs::Lists::arrangement_line))]
fn arrangement(
    alloc: Global,
    scan: &mut Scan,
    ranges: &Ranges,
    row: &mut Vec<Placement>,
) -> Result<Arrangement, ReadFault>
    requires { AreRanges ranges.now }
    ensures { Reads (λ arrangement. arrangement) result scan.new (arrangement_line ranges.now scan.old) }
{
    scan.next_line()?;
    some_placements(scan, ranges, row)?;
    scan.end_of_line()?;
    let placements = Vec::from_slice(alloc, row)?;
    Ok(Arrangement::new(placements))
}

// Room is taken for as many arrangements as the text ahead has short lines, whatever the count says.
fn arrangements(
    alloc: Global,
    scan: &mut Scan,
    ranges: &Ranges,
    count: u32,
) -> Result<Vec<Arrangement>, ReadFault>
    requires { AreRanges ranges.now }
    ensures { Reads (λ rows. rows.items) result scan.new (times count (arrangement_line ranges.now) scan.old) }
{
    let room = (scan.bytes_ahead() / SHORT_LINE).min(count as usize);
    let mut rows = Vec::with_capacity(alloc, room)?;
    let mut row = Vec::new(alloc);
    for _ in 0..count {
        let arrangement = arrangement(alloc, scan, ranges, &mut row)?;
        rows.push(arrangement)?;
    }
    Ok(rows)
}

#[tactic(auto, unfolding(crate::specs::Lists::list_text))]
fn whole(alloc: Global, scan: &mut Scan) -> Result<ListText, ReadFault>
    ensures { Reads said_of result scan.new (list_text scan.old) }
{
    let version = scan.opening(b"list")?;
    let count = scan.counted(b"arrangements", 0, MOST_ARRANGEMENTS)?;
    let rows = arrangements(alloc, scan, &ranges_of(version), count)?;
    scan.closing()?;
    Ok(ListText { version, rows })
}

#[tactic(auto, unfolding(crate::specs::Lists::list_of, crate::specs::Lists::list_said))]
fn read_text(alloc: Global, text: &[u8]) -> Result<Vec<Arrangement>, ReadFault>
    requires { length text.now + 1 < 2 ^ 32 }
    ensures { Says (λ rows. rows.items) result (list_of text.now) }
{
    let mut scan = Scan::new(text);
    let said = whole(alloc, &mut scan)?;
    Ok(said.rows)
}

/// Where the text of a list has its first fault. `None` where it has no fault, or memory is refused.
#[tactic(auto, unfolding(crate::specs::Lists::list_of, crate::specs::Lists::list_said))]
pub fn list_fault_place(alloc: Global, text: &[u8]) -> Option<FaultPlace<'_>>
    requires { length text.now + 1 < 2 ^ 32 }
    ensures { IfSome result (λ place. list_of text.now ≡ Err place.fault) }
{
    let mut scan = Scan::new(text);
    match whole(alloc, &mut scan) {
        Err(ReadFault::Text(fault)) => Some(scan.fault_place(fault)),
        _ => None,
    }
}

/// The arrangements that a text lists. An `Err` is the text's first fault, or `Memory` where memory is refused.
pub fn read_list(alloc: Global, text: &[u8]) -> Result<Vec<Arrangement>, ListTextFault>
    requires { length text.now + 1 < 2 ^ 32 }
    // Which list, and which fault.
    ensures exact { Says (λ rows. rows.items) result (list_of text.now) }
    // What is read is spelled so.
    ensures found { IfOk result (λ rows. (version : ℕ) × IsSpelledIn version rows.items
        × (text.now ≡ list_spelling version rows.items)) }
    // It can be written.
    ensures within { IfOk result (λ rows. IsListWithin SECOND rows.items) }
    // What is spelled so is read.
    ensures only { (version : ℕ) (rows : List (List PlacementOf)) → IsSpelledIn version rows
        → text.now ≡ list_spelling version rows → Says (λ rows. rows.items) result (Ok rows) }
    // A spelling that is cut short ends at its last line.
    ensures cut { (version : ℕ) (rows : List (List PlacementOf)) (k : ℕ) → IsSpelledIn version rows
        → k < length (list_spelling version rows) → text.now ≡ take k (list_spelling version rows)
        → Says (λ rows. rows.items) result (fail (line_ends text.now + 1) kinds.Ends) }
{
    read_text(alloc, text)
}
