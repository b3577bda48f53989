//! A list's lines, written by a crew.

ghost use Rattle.std.specs.Prelude.{◌≡◌, ◌≤◌, IfOk, length};
ghost use Rattle.std.specs.List.{flat_map};
ghost use Rattle.match_limits.specs.declared.TheConstants.{MOST_WORKERS};
ghost use Rattle.match_limits.specs.declared.ranges.TheConstants.{SECOND};
ghost use Rattle.match_text.specs.ListSpelling.{IsListText, IsListWithin};
ghost use Rattle.match_text.specs.RowLines.{AreParts};
ghost use Rattle.cert_text.specs.LemmaParts.{AreStarts};

use crate::parts::between;
use match_puzzle::Arrangement;
use match_text::{RowLines, list_front, write_rows};
use std::alloc::{AllocError, Global};
use std::thread::Threads;
use steal_crew::{Work, run_from_last};

// More parts than workers, so that a worker that began late takes fewer.
const PARTS_FOR_EACH: usize = 8;

// No more parts than the most workers take.
const MOST_PARTS: usize = 1_024;

// Where the parts begin, with `each` arrangements in each but the last, followed by how many arrangements there are.
fn starts_of(alloc: Global, count: usize, each: usize) -> Result<Vec<usize>, AllocError>
    ensures { IfOk result (λ starts. AreStarts count starts.items) }
{
    let mut starts = Vec::new(alloc);
    starts.push(0)?;
    let mut in_part: usize = 0;
    for number in 0..count {
        in_part = in_part.saturating_add(1);
        if in_part >= each && starts.len() < MOST_PARTS {
            starts.push(number + 1)?;
            in_part = 0;
        }
    }
    starts.push(count)?;
    Ok(starts)
}

// The lines of a list: a job for each part.
#[derive(Drop)]
struct ListParts<'a> {
    alloc: Global,
    list: &'a [Arrangement],
    // where each part begins, and where the last one ends
    starts: Vec<usize>,
}

impl<'a> Work for ListParts<'a> {
    ghost use Rattle.std.specs.Prelude.{◌<◌, ◌+◌, length};
    ghost use Rattle.match_text.specs.RowLines.{AreLinesOf};
    ghost use Rattle.cert_text.specs.LemmaParts.{AreStarts};
    ghost use Rattle.text_crew.specs.Texts.{rows_of_part};

    type R = RowLines;

    ghost accepts = { λ w n. AreStarts (length w.list.now) w.starts.items × (n + 1 < length w.starts.items) };

    ghost gives = { λ w n lines. AreLinesOf (rows_of_part w.list.now w.starts.items n) lines };

    fn one(&self, number: u32) -> Result<RowLines, AllocError> {
        let place = number as usize;
        let rows = &self.list[self.starts[place]..self.starts[place + 1]];
        write_rows(self.alloc, rows)
    }
}

// The lines of the list, in parts with the same number of arrangements, written by `workers` workers.
fn write_row_parts<R: Threads + Sync>(
    rt: &R,
    alloc: Global,
    list: &[Arrangement],
    workers: u8,
) -> Result<Vec<RowLines>, AllocError>
    requires { (1 ≤ workers) × (workers ≤ MOST_WORKERS) }
    ensures { IfOk result (λ parts. AreParts list.now parts.items) }
{
    let each = list.len() / (usize::from(workers) * PARTS_FOR_EACH);
    let starts = starts_of(alloc, list.len(), each)?;
    let count = (starts.len() - 1) as u32;
    let work = ListParts {
        alloc,
        list,
        starts,
    };
    run_from_last(rt, alloc, &work, count, workers)
}

// The lines of all parts.
fn texts_of(alloc: Global, parts: Vec<RowLines>) -> Result<Vec<Vec<u8>>, AllocError>
    ensures { IfOk result (λ texts. flat_map (λ text. text.items) texts.items
        ≡ flat_map (λ part. part.text.items) parts.items) }
{
    let mut texts = Vec::new(alloc);
    for part in parts {
        texts.push(part.text)?;
    }
    Ok(texts)
}

/// Writes what [`write_list`](match_text::write_list) writes, in parts, by `workers` workers.
pub(crate) fn write_list_with<R: Threads + Sync>(
    rt: &R,
    alloc: Global,
    list: &[Arrangement],
    workers: u8,
) -> Result<Vec<Vec<u8>>, AllocError>
    requires list { IsListWithin SECOND list.now }
    requires workers { (1 ≤ workers) × (workers ≤ MOST_WORKERS) }
    ensures { IfOk result (λ texts. IsListText list.now (flat_map (λ text. text.items) texts.items)) }
{
    let parts = write_row_parts(rt, alloc, list, workers)?;
    let front = list_front(alloc, list, &parts)?;
    let lines = texts_of(alloc, parts)?;
    between(alloc, front, lines)
}
