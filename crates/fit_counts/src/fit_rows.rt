//! For each cell, the placements that show there what is asked: by the border, the clues and the placed neighbours.

ghost use Rattle.std.specs.Prelude.{◌≡◌, ◌<◌, ◌/◌, ◌%◌, ◌*◌, ◌+◌, ℕ, List, [], Contains, IfOk, length, replicate};
ghost use Rattle.std.specs.Prelude.{slice_index_or, slice_set};
ghost use Rattle.match_board.specs.Board.{cell_count};
ghost use Rattle.match_limits.specs.Listing.{IsListing};
ghost use Rattle.match_puzzle.specs.Prefix.{IsFree};
ghost use Rattle.fit_counts.specs.FitRows.{IsRow, AreRows, AreRowsElsewhere, AreOpenRows};

use match_limits::{FixedSet, MOST_TILES, Members, NumberSet};
use match_puzzle::Partial;
use std::alloc::{AllocError, Global};
use std::marker::Model;

/// A row for each cell of a board: placements by number, with four turns to a tile.
#[derive(Drop)]
pub(crate) struct FitRows {
    rows: Vec<NumberSet>,
    // the rows of all other cells are empty
    open_cells: NumberSet,
}

impl Model for FitRows {
    ghost use Rattle.std.specs.Prelude.{ℕ, List};
    ghost use Rattle.fit_counts.specs.FitRows.{AreOpenRows};

    ghost Value = { List (List ℕ) };

    ghost view = { λ r. r.rows.items };

    ghost invariant = { λ r. AreOpenRows r.rows.items r.open_cells };
}

impl FitRows {
    /// Makes the rows. The row of an open cell has all legal placements that show there what is asked, whether their
    /// tiles are used or not; that of a filled cell is empty.
    pub(crate) fn new(alloc: Global, partial: &Partial<'_>) -> Result<FitRows, AllocError>
        ensures { IfOk result (AreRows partial.now.puzzle partial.now.placed) }
    {
        let cells = partial.puzzle().board().cells();
        let mut rows = FitRows {
            rows: empty_rows(alloc, cells)?,
            open_cells: NumberSet::new(),
        };
        for cell in 0..cells {
            rows.put(partial, cell);
        }
        Ok(rows)
    }

    /// How many rows there are, one for each cell.
    pub(crate) fn len(&self) -> usize
        ensures { result ≡ length self.now }
    {
        self.rows.len()
    }

    /// The row of the cell.
    #[inline]
    pub(crate) fn at(&self, cell: u16) -> &NumberSet
        requires { cell < length self.now }
        ensures { result.now ≡ slice_index_or self.now cell [] }
    {
        &self.rows[usize::from(cell)]
    }

    /// Some cells; the rows of all others are empty.
    #[inline]
    pub(crate) fn open_cells(&self) -> Members<'_>
        ensures { AreOpenRows self.now result }
    {
        self.open_cells.members()
    }

    /// Which rows have placements of the tile: the number 4 c + r where the row of cell c has its turn r.
    pub(crate) fn places_of(&self, tile: u16) -> NumberSet
        requires { tile < MOST_TILES }
        ensures { IsListing ◌<◌ (λ n. (n / 4 < length self.now)
            × Contains (slice_index_or self.now (n / 4) []) (4 * tile + n % 4)) result }
    {
        let mut places = NumberSet::new();
        for cell in 0..self.rows.len() as u16 {
            places.put_group(cell, self.at(cell).group(tile));
        }
        places
    }

    /// Empties the row of the cell.
    pub(crate) fn clear(&mut self, cell: u16)
        requires { cell < length self.old }
        ensures { self.new ≡ slice_set self.old cell [] }
    {
        self.rows[usize::from(cell)].clear();
        self.open_cells.remove(cell);
    }

    /// Removes from the row of the cell what is not in the set.
    pub(crate) fn keep(&mut self, cell: u16, kept: &FixedSet)
        requires { cell < length self.old }
        ensures { (row : List ℕ)
            × IsListing ◌<◌ (λ n. Contains (slice_index_or self.old cell []) n × Contains kept.now n) row
            × (self.new ≡ slice_set self.old cell row) }
    {
        self.rows[usize::from(cell)].keep(kept);
    }

    /// Makes the rows of this cell and of those that it meets. All other rows have to be right already.
    pub(crate) fn put_beside(&mut self, partial: &Partial<'_>, cell: u16)
        requires cell { cell < cell_count partial.now.puzzle.board }
        requires others { AreRowsElsewhere partial.now.puzzle partial.now.placed cell self.old }
        ensures { AreRows partial.now.puzzle partial.now.placed self.new }
    {
        self.put(partial, cell);
        for side in 0..partial.puzzle().board().sides() {
            if let Some((other, _)) = partial.puzzle().meets(cell, side) {
                self.put(partial, other);
            }
        }
    }

    // Makes the row of the cell.
    fn put(&mut self, partial: &Partial<'_>, cell: u16)
        requires cell { cell < cell_count partial.now.puzzle.board }
        requires row { cell < length self.old }
        ensures { (row : List ℕ) × IsRow partial.now.puzzle partial.now.placed cell row
            × (self.new ≡ slice_set self.old cell row) }
    {
        if partial.at(cell).is_some() {
            self.clear(cell);
            return;
        }
        put_common(partial, cell, &mut self.rows[usize::from(cell)]);
        self.open_cells.put(cell);
    }
}

// Makes `count` empty rows.
fn empty_rows(alloc: Global, count: u16) -> Result<Vec<NumberSet>, AllocError>
    ensures { IfOk result (λ v. v.items ≡ replicate count []) }
{
    let mut rows = Vec::with_capacity(alloc, usize::from(count))?;
    for _ in 0..count {
        rows.push(NumberSet::new())?;
    }
    Ok(rows)
}

// Makes this the row of a free cell: the legal placements that show what each side asks, whether tiles are used or not.
fn put_common(partial: &Partial<'_>, cell: u16, row: &mut NumberSet)
    requires cell { cell < cell_count partial.now.puzzle.board }
    requires free { IsFree partial.now.placed cell }
    ensures { IsRow partial.now.puzzle partial.now.placed cell row.new }
{
    row.put_common(
        partial.puzzle().legal_numbers(),
        partial.as_asked(cell, 0),
        partial.as_asked(cell, 1),
        partial.as_asked(cell, 2),
        partial.as_asked(cell, 3),
    );
}
