//! What changes when a pair is placed: what no longer fits leaves the rows and the counts.

ghost use Rattle.std.specs.Prelude.{◌≡◌, ◌<◌, ◌+◌};
ghost use Rattle.match_board.specs.Board.{side_count};
ghost use Rattle.match_puzzle.specs.Puzzle.{colour_of, mate_of};
ghost use Rattle.match_puzzle.specs.Fitting.{Fits};
ghost use Rattle.fit_counts.specs.Counts.{AreCounts, AreCountsBeside, AreCountsElsewhere, AreCountsToCover, with_one};

use crate::fit_rows::FitRows;
use crate::fit_sizes::{COVERED, STEP, lower_cells, lower_tiles};
use match_limits::{MOST_COLOURS, NumberSet};
use match_puzzle::{Pair, Partial};

/// What fits beside the placed pairs: a row for each cell, and how many pairs settle each item.
#[derive(Drop)]
pub(crate) struct Counts {
    pub(crate) rows: FitRows,
    pub(crate) sizes: Vec<u32>,
}

impl Counts {
    /// Changes the rows and counts to what they are with one pair more. It has to fit, and is not placed yet.
    pub(crate) fn take_out(&mut self, partial: &Partial<'_>, pair: Pair)
        requires fits { Fits partial.now.puzzle partial.now.placed pair.cell pair.placement }
        requires counts { AreCounts partial.now self.old }
        ensures { AreCounts (with_one partial.now pair) self.new }
    {
        let cells = usize::from(partial.puzzle().board().cells());
        self.take_out_cell(partial, pair);
        self.rows.clear(pair.cell);
        // the other pairs of the tile
        lower_cells(&mut self.sizes, &self.rows, pair.placement.tile);
        self.take_out_beside(partial, pair);
        self.sizes[usize::from(pair.cell)] = COVERED;
        self.sizes[cells + usize::from(pair.placement.tile)] = COVERED;
    }

    // Takes the other pairs of the cell out of the counts.
    fn take_out_cell(&mut self, partial: &Partial<'_>, pair: Pair)
        requires fits { Fits partial.now.puzzle partial.now.placed pair.cell pair.placement }
        requires counts { AreCounts partial.now self.old }
        ensures rows { self.new.rows ≡ self.old.rows }
        ensures sizes { AreCountsElsewhere partial.now pair self.new }
    {
        let cells = usize::from(partial.puzzle().board().cells());
        let mut gone = NumberSet::new();
        gone.put_both(self.rows.at(pair.cell), partial.free());
        gone.remove_group(pair.placement.tile);
        lower_tiles(&mut self.sizes, cells, &gone);
    }

    // Takes out of the rows and the counts the pairs at neighbouring cells that don't go together with this one.
    fn take_out_beside(&mut self, partial: &Partial<'_>, pair: Pair)
        requires fits { Fits partial.now.puzzle partial.now.placed pair.cell pair.placement }
        requires counts { AreCountsBeside partial.now pair 0 self.old }
        ensures { AreCountsToCover partial.now pair self.new }
    {
        let asked = partial.puzzle().asked_by(pair.placement);
        for side in 0..partial.puzzle().board().sides() {
            self.take_out_side(partial, pair, side, asked[usize::from(side)]);
        }
    }

    // Of the pairs at the cell that the side meets, takes out those that don't show there what the side asks.
    fn take_out_side(&mut self, partial: &Partial<'_>, pair: Pair, side: u8, asked: u8)
        requires fits { Fits partial.now.puzzle partial.now.placed pair.cell pair.placement }
        requires side { side < side_count partial.now.puzzle.board }
        requires asked { asked ≡ mate_of partial.now.puzzle (colour_of partial.now.puzzle pair.placement side) }
        requires few { asked < MOST_COLOURS }
        requires counts { AreCountsBeside partial.now pair side self.old }
        ensures { AreCountsBeside partial.now pair (side + 1) self.new }
    {
        let puzzle = partial.puzzle();
        if let Some((cell, met)) = puzzle.meets(pair.cell, side) {
            // no pair fits at a cell that is filled
            if partial.at(cell).is_some() {
                return;
            }
            let kept = puzzle.showing(asked, met);
            let mut gone = NumberSet::new();
            gone.put_without(self.rows.at(cell), kept, partial.free());
            gone.remove_group(pair.placement.tile);
            self.rows.keep(cell, kept);
            self.sizes[usize::from(cell)] -= STEP * u32::from(gone.len());
            lower_tiles(&mut self.sizes, self.rows.len(), &gone);
        }
    }
}
