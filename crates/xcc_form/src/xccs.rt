//! Puzzles compiled to exact covers with colours.

ghost use Rattle.std.specs.Prelude.{◌≡◌, ◌<◌, ◌≤◌, ◌*◌, ◌/◌, IfOk, IsErrOf, MatchOption, Some, length, slice_get};
ghost use Rattle.match_board.specs.Board.{cell_count};
ghost use Rattle.match_puzzle.specs.Puzzle.{IsPuzzle};
ghost use Rattle.xcc_form.specs.Options.{IsCompiled, IsOptionPair, HasTooManyEntries, Choice, entries_of, primary_count};
ghost use Rattle.xcc_form.specs.Correspondence.{IsPairOf};

use crate::edges::{Edge, SharedEdge, shared_edges};
use crate::faults::CompileFault;
use crate::lists::OptionLists;
use crate::numbers::{number_of, option_numbers};
use match_limits::{MOST_CELLS, MOST_ENTRIES, MOST_TURNS};
use match_puzzle::{Pair, Placement, Puzzle};
use std::alloc::Global;
use std::marker::Model;

/// A puzzle as an exact cover with colours (Knuth, TAOCP 4B, 7.2.2.1). It borrows the puzzle.
///
/// Items are numbered from 0, in this order:
///
/// - primary items: the cells, then the tiles
/// - secondary items: the shared edges, by their lesser (cell, side)
///
/// There is one option for each cell and each legal placement that shows there what the border and clues ask. Options
/// are numbered from 0, by cell, then by tile, then by turn. The items of an option are its cell, its tile, and each
/// shared edge of the cell. The edge has a colour: what the placement shows at the edge's lesser (cell, side), or the
/// mate of what it shows at the other.
#[derive(Drop)]
pub struct Xcc<'a> {
    puzzle: &'a Puzzle,
    shared: Vec<SharedEdge>,
    options: OptionLists,
    numbers: Vec<Option<u32>>,
}

impl<'a> Model for Xcc<'a> {
    ghost use Rattle.xcc_form.specs.Options.{Compiled};
    ghost use Rattle.xcc_form.specs.Layout.{choices_from, IsKept};

    ghost Value = { Compiled };

    ghost view = { λ x. record {
      puzzle = x.puzzle.now;
      shared = x.shared.items;
      options = choices_from 0 x.options.pairs.items x.options.starts.items x.options.edges.items;
    } };

    ghost invariant = { λ x. IsKept x.puzzle.now x.shared.items
        x.options.pairs.items x.options.starts.items x.options.edges.items x.numbers.items };
}

/// Compiles the puzzle to an exact cover with colours.
///
/// `TooMany` comes where the options have over 200,000 items together. `Memory` comes where a vector cannot grow before
/// that is known, or memory for the table of options is refused.
pub fn compile(alloc: Global, puzzle: &Puzzle) -> Result<Xcc<'_>, CompileFault>
    ensures puzzle { IfOk result (λ x. x.puzzle ≡ puzzle.now) }
    ensures compiled { IfOk result IsCompiled }
    ensures few { IfOk result (λ x. entries_of x ≤ MOST_ENTRIES) }
    ensures too_many { IsErrOf result CompileFault.TooMany → HasTooManyEntries puzzle.now }
{
    let shared = shared_edges(alloc, puzzle)?;
    let options = OptionLists::new(alloc, puzzle, &shared)?;
    if 2 * options.pairs.len() + options.edges.len() > MOST_ENTRIES {
        return Err(CompileFault::TooMany);
    }
    let numbers = option_numbers(alloc, puzzle, &options.pairs)?;
    Ok(Xcc {
        puzzle,
        shared,
        options,
        numbers,
    })
}

impl<'a> Xcc<'a> {
    /// Returns the puzzle that this was compiled from.
    pub fn puzzle(&self) -> &'a Puzzle
        ensures value { result.now ≡ self.now.puzzle }
        ensures compiled { IsCompiled self.now }
    {
        self.puzzle
    }

    /// Returns how many cells there are. They are the first items.
    pub fn cells(&self) -> u16
        ensures count { result ≡ cell_count self.now.puzzle.board }
        ensures most { result ≤ MOST_CELLS }
        ensures puzzle { IsPuzzle self.now.puzzle }
    {
        self.puzzle.board().cells()
    }

    /// How many primary items there are: cells, and tiles where all have to stand, at most 512.
    pub fn primaries(&self) -> u32
        ensures count { result ≡ primary_count self.now.puzzle }
        ensures few { result ≤ 2 * MOST_CELLS }
    {
        let cells = u32::from(self.cells());
        if self.puzzle.have_all_to_stand() {
            cells + u32::from(self.puzzle.tile_count())
        } else {
            cells
        }
    }

    /// Returns how many secondary items there are: shared edges, at most 1,024.
    pub fn secondaries(&self) -> u32
        ensures count { result ≡ length self.now.shared }
        ensures few { result ≤ 4 * MOST_CELLS }
    {
        self.shared.len() as u32
    }

    /// Returns how many options there are, at most 100,000.
    pub fn options(&self) -> u32
        ensures count { result ≡ length self.now.options }
        ensures few { result ≤ MOST_ENTRIES / 2 }
    {
        self.options.pairs.len() as u32
    }

    /// Returns how many items all options have together, at most 200,000.
    pub fn entries(&self) -> u32
        ensures count { result ≡ entries_of self.now }
        ensures few { result ≤ MOST_ENTRIES }
    {
        (2 * self.options.pairs.len() + self.options.edges.len()) as u32
    }

    /// Returns the cell and the placement of an option.
    pub fn pair(&self, option: u32) -> Pair
        requires { option < length self.now.options }
        ensures { IsPairOf self.now option result }
    {
        self.options.pairs[option as usize]
    }

    /// Returns the option of a pair. It exists where the placement is legal and shows at the cell what is asked there.
    pub fn option_of(&self, pair: Pair) -> Option<u32>
        ensures { MatchOption result (IsOptionPair self.now.puzzle pair → ⊥) (λ option. IsPairOf self.now option pair) }
    {
        let tiles = self.puzzle.tile_count();
        let Placement { tile, turn } = pair.placement;
        if pair.cell >= self.cells() || tile >= tiles || turn >= MOST_TURNS {
            return None;
        }
        self.numbers[number_of(tiles, pair)]
    }

    /// Returns the secondary items of an option with their colours, in the order of items.
    pub fn edges(&self, option: u32) -> &[Edge]
        requires { option < length self.now.options }
        ensures { (c : Choice) × (slice_get self.now.options option ≡ Some c) × (c.edges ≡ result.now) }
    {
        let starts = &self.options.starts;
        let option = option as usize;
        &self.options.edges[starts[option] as usize..starts[option + 1] as usize]
    }
}
