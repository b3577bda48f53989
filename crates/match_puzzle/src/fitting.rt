//! Which placements fit a partial arrangement.

ghost use Rattle.std.specs.Prelude.{◌≡◌, ◌↔◌, ◌<◌, ◌/◌, ◌%◌, ℕ, List, IfOk, IsTrue, Some, length};
ghost use Rattle.std.specs.Int.{bit_at};
ghost use Rattle.match_board.specs.Board.{cell_count};
ghost use Rattle.match_limits.specs.Listing.{IsListing, ByKey};
ghost use Rattle.match_puzzle.specs.declared.placements.Placement.{Placement as Standing};
ghost use Rattle.match_puzzle.specs.declared.placements.Pair.{Pair as StandingPair};
ghost use Rattle.match_puzzle.specs.declared.items.Item.TheVariants as items;
ghost use Rattle.match_puzzle.specs.Puzzle.{IsPuzzle};
ghost use Rattle.match_puzzle.specs.Fitting.{Fits, AreFitting, AreAsAsked, IsItem, tile_turn, turned_tile};

use crate::fitting_pairs::FittingPairs;
use crate::items::Item;
use crate::partials::Partial;
use crate::placements::{Pair, Placement};
use crate::puzzles::Puzzle;
use match_limits::{FixedSet, MOST_TURNS, NumberSet};
use std::alloc::{AllocError, Global};

impl<'a> Partial<'a> {
    /// All pairs that fit and settle the item: for a cell by tile, for a tile by cell, and then by turn.
    ///
    /// It takes no memory. For a cell it costs a few words for each side, for a tile as much for each cell.
    pub fn fitting(&self, item: Item) -> FittingPairs
        requires { IsItem self.now.puzzle item }
        ensures { AreFitting self.now.puzzle self.now.placed item result }
    {
        let mut pairs = FittingPairs::none(item);
        pairs.refill(self, item);
        pairs
    }

    /// How many pairs fit and settle the item, at most 1,024.
    pub fn count(&self, item: Item) -> u16
        requires { IsItem self.now.puzzle item }
        ensures { (xs : List StandingPair) × AreFitting self.now.puzzle self.now.placed item xs
            × (length xs ≡ result) }
    {
        let mut pairs = FittingPairs::none(item);
        pairs.refill(self, item);
        pairs.len()
    }

    // Makes the set the placements that fit at the cell: of tile t after turn r by 4 t + r.
    pub(crate) fn put_fitting_at(&self, cell: u16, numbers: &mut NumberSet)
        requires { cell < cell_count self.now.puzzle.board }
        ensures fitting { IsListing ◌<◌
            (λ n. Fits self.now.puzzle self.now.placed cell (turned_tile (n / 4) (n % 4))) numbers.new }
        ensures puzzle { IsPuzzle self.now.puzzle }
    {
        if self.at(cell).is_some() {
            numbers.clear();
            return;
        }
        numbers.put_common(
            self.free(),
            self.as_asked(cell, 0),
            self.as_asked(cell, 1),
            self.as_asked(cell, 2),
            self.as_asked(cell, 3),
        );
    }

    // Makes the set where the tile fits: at cell c after turn r by 4 c + r.
    pub(crate) fn put_fitting_of(&self, tile: u16, numbers: &mut NumberSet)
        requires { tile < length self.now.puzzle.words }
        ensures fitting { IsListing ◌<◌
            (λ n. Fits self.now.puzzle self.now.placed (n / 4) (turned_tile tile (n % 4))) numbers.new }
        ensures puzzle { IsPuzzle self.now.puzzle }
    {
        numbers.clear();
        for cell in 0..self.puzzle().board().cells() {
            numbers.put_group(cell, self.fitting_turns(cell, tile));
        }
    }

    // The turns after which the tile fits at the cell, as bits.
    fn fitting_turns(&self, cell: u16, tile: u16) -> u8
        requires cell { cell < cell_count self.now.puzzle.board }
        requires tile { tile < length self.now.puzzle.words }
        ensures few { result < 16 }
        ensures puzzle { IsPuzzle self.now.puzzle }
        ensures turns { (turn : ℕ) → turn < 4
            → (bit_at result turn ≡ 1 → Fits self.now.puzzle self.now.placed cell (turned_tile tile turn))
            × (Fits self.now.puzzle self.now.placed cell (turned_tile tile turn) → bit_at result turn ≡ 1) }
    {
        if self.at(cell).is_some() {
            return 0;
        }
        self.free().common_group(
            self.as_asked(cell, 0),
            self.as_asked(cell, 1),
            self.as_asked(cell, 2),
            self.as_asked(cell, 3),
            tile,
        )
    }

    /// The placements that show what is asked on the side of the cell, by number; all where there is no such side.
    pub fn as_asked(&self, cell: u16, side: u8) -> &FixedSet
        requires cell { cell < cell_count self.now.puzzle.board }
        requires side { side < 4 }
        ensures { AreAsAsked self.now.puzzle self.now.placed cell side result.now }
    {
        self.puzzle().showing(self.asked(cell, side), side)
    }
}

impl Puzzle {
    /// Whether the placement may be put at the cell: the cell and the tile are free, the placement is legal, and it
    /// shows what the border and clues ask, and what matches the placed neighbours.
    pub fn fits(&self, partial: &Partial<'_>, cell: u16, placement: Placement) -> bool
        requires made { partial.now.puzzle ≡ self.now }
        requires cell { cell < cell_count self.now.board }
        requires tile { placement.tile < length self.now.words }
        ensures { IsTrue result ↔ Fits self.now partial.now.placed cell placement }
    {
        let turns = partial.fitting_turns(cell, placement.tile);
        placement.turn < MOST_TURNS && turns >> placement.turn & 1 == 1
    }

    /// How many placements fit at the cell.
    pub fn count_cell(&self, partial: &Partial<'_>, cell: u16) -> u16
        requires made { partial.now.puzzle ≡ self.now }
        requires cell { cell < cell_count self.now.board }
        ensures { (xs : List Standing) × IsListing (ByKey tile_turn) (Fits self.now partial.now.placed cell) xs
            × (length xs ≡ result) }
    {
        partial.count(Item::Cell(cell))
    }

    /// How many pairs of the tile fit.
    pub fn count_tile(&self, partial: &Partial<'_>, tile: u16) -> u16
        requires made { partial.now.puzzle ≡ self.now }
        requires tile { tile < length self.now.words }
        ensures { (xs : List StandingPair) × AreFitting self.now partial.now.placed (items.Tile tile) xs
            × (length xs ≡ result) }
    {
        partial.count(Item::Tile(tile))
    }

    /// The placements that fit at the cell, by tile, then by turn.
    pub fn fits_cell(
        &self,
        alloc: Global,
        partial: &Partial<'_>,
        cell: u16,
    ) -> Result<Vec<Placement>, AllocError>
        requires made { partial.now.puzzle ≡ self.now }
        requires cell { cell < cell_count self.now.board }
        ensures { IfOk result (λ v. IsListing (ByKey tile_turn) (Fits self.now partial.now.placed cell) v.items) }
    {
        let mut pairs = partial.fitting(Item::Cell(cell));
        let mut placements = Vec::with_capacity(alloc, usize::from(pairs.len()))?;
        while let Some(pair) = pairs.take_first() {
            placements.push(pair.placement)?;
        }
        Ok(placements)
    }

    /// The pairs of the tile that fit, by cell, then by turn.
    pub fn fits_tile(
        &self,
        alloc: Global,
        partial: &Partial<'_>,
        tile: u16,
    ) -> Result<Vec<Pair>, AllocError>
        requires made { partial.now.puzzle ≡ self.now }
        requires tile { tile < length self.now.words }
        ensures { IfOk result (λ v. AreFitting self.now partial.now.placed (items.Tile tile) v.items) }
    {
        let mut pairs = partial.fitting(Item::Tile(tile));
        let mut found = Vec::with_capacity(alloc, usize::from(pairs.len()))?;
        while let Some(pair) = pairs.take_first() {
            found.push(pair)?;
        }
        Ok(found)
    }
}
