//! Pairs of a cell and a placement that are placed one after the other, and counts of what fits beside them.

ghost use Rattle.std.specs.Prelude.{◌≡◌, ◌↔◌, ◌<◌, ◌≤◌, ◌*◌, [], List, IfOk, IfSome, IsTrue, MatchBool, MatchOption, OnErr};
ghost use Rattle.std.specs.Prelude.{length};
ghost use Rattle.match_board.specs.Board.{cell_count};
ghost use Rattle.match_puzzle.specs.Puzzle.{IsPuzzle};
ghost use Rattle.match_puzzle.specs.Prefix.{IsPrefix, empty_prefix};
ghost use Rattle.match_puzzle.specs.Fitting.{Fits, FitsItem, AreFitting, HasToBeSettled, IsItem, IsOpen};
ghost use Rattle.match_puzzle.specs.Fitting.{IsUnsettled};
ghost use Rattle.match_puzzle.specs.Fitting.{HasFewestFitting, IsNextFitting, IsLastFitting};
ghost use Rattle.fit_counts.specs.Placing.{FitInTurn, placed_by, with_next, without_last};
ghost use Rattle.fit_counts.specs.FitRows.{AreRows, HasRowsOf, IsCountIn};
ghost use Rattle.fit_counts.specs.FitSizes.{AreSizes, AreToSettle};
ghost use Rattle.match_puzzle.specs.Fitting.{item_place};
ghost use Rattle.match_puzzle.specs.declared.items.Item.{Item as PuzzleItem};
ghost use Rattle.match_puzzle.specs.declared.items.Item.TheVariants as items;
ghost use Rattle.match_puzzle.specs.declared.placements.Pair.{Pair as Placed};

use crate::behind::{EACH_TURN, number_behind, place_behind};
use crate::fit_rows::FitRows;
use crate::fit_sizes::{COVERED, STEP, least_size};
use crate::placing::Counts;
use match_limits::TURNS;
use match_puzzle::{Item, Pair, Partial, Placement, Puzzle};
use std::alloc::{AllocError, Global};
use std::marker::Model;

/// Placed pairs of a puzzle, each of which fits those before it, and how many pairs still fit beside them: for each
/// cell and for each tile. It borrows the puzzle.
///
/// An item is a cell or a tile. A pair settles its cell and its tile. An item is open where no placed pair settles it
/// and each arrangement has to: where there are more tiles than cells, only cells are.
///
/// Placing a pair costs a few words for each open cell and each side, and a step for each pair that fits no longer;
/// lifting it costs less. The memory is 8 bytes for each placed pair and each cell, and up to 16 while it grows.
#[derive(Drop)]
pub struct FitCounts<'a> {
    partial: Partial<'a>,
    // in the order of placing
    pairs: Vec<Pair>,
    // what fits beside them
    counts: Counts,
    // for each placed pair: how many pairs fitted and settled each item before it was placed
    saved: Vec<u32>,
}

impl<'a> Model for FitCounts<'a> {
    ghost use Rattle.fit_counts.specs.Placing.{Placing};
    ghost use Rattle.fit_counts.specs.FitSizes.{AreKeptBeside};

    ghost Value = { Placing };

    ghost view = { λ f. record { puzzle = f.partial.puzzle; pairs = f.pairs.items } };

    ghost invariant = { λ f. AreKeptBeside f.partial.puzzle f.pairs.items f.partial.placed
        f.counts.rows f.counts.sizes.items f.saved.items };
}

impl<'a> FitCounts<'a> {
    /// Starts with nothing placed. It looks at each tile at each cell. An error comes where memory is refused.
    pub fn new(alloc: Global, puzzle: &'a Puzzle) -> Result<FitCounts<'a>, AllocError>
        ensures empty { IfOk result (λ f. f ≡ record { puzzle = puzzle.now; pairs = [] }) }
        ensures puzzle { IsPuzzle puzzle.now }
    {
        let partial = Partial::new(alloc, puzzle)?;
        let rows = FitRows::new(alloc, &partial)?;
        let sizes = new_sizes(alloc, &partial, &rows)?;
        Ok(FitCounts {
            partial,
            pairs: Vec::new(alloc),
            counts: Counts { rows, sizes },
            saved: Vec::new(alloc),
        })
    }

    /// Returns the puzzle.
    pub fn puzzle(&self) -> &'a Puzzle
        ensures same { result.now ≡ self.now.puzzle }
        ensures puzzle { IsPuzzle self.now.puzzle }
    {
        self.partial.puzzle()
    }

    /// Returns the placed pairs, in the order of placing.
    pub fn pairs(&self) -> &[Pair]
        ensures value { result.now ≡ self.now.pairs }
        ensures fit { FitInTurn self.now.puzzle self.now.pairs }
    {
        &self.pairs
    }

    /// Whether the item is open: no placed pair settles it, and each arrangement has to.
    pub fn is_open(&self, item: Item) -> bool
        requires { IsItem self.now.puzzle item }
        ensures { IsTrue result ↔ IsOpen self.now.puzzle (placed_by self.now) item }
    {
        if !has_to_be_settled(self.puzzle(), item) {
            return false;
        }
        self.is_unsettled(item)
    }

    /// Returns how many pairs fit and settle an open item.
    pub fn count(&self, item: Item) -> u32
        requires { IsOpen self.now.puzzle (placed_by self.now) item }
        ensures { (xs : List Placed) × AreFitting self.now.puzzle (placed_by self.now) item xs
            × (length xs ≡ result) }
    {
        self.counts.sizes[self.place_of(item)] / STEP
    }

    /// Returns the open item with the fewest pairs that fit. At a tie it is the first: cells by number, then tiles.
    /// `None` where no item is open.
    pub fn fewest(&self) -> Option<Item>
        ensures { MatchOption result
            ((item : PuzzleItem) → IsOpen self.now.puzzle (placed_by self.now) item → ⊥)
            (HasFewestFitting self.now.puzzle (placed_by self.now)) }
    {
        let cells = self.cells();
        let least = least_size(sizes_to_settle(self.puzzle(), &self.counts.sizes));
        if least == COVERED {
            return None;
        }
        Some(Item::numbered(cells, least % STEP))
    }

    /// Returns the pair that fits, settles an open item and comes next after `after`, or the first of these pairs
    /// without one. The pairs at a cell come by tile, then by turn; those of a tile come by cell, then by turn.
    pub fn next(&self, item: Item, after: Option<Pair>) -> Option<Pair>
        requires item { IsOpen self.now.puzzle (placed_by self.now) item }
        requires after { IfSome after (FitsItem self.now.puzzle (placed_by self.now) item) }
        ensures { MatchOption result
            (IsLastFitting self.now.puzzle (placed_by self.now) item after)
            (IsNextFitting self.now.puzzle (placed_by self.now) item after) }
    {
        match item {
            Item::Cell(cell) => self.next_at(cell, after),
            Item::Tile(tile) => self.next_of(tile, after),
        }
    }

    /// Places a pair that fits.
    ///
    /// An error comes where memory is refused; then nothing changes.
    pub fn place(&mut self, pair: Pair) -> Result<(), AllocError>
        requires { Fits self.old.puzzle (placed_by self.old) pair.cell pair.placement }
        ensures placed { IfOk result (λ _. self.new ≡ with_next self.old pair) }
        ensures refused { OnErr result (self.new ≡ self.old) }
    {
        self.pairs.reserve(1)?;
        self.saved.extend_from_slice(&self.counts.sizes)?;
        self.pairs.push_reserved(pair);
        self.counts.take_out(&self.partial, pair);
        self.partial.place(pair.cell, pair.placement);
        Ok(())
    }

    /// Lifts the pair that was placed last. There has to be one.
    pub fn lift(&mut self)
        requires { 0 < length self.old.pairs }
        ensures { self.new ≡ without_last self.old }
    {
        if let Some(pair) = self.pairs.pop() {
            let before = self.saved.len() - self.counts.sizes.len();
            self.counts.sizes.copy_from_slice(&self.saved[before..]);
            self.saved.truncate(before);
            self.partial.lift(pair.cell);
            self.counts.rows.put_beside(&self.partial, pair.cell);
        }
    }

    // Whether no placed pair settles the item.
    fn is_unsettled(&self, item: Item) -> bool
        requires { IsItem self.now.puzzle item }
        ensures { IsTrue result ↔ IsUnsettled self.now.puzzle (placed_by self.now) item }
    {
        self.counts.sizes[self.place_of(item)] != COVERED
    }

    // The place of the item in the table of counts.
    fn place_of(&self, item: Item) -> usize
        ensures place { result ≡ item_place (cell_count self.now.puzzle.board) item }
        ensures puzzle { IsPuzzle self.now.puzzle }
        ensures prefix { IsPrefix self.now.puzzle (placed_by self.now) }
    {
        item.number(self.cells()) as usize
    }

    // How many cells there are.
    fn cells(&self) -> u16
        ensures count { result ≡ cell_count self.now.puzzle.board }
        ensures puzzle { IsPuzzle self.now.puzzle }
        ensures prefix { IsPrefix self.now.puzzle (placed_by self.now) }
    {
        self.partial.puzzle().board().cells()
    }

    // The next pair at a cell.
    fn next_at(&self, cell: u16, after: Option<Pair>) -> Option<Pair>
        requires item { IsOpen self.now.puzzle (placed_by self.now) (items.Cell cell) }
        requires after { IfSome after (FitsItem self.now.puzzle (placed_by self.now) (items.Cell cell)) }
        ensures { MatchOption result
            (IsLastFitting self.now.puzzle (placed_by self.now) (items.Cell cell) after)
            (IsNextFitting self.now.puzzle (placed_by self.now) (items.Cell cell) after) }
    {
        let row = self.counts.rows.at(cell);
        let number = row.next_in_both(self.partial.free(), number_behind(after))?;
        let placement = Placement {
            tile: number / TURNS,
            turn: (number % TURNS) as u8,
        };
        Some(Pair { cell, placement })
    }

    // The next pair of a tile.
    fn next_of(&self, tile: u16, after: Option<Pair>) -> Option<Pair>
        requires item { IsOpen self.now.puzzle (placed_by self.now) (items.Tile tile) }
        requires after { IfSome after (FitsItem self.now.puzzle (placed_by self.now) (items.Tile tile)) }
        ensures { MatchOption result
            (IsLastFitting self.now.puzzle (placed_by self.now) (items.Tile tile) after)
            (IsNextFitting self.now.puzzle (placed_by self.now) (items.Tile tile) after) }
    {
        let cells = self.counts.rows.len() as u16;
        let (first, mut turns) = place_behind(after);
        for cell in first..cells {
            let fitting = self.counts.rows.at(cell).group(tile) & turns;
            if fitting != 0 {
                let turn = fitting.trailing_zeros() as u8;
                let placement = Placement { tile, turn };
                return Some(Pair { cell, placement });
            }
            turns = EACH_TURN;
        }
        None
    }
}

// Whether each arrangement settles the item.
fn has_to_be_settled(puzzle: &Puzzle, item: Item) -> bool
    ensures { MatchBool result (HasToBeSettled puzzle.now item) (HasToBeSettled puzzle.now item → ⊥) }
{
    match item {
        Item::Cell(_) => true,
        Item::Tile(_) => puzzle.have_all_to_stand(),
    }
}

// The entries of the items that each arrangement settles.
fn sizes_to_settle<'s>(puzzle: &Puzzle, sizes: &'s [u32]) -> &'s [u32]
    requires { cell_count puzzle.now.board ≤ length sizes.now }
    ensures { AreToSettle puzzle.now sizes.now result.now }
{
    if puzzle.have_all_to_stand() {
        return sizes;
    }
    &sizes[..usize::from(puzzle.board().cells())]
}

// The table where nothing is placed.
fn new_sizes(alloc: Global, partial: &Partial<'_>, rows: &FitRows) -> Result<Vec<u32>, AllocError>
    requires empty { partial.now.placed ≡ empty_prefix partial.now.puzzle }
    requires rows { AreRows partial.now.puzzle partial.now.placed rows.now }
    ensures { IfOk result (λ v. AreSizes partial.now.puzzle partial.now.placed v.items) }
{
    let puzzle = partial.puzzle();
    let cells = puzzle.board().cells();
    let items = u32::from(cells) + u32::from(puzzle.tile_count());
    let mut sizes = Vec::with_capacity(alloc, items as usize)?;
    for place in 0..items {
        let count = count_in(rows, Item::numbered(cells, place));
        sizes.push(STEP * u32::from(count) + place)?;
    }
    Ok(sizes)
}

// How many pairs of the item the rows have.
fn count_in(rows: &FitRows, item: Item) -> u16
    requires { HasRowsOf rows.now item }
    ensures { IsCountIn rows.now item result }
{
    match item {
        Item::Cell(cell) => rows.at(cell).len(),
        Item::Tile(tile) => rows.places_of(tile).len(),
    }
}
