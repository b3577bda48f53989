//! The pairs that fit and settle an open item, as a set of numbers, which a walk asks for at each node. The walk has seen
//! that the item is open, so a cell is not looked at once more.

ghost use Rattle.std.specs.Prelude.{◌≡◌, ◌≢◌, ◌+◌, ◌<◌, ◌/◌, ◌%◌, ℕ, [], MatchBool, length, map};
ghost use Rattle.match_board.specs.Board.{cell_count};
ghost use Rattle.match_limits.specs.Listing.{IsListing};
ghost use Rattle.match_puzzle.specs.Prefix.{IsFree};
ghost use Rattle.match_puzzle.specs.Puzzle.{IsPuzzle};
ghost use Rattle.match_puzzle.specs.Fitting.{Fits, AreFitting, IsOpen, numbered_pair, turned_tile};

use match_limits::NumberSet;
use match_puzzle::{Item, Partial};

// Makes the set the numbers of the pairs that fit and settle the item.
#[inline(always)]
pub(crate) fn put_fitting(item: Item, partial: &Partial<'_>, numbers: &mut NumberSet)
    requires { IsOpen partial.now.puzzle partial.now.placed item }
    ensures { AreFitting partial.now.puzzle partial.now.placed item (map (numbered_pair item) numbers.new) }
{
    match item {
        Item::Cell(cell) => put_fitting_at(cell, partial, numbers),
        Item::Tile(tile) => put_fitting_of(tile, partial, numbers),
    }
}

// Makes the set the placements that fit at the cell: of tile t after turn r by 4 t + r.
#[inline(always)]
fn put_fitting_at(cell: u16, partial: &Partial<'_>, numbers: &mut NumberSet)
    requires free { IsFree partial.now.placed cell }
    ensures fitting { IsListing ◌<◌
        (λ n. Fits partial.now.puzzle partial.now.placed cell (turned_tile (n / 4) (n % 4))) numbers.new }
    ensures puzzle { IsPuzzle partial.now.puzzle }
{
    // its contract says that the cell is one of the board
    let _ = partial.puzzle();
    numbers.put_common(
        partial.free(),
        partial.as_asked(cell, 0),
        partial.as_asked(cell, 1),
        partial.as_asked(cell, 2),
        partial.as_asked(cell, 3),
    );
}

// Makes the set where the tile fits: at cell c after turn r by 4 c + r.
fn put_fitting_of(tile: u16, partial: &Partial<'_>, numbers: &mut NumberSet)
    requires { tile < length partial.now.puzzle.words }
    ensures fitting { IsListing ◌<◌
        (λ n. Fits partial.now.puzzle partial.now.placed (n / 4) (turned_tile tile (n % 4))) numbers.new }
    ensures puzzle { IsPuzzle partial.now.puzzle }
{
    numbers.clear();
    for cell in 0..partial.puzzle().board().cells() {
        put_turns(cell, tile, partial, numbers);
    }
}

// Adds the turns after which the tile fits at the cell.
#[inline(always)]
fn put_turns(cell: u16, tile: u16, partial: &Partial<'_>, numbers: &mut NumberSet)
    requires cell { cell < cell_count partial.now.puzzle.board }
    requires tile { tile < length partial.now.puzzle.words }
    requires before { IsListing ◌<◌ (λ n. (n / 4 < cell)
        × Fits partial.now.puzzle partial.now.placed (n / 4) (turned_tile tile (n % 4))) numbers.old }
    ensures { IsListing ◌<◌ (λ n. (n / 4 < cell + 1)
        × Fits partial.now.puzzle partial.now.placed (n / 4) (turned_tile tile (n % 4))) numbers.new }
{
    if partial.at(cell).is_some() {
        return;
    }
    let turns = partial.free().common_group(
        partial.as_asked(cell, 0),
        partial.as_asked(cell, 1),
        partial.as_asked(cell, 2),
        partial.as_asked(cell, 3),
        tile,
    );
    numbers.put_group(cell, turns);
}

// Whether the set has no number.
#[inline(always)]
pub(crate) fn is_empty(numbers: &NumberSet) -> bool
    ensures { MatchBool result (numbers.now ≡ []) (numbers.now ≢ []) }
{
    numbers.members().take_first().is_none()
}
