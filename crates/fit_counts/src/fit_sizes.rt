//! Tables of how many pairs fit and settle each item: the cells first, then the tiles.
//!
//! An entry is that count times `STEP`, plus its own place. So the least entry belongs to the item with the fewest
//! pairs, the first at a tie. The entry of a settled item is `COVERED`.

ghost use Rattle.std.specs.Prelude.{◌≡◌, ◌⊎◌, ◌<◌, ◌≤◌, ◌+◌, ◌*◌, ◌/◌, ℕ, [], Contains, length, slice_index, slice_index_or};
ghost use Rattle.match_limits.specs.NumberSets.{count_of_group};

use crate::fit_rows::FitRows;
use match_limits::{MOST_CELLS, MOST_TILES, NumberSet, TURNS};

/// What one pair adds to an entry.
pub(crate) const STEP: u32 = 1024;

/// The entry of a settled item. That of an open one is less, since its place is below `STEP - 1`.
pub(crate) const COVERED: u32 = u32::MAX;

// The greatest place is that of the last tile.
const _: () = prove!(MOST_CELLS + MOST_TILES < 1024 - 1);

/// For each of these numbers, four to a tile, lowers the count of its tile by one. The tiles follow `cells` cells.
pub(crate) fn lower_tiles(sizes: &mut Vec<u32>, cells: usize, numbers: &NumberSet)
    requires below { (n : ℕ) → Contains numbers.now n → cells + n / 4 < length sizes.old.items }
    requires enough { (tile : ℕ) → cells + tile < length sizes.old.items
        → STEP * count_of_group numbers.now tile ≤ slice_index sizes.old.items (cells + tile) }
    ensures long { length sizes.new.items ≡ length sizes.old.items }
    ensures tiles { (tile : ℕ) → cells + tile < length sizes.old.items → slice_index sizes.new.items (cells + tile)
        + STEP * count_of_group numbers.now tile ≡ slice_index sizes.old.items (cells + tile) }
    ensures cells { (cell : ℕ) → cell < cells → slice_index sizes.new.items cell ≡ slice_index sizes.old.items cell }
{
    let mut left = numbers.members();
    while let Some(number) = left.take_first() {
        sizes[cells + usize::from(number / TURNS)] -= STEP;
    }
}

/// Lowers the count of each cell by one for each placement of the tile in the cell's row.
pub(crate) fn lower_cells(sizes: &mut Vec<u32>, rows: &FitRows, tile: u16)
    requires long { length rows.now ≤ length sizes.old.items }
    requires tile { tile < MOST_TILES }
    requires most { length rows.now ≤ MOST_CELLS }
    requires enough { (cell : ℕ) → cell < length rows.now
        → STEP * count_of_group (slice_index_or rows.now cell []) tile ≤ slice_index sizes.old.items cell }
    ensures long { length sizes.new.items ≡ length sizes.old.items }
    ensures cells { (cell : ℕ) → cell < length rows.now → slice_index sizes.new.items cell
        + STEP * count_of_group (slice_index_or rows.now cell []) tile ≡ slice_index sizes.old.items cell }
    ensures tiles { (place : ℕ) → length rows.now ≤ place
        → slice_index sizes.new.items place ≡ slice_index sizes.old.items place }
{
    let mut left = rows.open_cells();
    while let Some(cell) = left.take_first() {
        let count = rows.at(cell).group_len(tile);
        sizes[usize::from(cell)] -= STEP * u32::from(count);
    }
}

/// The least entry, or `COVERED` where none is less.
pub(crate) fn least_size(sizes: &[u32]) -> u32
    ensures most { result ≤ COVERED }
    ensures least { (place : ℕ) → place < length sizes.now → result ≤ slice_index sizes.now place }
    ensures range { (place : ℕ) → place < length sizes.now → slice_index sizes.now place ≤ COVERED }
    ensures one { (result ≡ COVERED)
        ⊎ ((place : ℕ) × (place < length sizes.now) × (slice_index sizes.now place ≡ result)) }
{
    let mut least = COVERED;
    for size in sizes {
        least = least.min(*size);
    }
    least
}
