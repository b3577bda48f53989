//! What has to be settled in an arrangement.

ghost use Rattle.std.specs.Prelude.{◌≡◌, ◌<◌, ◌^◌};
ghost use Rattle.match_puzzle.specs.Fitting.{IsNumberOf};
ghost use Rattle.match_puzzle.specs.Fitting.{item_place};

/// What an arrangement settles at most once: which tile a cell has, or which cell a tile has.
/// Where there are as many tiles as cells, these are the primary items of the exact cover (Knuth, TAOCP 4B, 7.2.2.1);
/// where there are more, cells alone are primary.
#[derive(Clone, Copy, PartialEq, Eq)]
pub enum Item {
    /// The cell with this number is filled.
    Cell(u16),
    /// The tile with this number is placed.
    Tile(u16),
}

impl Item {
    /// The number of an item on a board of this many cells: a cell's own number, and a tile's number plus the number of
    /// cells.
    pub fn number(self, cells: u16) -> u32
        ensures { result ≡ item_place cells self }
    {
        match self {
            Item::Cell(cell) => u32::from(cell),
            Item::Tile(tile) => u32::from(cells) + u32::from(tile),
        }
    }

    /// The item with this number, below 2^16, on a board of this many cells.
    pub fn numbered(cells: u16, number: u32) -> Item
        requires { number < 2 ^ 16 }
        ensures { IsNumberOf cells number result }
    {
        if number < u32::from(cells) {
            Item::Cell(number as u16)
        } else {
            Item::Tile((number - u32::from(cells)) as u16)
        }
    }
}
