//! Limits, numbers within them, and sets of numbers. Code, contracts and definitions name the limits that are set here.
//! Numbers begin at 0: where there are `MOST_CELLS` cells, the last one is `LAST_CELL`.
#![tactic(auto)]

mod number_sets;
mod ranges;
mod within;

pub use number_sets::{FixedSet, GROUPS, Members, NumberSet};
pub use ranges::{FIRST, Ranges, SECOND, ranges_of};
pub use within::{
    ArrangementNumber, Colours, Depth, Drawn, Forks, Fuel, OtherParts, Sides, Within, Workers,
};

/// The most cells of a board, and so the most placements of an arrangement, pairs of a prefix and images of cells.
pub const MOST_CELLS: u16 = 256;

/// The most cells of a rectangle, a triangle or a hexagon; only a shape may have more.
pub const MOST_PLAIN_CELLS: u16 = 100;

/// The most places of a shape, with a cell or without one: as many as a board keeps of its mask.
pub const MOST_PLACES: usize = 1_024;

/// The greatest number of a cell.
pub const LAST_CELL: u16 = MOST_CELLS - 1;

/// The most tiles of a puzzle. It may have more tiles than cells.
pub const MOST_TILES: u16 = MOST_CELLS;

/// The greatest number of a tile.
pub const LAST_TILE: u16 = MOST_TILES - 1;

/// The greatest width, height and size of a rectangle, a triangle or a hexagon: a row may have all of its cells.
pub const MOST_LENGTH: u16 = MOST_PLAIN_CELLS;

/// The most sides of a cell and of a tile: those of a square.
pub const MOST_SIDES: u8 = 4;

/// How many places an array has for the sides of a cell or of a tile. A triangle has one side less.
pub const SIDES: usize = MOST_SIDES as usize;

/// The most turns of a tile: as many as it has sides.
pub const MOST_TURNS: u8 = MOST_SIDES;

/// How many numbers the placements of a tile have, one for each turn: that of tile t after turn r is `TURNS * t + r`.
pub const TURNS: u16 = MOST_TURNS as u16;

/// The greatest number of a side, and so the greatest shift of a symmetry.
pub const LAST_SIDE: u8 = MOST_SIDES - 1;

/// The greatest number of turns: as many turns as a tile has sides leave it as it was.
pub const LAST_TURN: u8 = MOST_TURNS - 1;

/// The most rules of a border: one for each side of each cell.
pub const MOST_RULES: u16 = MOST_SIDES as u16 * MOST_CELLS;

/// How many colours there are: texts write them `0` to `9`, and then `a` to `z`.
pub const MOST_COLOURS: u8 = 36;

/// The most tiles of a list that has one of each class of tiles that turn into each other.
pub const MOST_CLASSES: usize = 100;

/// The most items that the options of a compiled puzzle have together.
pub const MOST_ENTRIES: usize = 200_000;

/// The most arrangements of a list, and of an expansion.
pub const MOST_ARRANGEMENTS: u32 = 1_000_000;

/// The greatest number of a listed arrangement.
pub const LAST_ARRANGEMENT: u32 = MOST_ARRANGEMENTS - 1;

/// The most symmetries that a certificate names.
pub const MOST_SYMMETRIES: u16 = 1_024;

/// The greatest number of a symmetry that a certificate names.
pub const LAST_SYMMETRY: u16 = MOST_SYMMETRIES - 1;

/// The most lemmas of a certificate.
pub const MOST_LEMMAS: u32 = 1_000_000;

/// The greatest number of a lemma.
pub const LAST_LEMMA: u32 = MOST_LEMMAS - 1;

/// The most children of a branch: four turns of each tile at a cell, or of a tile four turns at each cell.
pub const MOST_CHILDREN: u32 = TURNS as u32 * MOST_TILES as u32;

/// The most levels of a tree: a branch for each cell, and one node below the last branch.
pub const MOST_LEVELS: u16 = MOST_CELLS + 1;

/// The most branch nodes that a search may be asked to make.
pub const MOST_FUEL: u32 = 1_000_000;

/// The greatest depth of a solve: of how many levels of branches it makes lemmas before it searches.
pub const MOST_DEPTH: u8 = 3;

/// The most workers that share a check or a search.
pub const MOST_WORKERS: u8 = 64;

/// The most levels of a tree at which two halves of a branch's children are walked side by side.
pub const MOST_FORKS: u8 = 6;

/// The most bytes of a document that are read.
pub const MOST_BYTES: u32 = 1_073_741_824;

/// The most arrangements that can be asked for on a sheet.
pub const MOST_DRAWN: u32 = 100;
