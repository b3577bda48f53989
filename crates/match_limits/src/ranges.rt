//! The ranges of the numbers in a text, which depend on its version.

ghost use Rattle.std.specs.Prelude.{◌≡◌};
ghost use Rattle.match_limits.specs.Ranges.{ranges_of, AreRanges};

use crate::{LAST_CELL, MOST_CELLS, MOST_CHILDREN, MOST_LEVELS, MOST_PLAIN_CELLS, MOST_RULES};

/// The ranges of the numbers in a text. The numbers of tiles have the range of those of cells.
#[derive(Clone, Copy)]
pub struct Ranges {
    /// The most cells, the most tiles, the most placements of an arrangement and the most pairs of a prefix.
    pub most_cells: u16,
    /// The greatest number of a cell, and of a tile.
    pub last_cell: u16,
    /// The most rules of a border.
    pub most_rules: u16,
    /// The most children of a branch.
    pub most_children: u32,
    /// The most levels of a tree.
    pub most_levels: u16,
}

/// The ranges of a text of version 1: those of rectangles, triangles and hexagons.
pub const FIRST: Ranges = Ranges {
    most_cells: MOST_PLAIN_CELLS,
    last_cell: MOST_PLAIN_CELLS - 1,
    most_rules: 4 * MOST_PLAIN_CELLS,
    most_children: 4 * MOST_PLAIN_CELLS as u32,
    most_levels: MOST_PLAIN_CELLS + 1,
};

/// The ranges of a text of version 2: those of all boards.
pub const SECOND: Ranges = Ranges {
    most_cells: MOST_CELLS,
    last_cell: LAST_CELL,
    most_rules: MOST_RULES,
    most_children: MOST_CHILDREN,
    most_levels: MOST_LEVELS,
};

/// The ranges of a text of this version.
#[tactic(auto, unfolding(crate::specs::Ranges::ranges_of))]
pub fn ranges_of(version: u8) -> Ranges
    ensures value { result ≡ ranges_of version }
    ensures are { AreRanges result }
{
    if version == 1 { FIRST } else { SECOND }
}
