//! Tiles that are put into place.

ghost use Rattle.match_puzzle.specs.Equality as equality;

use std::hash::{Hash, Hasher};

/// A tile of the puzzle, by its number from 0, and how often it's turned, from 0 on.
#[derive(Clone, Copy, PartialEq, Eq, PartialOrd, Ord, Debug)]
pub struct Placement {
    pub tile: u16,
    pub turn: u8,
}

// As one number, which takes a hasher half as long as two.
impl Hash for Placement {
    ghost hash_input = { equality.hash_input };

    ghost respects_eq = { equality.is_same-alike.fed };

    fn hash<H: Hasher>(&self, state: &mut H) {
        state.write_u32(u32::from(self.tile) * 256 + u32::from(self.turn));
    }
}

/// A placement at a cell, which is numbered from 0.
#[derive(Clone, Copy, PartialEq, Eq, Debug)]
pub struct Pair {
    pub cell: u16,
    pub placement: Placement,
}
