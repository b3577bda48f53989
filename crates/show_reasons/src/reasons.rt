//! The reasons.

/// Why a puzzle has no arrangement.
#[derive(Clone, Copy, PartialEq, Eq, Debug)]
pub enum Reason {
    /// The border asks for the colour on `asked` sides, and tiles show it on `shown`, which are fewer.
    ColourShort {
        colour: u8,
        asked: usize,
        shown: usize,
    },
    /// Each tile has to stand, and the border asks each outer side for a colour. When it has these, an odd number of
    /// sides is left of a colour that meets itself.
    Odd {
        colour: u8,
        left: usize,
    },
    /// Each tile has to stand, and the border asks each outer side for a colour. When it has these, different numbers
    /// of sides are left of a colour and of its mate, which is the greater.
    Unequal {
        colour: u8,
        left: usize,
        mate: u8,
        mate_left: usize,
    },
    /// No tile fits at the cell of the empty board.
    DeadCell {
        cell: u16,
    },
    /// Each tile has to stand, and this one fits at no cell of the empty board.
    DeadTile {
        tile: u16,
    },
}
