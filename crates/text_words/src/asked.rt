//! What a reader asks for, so that a message can say it.

use crate::faults::TextFault;

/// What a reader asks of a word.
#[derive(Clone, Copy)]
pub enum Asked {
    /// It has to be this word.
    Word(&'static [u8]),
    /// It has to be one of several words, which this sentence names.
    OneOf(&'static str),
    /// It has to be the number of a version, from 1 to `last`.
    Version { last: u8 },
    /// It has to be a number from `least` to `most`.
    Number { least: u32, most: u32 },
    /// It has to be a colour.
    Colour,
    /// It has to be a colour, or `-`.
    Rule,
    /// It has to be a tile: a colour for each of its three or four sides.
    Tile,
    /// It has to be what a clue asks of a cell: a colour, or `-`, for each of its three or four sides.
    Clue,
    /// It has to be a row of a shape, with this number of places.
    Row { width: u16 },
    /// It has to be a placement of a tile with at most this number.
    Placement { last_tile: u16 },
    /// It has to be a cell with at most this number, and a placement of a tile with at most this number.
    Pair { last_cell: u16 },
}

/// Where a text has its first fault, and what is there.
#[derive(Clone, Copy)]
pub struct FaultPlace<'a> {
    pub fault: TextFault,
    /// What is asked of the word there, which is another word or is missing. `None` where no word is asked for:
    ///
    /// - for `Ends` and `After`
    /// - for `Word`, where the line has a word too many, or no entry where it has to have one at least
    /// - for `Limit`, where no further entry is allowed
    pub missed: Option<Asked>,
    /// The rest of the line, from the word with the fault. `None` where no word is left, and for `Ends` and `After`.
    pub rest: Option<&'a [u8]>,
    /// What follows the line; for `Ends` and `After`, what follows the line before.
    pub ahead: &'a [u8],
}
