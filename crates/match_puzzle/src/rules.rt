//! What is asked of the tiles on a board.

use match_board::{Border, Clue};

/// The rules of a puzzle: what it has besides its board and its tiles.
#[derive(Clone, Copy)]
pub struct Rules<'a> {
    /// Whether tiles may be turned.
    pub turns: bool,
    /// What is asked of the border.
    pub border: &'a Border,
    /// The list of mates. Entry i is the mate of colour i; a colour past the end is its own mate.
    pub mates: &'a [u8],
    /// The clues: what cells have to show, in the order of the cells.
    pub clues: &'a [Clue],
}
