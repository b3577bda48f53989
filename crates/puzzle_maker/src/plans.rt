//! Plans: all that is asked of a puzzle, whatever it is asked by.

ghost use Rattle.std.specs.Prelude.{◌≡◌, ◌<◌, ◌≤◌, ◌+◌, vec_len};
ghost use Rattle.match_limits.specs.declared.TheConstants.{MOST_COLOURS, MOST_TILES};
ghost use Rattle.match_board.specs.Board.{cell_count};

use crate::outsides::{AskedSides, Outside};
use match_board::{Board, mate_in};
use puzzle_drafts::Draft;

/// What a puzzle is to be like, and of what it is drawn.
#[derive(Drop)]
pub(crate) struct Plan {
    pub(crate) draft: Draft,
    pub(crate) board: Board,
    /// Whether tiles may be turned.
    pub(crate) turns: bool,
    pub(crate) outside: Outside,
    /// What the border asks before anything is drawn, by cell.
    pub(crate) asked: Vec<AskedSides>,
    /// The colour of a frame, which no inner side shows.
    pub(crate) frame: Option<u8>,
    /// The colours of which inner sides are drawn.
    pub(crate) inner: Vec<u8>,
    /// The list of mates. It is empty where each colour is its own mate.
    pub(crate) mates: Vec<u8>,
    pub(crate) version: u8,
    /// How many arrangements there may be, where they are to be few.
    pub(crate) most: u8,
    ghost some_colours: { 1 ≤ draft.colours },
    ghost few_colours: { draft.colours ≤ MOST_COLOURS },
    ghost some_inner: { 1 ≤ vec_len inner },
    ghost few_inner: { vec_len inner ≤ MOST_COLOURS },
    ghost few_mates: { vec_len mates ≤ MOST_COLOURS },
    ghost tiles: { cell_count board + draft.spare ≤ MOST_TILES },
    ghost clues: { draft.clues ≤ cell_count board },
}

impl Plan {
    /// How many tiles there are.
    pub(crate) fn tiles(&self) -> u16
        ensures count { result ≡ cell_count self.now.board + self.now.draft.spare }
        ensures few { result ≤ MOST_TILES }
        ensures enough { cell_count self.now.board ≤ result }
    {
        self.board.cells() + self.draft.spare
    }

    /// The mate of a colour.
    pub(crate) fn mate(&self, colour: u8) -> u8 {
        mate_in(&self.mates, colour)
    }

    /// The colour that the border asks a side for before anything is drawn, if it asks for one.
    pub(crate) fn asked(&self, cell: u16, side: u8) -> Option<u8>
        requires { side < 4 }
    {
        let sides = self.asked.get(usize::from(cell))?;
        sides[usize::from(side)]
    }
}
