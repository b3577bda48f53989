//! What outer sides show, and what the border asks for.

ghost use Rattle.std.specs.Prelude.{◌<◌, ◌≤◌, IsTrue};
ghost use Rattle.match_limits.specs.declared.TheConstants.{MOST_RULES};
ghost use Rattle.match_board.specs.Board.{cell_count};
ghost use Rattle.match_board.specs.Borders.{IsShortRule, rule_of};

use match_board::{Board, Border};
use match_limits::{MOST_RULES, SIDES};
use std::alloc::{AllocError, Global};

/// What outer sides show, and what the border asks for then.
#[derive(Drop)]
pub(crate) enum Outside {
    /// The border asks for this. An outer side shows what is asked of it, or any colour where nothing is.
    Asked(Border),
    /// Outer sides show any colours, and the border asks for each of them.
    Drawn,
}

/// For each side of a cell the colour that the border asks for, if it asks for one.
pub(crate) type AskedSides = [Option<u8>; SIDES];

impl Outside {
    /// What the border asks before anything is drawn, by cell.
    pub(crate) fn asked(
        &self,
        alloc: Global,
        board: &Board,
    ) -> Result<Vec<AskedSides>, AllocError> {
        match self {
            Outside::Asked(border) => asked_by(alloc, board, border),
            Outside::Drawn => asked_by(alloc, board, &Border::Free),
        }
    }
}

// What this border asks, by cell.
fn asked_by(alloc: Global, board: &Board, border: &Border) -> Result<Vec<AskedSides>, AllocError> {
    let mut asked = Vec::new(alloc);
    let mut number = 0;
    for cell in 0..board.cells() {
        asked.push(asked_at(board, border, cell, number))?;
        number += board.border_sides(cell);
    }
    Ok(asked)
}

// What this border asks of the cell, where so many outer sides are at cells before it.
fn asked_at(board: &Board, border: &Border, cell: u16, before: u16) -> AskedSides
    requires cell { cell < cell_count board.now }
    requires before { before ≤ MOST_RULES }
{
    let mut asked = [None; SIDES];
    let mut number = before;
    for side in 0..board.sides() {
        if board.is_border(cell, side) {
            asked[usize::from(side)] = border.rule_at(number);
            number += 1;
        }
    }
    asked
}

/// Whether a border's list has no more rules than a board may have outer sides.
pub(crate) fn is_short(border: &Border) -> bool
    ensures { IsTrue result → IsShortRule (rule_of border.now) }
{
    match border {
        Border::Free | Border::One(_) => true,
        Border::Each(rules) => rules.as_slice().len() <= usize::from(MOST_RULES),
    }
}
