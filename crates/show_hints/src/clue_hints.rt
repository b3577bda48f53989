//! What is wrong with a clue of a puzzle's text, in one line.

ghost use Rattle.std.specs.Prelude.{◌≡◌, ◌<◌, length};
ghost use Rattle.match_board.specs.Board.{cell_count, side_count};
ghost use Rattle.match_board.specs.Clues.{clue_of};

use match_board::{Board, Border, Clue};
use match_text::PuzzleText;
use std::alloc::{AllocError, Global};
use text_words::letter;

// What has to be changed in the clue with this number, which the puzzle of this text can't have on its board, where the
// first clue stands on this line.
pub(crate) fn clue_hint(
    alloc: Global,
    text: &PuzzleText,
    board: &Board,
    number: usize,
    first_line: usize,
) -> Result<Option<String>, AllocError> {
    let clues = text.clues.as_slice();
    let Some(clue) = clues.get(number) else {
        return Ok(None);
    };
    let line = first_line.saturating_add(number);
    let (cell, cells, sides) = (clue.cell(), board.cells(), board.sides());
    if cell >= cells {
        return Ok(Some(cell_hint(alloc, line, cell, cells)?));
    }
    if let Some(before) = clues.get(number.saturating_sub(1))
        && number > 0
        && before.cell() >= cell
    {
        return Ok(Some(order_hint(alloc, line, cell, before.cell())?));
    }
    if clue.sides() != sides {
        return Ok(Some(sides_hint(alloc, line, clue, sides)?));
    }
    match first_other(board, &text.border, clue) {
        Some(other) => Ok(Some(other.hint(alloc, line, cell)?)),
        None => Ok(None),
    }
}

fn cell_hint(alloc: Global, line: usize, cell: u16, cells: u16) -> Result<String, AllocError> {
    let last = cells.saturating_sub(1);
    format!(in alloc;
        "puzzle line {line}, word 2, has to be a cell of the board, 0 to {last}; it is {cell}"
    )
}

fn order_hint(alloc: Global, line: usize, cell: u16, before: u16) -> Result<String, AllocError> {
    let line_before = line.saturating_sub(1);
    format!(in alloc;
        "puzzle line {line} has a clue of cell {cell}, and line {line_before} one of cell {before}: \
         the cells of clues have to rise"
    )
}

fn sides_hint(alloc: Global, line: usize, clue: &Clue, sides: u8) -> Result<String, AllocError> {
    let word = clue_word(alloc, clue)?;
    format!(in alloc;
        "puzzle line {line}, word 3, has to have {sides} characters, as each cell of the board has {sides} sides; \
         it is \"{word}\""
    )
}

// The word of what the clue asks for.
fn clue_word(alloc: Global, clue: &Clue) -> Result<String, AllocError> {
    let mut word = String::new(alloc);
    for side in 0..clue.sides() {
        match clue.asks(side) {
            Some(colour) => word.push(letter(u32::from(colour)))?,
            None => word.push('-')?,
        }
    }
    Ok(word)
}

// A side of which a clue and the border ask for two colours.
#[derive(Clone, Copy)]
struct AskedTwice {
    side: u8,
    by_clue: u8,
    by_border: u8,
}

impl AskedTwice {
    // That the clue on this line asks for another colour of the cell's side.
    fn hint(self, alloc: Global, line: usize, cell: u16) -> Result<String, AllocError> {
        let (own, other) = (
            letter(u32::from(self.by_clue)),
            letter(u32::from(self.by_border)),
        );
        let side = self.side;
        format!(in alloc;
            "puzzle line {line}, word 3, asks for {own} on side {side} of cell {cell}, where the border asks for \
             {other}: a clue has to ask for the same there, or for nothing (-)"
        )
    }
}

// The first side of which the clue asks for another colour than the border does.
fn first_other(board: &Board, border: &Border, clue: &Clue) -> Option<AskedTwice>
    requires cell { (clue_of clue.now).cell < cell_count board.now }
    requires sides { length (clue_of clue.now).asks ≡ side_count board.now }
{
    let mut number = outer_before(board, clue.cell());
    for side in 0..board.sides() {
        if board.is_border(clue.cell(), side) {
            if let Some(twice) = asked_twice(side, clue.asks(side), border.rule_at(number)) {
                return Some(twice);
            }
            number = number.saturating_add(1);
        }
    }
    None
}

// How many outer sides come before those of the cell.
fn outer_before(board: &Board, cell: u16) -> u16
    requires { cell < cell_count board.now }
{
    let mut count = 0u16;
    for earlier in 0..cell {
        count = count.saturating_add(board.border_sides(earlier));
    }
    count
}

// The side, where the clue and the border ask for two colours there.
fn asked_twice(side: u8, by_clue: Option<u8>, by_border: Option<u8>) -> Option<AskedTwice> {
    match (by_clue, by_border) {
        (Some(by_clue), Some(by_border)) if by_clue != by_border => Some(AskedTwice {
            side,
            by_clue,
            by_border,
        }),
        _ => None,
    }
}
