//! What is wrong with the text of a puzzle, in one line.

use crate::clue_hints::clue_hint;
use crate::documents::Document;
use crate::text_hints::text_hint;
use match_board::{Board, Tile};
use match_limits::{MOST_BYTES, MOST_CELLS, MOST_PLACES, MOST_PLAIN_CELLS};
use match_puzzle::{Border, PuzzleFault};
use match_text::{BoardLine, PuzzleText, PuzzleTextFault, read_puzzle_text};
use std::alloc::{AllocError, Global};
use text_words::letter;

/// What has to be changed in the text of a puzzle that has this fault, in one line: what has to stand at a place of the
/// text, and what stands there, or which numbers don't go together. None where there is nothing to tell.
///
/// An `Err` where memory is refused. It takes the time and the memory of reading the text once or twice more.
pub fn puzzle_hint(
    alloc: Global,
    text: &[u8],
    fault: &PuzzleTextFault,
) -> Result<Option<String>, AllocError> {
    match fault {
        PuzzleTextFault::Text(_) => text_hint(alloc, Document::Puzzle, text),
        PuzzleTextFault::Board(_) => match said_in(alloc, text) {
            Some(said) => board_hint(alloc, &said.text),
            None => Ok(None),
        },
        PuzzleTextFault::Puzzle(fault) => match said_in(alloc, text) {
            Some(said) => said.hint(alloc, fault),
            None => Ok(None),
        },
        PuzzleTextFault::Memory => Ok(None),
    }
}

// What a text says of a puzzle, and its board, if there is such a board.
#[derive(Drop)]
struct Said {
    text: PuzzleText,
    board: Option<Board>,
}

// What this text says; none where it has a fault, or memory is refused.
fn said_in(alloc: Global, text: &[u8]) -> Option<Said> {
    if text.len() > MOST_BYTES as usize {
        return None;
    }
    let text = read_puzzle_text(alloc, text).ok()?;
    let board = text.make_board().ok();
    Some(Said { text, board })
}

// How many cells the line of a board asks for.
fn cells_of(text: &PuzzleText) -> usize {
    match text.board {
        BoardLine::Rectangle { width, height } => usize::from(width) * usize::from(height),
        BoardLine::Triangle { size } => usize::from(size) * usize::from(size),
        BoardLine::Hexagon { size } => 6 * usize::from(size) * usize::from(size),
        BoardLine::Shape { .. } => text.marks.iter().filter(|mark| **mark).count(),
    }
}

// How many lines stand between that of the board and that of turns.
fn rows_of(text: &PuzzleText) -> usize {
    match text.board {
        BoardLine::Rectangle { .. } | BoardLine::Triangle { .. } | BoardLine::Hexagon { .. } => 0,
        BoardLine::Shape { height, .. } => usize::from(height),
    }
}

// How many cells or places a board may have, for a text whose board has another number of them.
fn board_hint(alloc: Global, text: &PuzzleText) -> Result<Option<String>, AllocError> {
    let cells = cells_of(text);
    let is_shape = matches!(text.board, BoardLine::Shape { .. });
    let places = text.marks.len();
    if is_shape && places > MOST_PLACES {
        let hint = format!(in alloc;
            "the board of puzzle line 2 has {places} places: at most {MOST_PLACES} are allowed"
        )?;
        return Ok(Some(hint));
    }
    let most = if is_shape {
        MOST_CELLS
    } else {
        MOST_PLAIN_CELLS
    };
    let further = shape_note(text, cells);
    let hint = format!(in alloc;
        "the board of puzzle line 2 has {cells} cells: 1 to {most} are allowed{further}"
    )?;
    Ok(Some(hint))
}

// The note that a shape may have `cells` cells, if the board is a rectangle that may not have them; else nothing.
fn shape_note(text: &PuzzleText, cells: usize) -> &'static str {
    let is_rectangle = matches!(text.board, BoardLine::Rectangle { .. });
    if !is_rectangle || cells <= usize::from(MOST_PLAIN_CELLS) || cells > usize::from(MOST_CELLS) {
        ""
    } else if text.version == 3 {
        "; a board \"shape\" may have up to 256"
    } else {
        "; a board \"shape\" in \"match 2\" may have up to 256"
    }
}

// That there may be more tiles than cells, in version 3 alone.
fn more_tiles_note(text: &PuzzleText, cells: usize) -> &'static str {
    if text.version == 3 {
        ", and there may be more"
    } else if text.tiles.len() > cells {
        "; more tiles than cells stand in \"match 3\" alone"
    } else {
        ""
    }
}

impl Said {
    // What has to be changed where the puzzle has this fault.
    fn hint(&self, alloc: Global, fault: &PuzzleFault) -> Result<Option<String>, AllocError> {
        let Some(board) = &self.board else {
            return Ok(None);
        };
        match *fault {
            PuzzleFault::FixedTriangles => {
                let hint = String::from_str(
                    alloc,
                    "puzzle line 3 has to be \"turns yes\": the cells are triangles, whose tiles are always turned",
                )?;
                Ok(Some(hint))
            }
            PuzzleFault::TileCount => Ok(Some(self.count_hint(alloc, board)?)),
            PuzzleFault::TileSides(tile) => self.sides_hint(alloc, board, tile as usize),
            PuzzleFault::BorderLength => self.border_hint(alloc, board),
            PuzzleFault::Mates(colour) => self.mates_hint(alloc, colour),
            PuzzleFault::Clue(number) => {
                clue_hint(
                    alloc,
                    &self.text,
                    board,
                    number as usize,
                    self.first_clue_line(),
                )
            }
            PuzzleFault::BadColour(_) | PuzzleFault::Memory => Ok(None),
        }
    }

    fn count_hint(&self, alloc: Global, board: &Board) -> Result<String, AllocError> {
        let (cells, tiles) = (board.cells(), self.text.tiles.len());
        let line = self.first_tile_line().saturating_sub(1);
        let several = if cells == 1 { "" } else { "s" };
        let further = more_tiles_note(&self.text, usize::from(cells));
        format!(in alloc;
            "the board of puzzle line 2 has {cells} cell{several}, and puzzle line {line} says \"tiles {tiles}\": \
             there has to be a tile for each cell{further}"
        )
    }

    // The line of the first tile. Before it stand those of the version, the board, rows, turns, the border and the
    // count, from version 2 on one of mates, and in version 3 those of clues with their count.
    fn first_tile_line(&self) -> usize {
        let further = match self.text.version {
            1 => 0,
            2 => 1,
            _ => self.text.clues.len().saturating_add(2),
        };
        rows_of(&self.text)
            .saturating_add(6)
            .saturating_add(further)
    }

    // The line of the first clue, where there is one. Before it stand those of the version, the board, rows, turns, the
    // border, mates and the count.
    fn first_clue_line(&self) -> usize {
        rows_of(&self.text).saturating_add(7)
    }

    fn sides_hint(
        &self,
        alloc: Global,
        board: &Board,
        tile: usize,
    ) -> Result<Option<String>, AllocError> {
        let Some(shown) = self.text.tiles.get(tile) else {
            return Ok(None);
        };
        let word = tile_word(alloc, shown)?;
        let (line, sides) = (self.first_tile_line().saturating_add(tile), board.sides());
        let hint = format!(in alloc;
            "puzzle line {line}, word 2, which is tile {tile}, has to have {sides} colours, \
             as each cell of the board has {sides} sides; it is \"{word}\""
        )?;
        Ok(Some(hint))
    }

    fn border_hint(&self, alloc: Global, board: &Board) -> Result<Option<String>, AllocError> {
        let Border::Each(rules) = &self.text.border else {
            return Ok(None);
        };
        let line = rows_of(&self.text).saturating_add(4);
        let (outer, rules) = (board.border_len(), rules.as_slice().len());
        let several = if rules == 1 { "" } else { "s" };
        let hint = format!(in alloc;
            "puzzle line {line} has {rules} colour{several} behind \"each\", and the board has {outer} outer sides: \
             there has to be one for each"
        )?;
        Ok(Some(hint))
    }

    fn mates_hint(&self, alloc: Global, colour: u32) -> Result<Option<String>, AllocError> {
        let mates = self.text.mates.as_slice();
        let Some(mate) = mates.get(colour as usize) else {
            return Ok(None);
        };
        let line = rows_of(&self.text).saturating_add(5);
        let word = colour.saturating_add(2);
        let (own, other) = (letter(colour), letter(u32::from(*mate)));
        let at = format!(in alloc;
            "puzzle line {line}, word {word}, gives colour {own} the mate {other}"
        )?;
        let back = mates.get(usize::from(*mate)).copied();
        Ok(Some(mate_hint(alloc, &at, own, other, back)?))
    }
}

// That the other colour has this mate, or none, where a colour was given that one at this place.
fn mate_hint(
    alloc: Global,
    at: &str,
    own: char,
    other: char,
    back: Option<u8>,
) -> Result<String, AllocError> {
    match back {
        Some(back) => {
            let back = letter(u32::from(back));
            format!(in alloc;
                "{at}, and {other} has the mate {back}: two colours have to be mates of each other"
            )
        }
        None => format!(in alloc;
            "{at}, which has no mate there: behind it a word has to give {other} the mate {own}"
        ),
    }
}

// The word of a tile.
fn tile_word(alloc: Global, tile: &Tile) -> Result<String, AllocError> {
    let mut word = String::new(alloc);
    for side in 0..tile.sides() {
        word.push(letter(u32::from(tile.shows(0, side))))?;
    }
    Ok(word)
}
