//! Cuts a drawn arrangement up: its tiles are shuffled and turned.

ghost use Rattle.std.specs.Prelude.{◌≤◌, IfOk, vec_len};
ghost use Rattle.match_limits.specs.declared.TheConstants.{MOST_RULES, MOST_TILES};

use crate::draws::{Drawing, Word, turned};
use match_board::Tile;
use match_puzzle::Placement;
use std::alloc::{AllocError, Global};

/// Tiles, how they are put together, and what outer sides show then.
#[derive(Drop)]
pub(crate) struct Cut {
    pub(crate) tiles: Vec<Tile>,
    pub(crate) planted: Vec<Placement>,
    pub(crate) outer_sides: Vec<u8>,
    ghost few_tiles: { vec_len tiles ≤ MOST_TILES },
    ghost few_outer: { vec_len outer_sides ≤ MOST_RULES },
}

// A tile before it is turned: its place, and what it shows there.
#[derive(Clone, Copy)]
struct Piece {
    place: u16,
    word: Word,
}

// What stands at a cell of which the tile isn't turned yet.
const NOTHING: Placement = Placement { tile: 0, turn: 0 };

impl Drawing<'_> {
    /// Cuts the drawing up; `None` where it shows what is no colour, which doesn't happen.
    pub(crate) fn cut(&mut self, alloc: Global) -> Result<Option<Cut>, AllocError> {
        let outer_sides = self.outer_sides(alloc)?;
        let pieces = self.shuffled(alloc)?;
        let cells = usize::from(self.plan.board.cells());
        let mut tiles = Vec::new(alloc);
        let mut planted = vec![in alloc; NOTHING; cells]?;
        for (number, piece) in pieces.iter().enumerate() {
            let Some((tile, turn)) = self.turn(piece.word) else {
                return Ok(None);
            };
            tiles.push(tile)?;
            let place = usize::from(piece.place);
            if place < planted.len() {
                planted[place] = Placement {
                    tile: number as u16,
                    turn,
                };
            }
        }
        Ok(Some(Cut {
            tiles,
            planted,
            outer_sides,
        }))
    }

    // The tiles in random order.
    fn shuffled(&mut self, alloc: Global) -> Result<Vec<Piece>, AllocError>
        ensures { IfOk result (λ v. vec_len v ≤ MOST_TILES) }
    {
        let mut pieces = Vec::new(alloc);
        for place in 0..self.plan.tiles() {
            pieces.push(Piece {
                place,
                word: self.word(place),
            })?;
        }
        self.dice.shuffle(&mut pieces);
        Ok(pieces)
    }

    // A tile with this word, turned at random if it may be; and how often it has to be turned to show the word.
    fn turn(&mut self, word: Word) -> Option<(Tile, u8)> {
        let sides = self.plan.board.sides();
        let turns = if self.plan.turns {
            self.dice.below(u16::from(sides)) as u8
        } else {
            0
        };
        let Ok(tile) = Tile::new(turned(word, sides, turns), sides) else {
            return None;
        };
        let back = (sides - turns) % sides;
        Some((tile, back % tile.period()))
    }
}
