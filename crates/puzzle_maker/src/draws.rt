//! Draws arrangements: what each side of each cell shows, and what further tiles show.

ghost use Rattle.std.specs.Prelude.{◌≡◌, ◌<◌, ◌≤◌, ◌+◌, IfOk, OnOk, vec_len};
ghost use Rattle.match_limits.specs.declared.TheConstants.{MOST_COLOURS, MOST_RULES, MOST_TILES};
ghost use Rattle.match_board.specs.Board.{cell_count, side_count};

use crate::dice::Dice;
use crate::plans::Plan;
use match_limits::{MOST_TILES, SIDES};
use std::alloc::{AllocError, Global};

// How often tiles that are alike are drawn again.
const ROUNDS: u8 = 100;

// How many places there are for cells and further tiles.
const PLACES: usize = MOST_TILES as usize;

/// What a cell or a tile shows on each side.
pub(crate) type Word = [u8; SIDES];

/// A drawn arrangement. Places up to the number of cells are cells, and those behind are further tiles.
#[derive(Drop)]
pub(crate) struct Drawing<'p> {
    pub(crate) plan: &'p Plan,
    pub(crate) dice: Dice,
    words: [Word; PLACES],
}

impl<'p> Drawing<'p> {
    /// A drawing on which nothing is drawn.
    pub(crate) fn new(plan: &'p Plan) -> Drawing<'p> {
        Drawing {
            plan,
            dice: Dice::new(plan.draft.seed),
            words: [[0; SIDES]; PLACES],
        }
    }

    /// What the place shows.
    pub(crate) fn word(&self, place: u16) -> Word
        requires { place < MOST_TILES }
    {
        self.words[usize::from(place)]
    }

    /// Draws all anew. Where tiles have to differ, those that are alike are drawn again; `false` where some still are.
    pub(crate) fn draw(&mut self) -> bool {
        self.draw_cells();
        self.draw_further_tiles();
        if self.plan.draft.is_different || self.plan.draft.is_unique {
            self.draw_apart()
        } else {
            true
        }
    }

    fn draw_cells(&mut self) {
        for cell in 0..self.plan.board.cells() {
            self.draw_cell(cell);
        }
    }

    fn draw_cell(&mut self, cell: u16)
        requires { cell < cell_count self.old.plan.now.board }
        ensures { self.new.plan ≡ self.old.plan }
    {
        for side in 0..self.plan.board.sides() {
            self.draw_side(cell, side);
        }
    }

    // Draws a side of a cell, and with it the one that it meets.
    fn draw_side(&mut self, cell: u16, side: u8)
        requires cell { cell < cell_count self.old.plan.now.board }
        requires side { side < side_count self.old.plan.now.board }
        ensures { self.new.plan ≡ self.old.plan }
    {
        match self.plan.board.meets(cell, side) {
            None => {
                let colour = self.outer_colour(cell, side);
                self.words[usize::from(cell)][usize::from(side)] = colour;
            }
            Some((other, met)) => {
                let colour = self.inner_colour();
                self.words[usize::from(cell)][usize::from(side)] = colour;
                self.words[usize::from(other)][usize::from(met)] = self.plan.mate(colour);
            }
        }
    }

    // A colour for a side that meets another.
    fn inner_colour(&mut self) -> u8
        ensures { self.new.plan ≡ self.old.plan }
    {
        let inner = &self.plan.inner;
        let place = self.dice.below(inner.len() as u16);
        inner[usize::from(place)]
    }

    // A colour for a side that meets nothing: what the border asks for, or any.
    fn outer_colour(&mut self, cell: u16, side: u8) -> u8
        requires { side < 4 }
        ensures { self.new.plan ≡ self.old.plan }
    {
        match self.plan.asked(cell, side) {
            Some(colour) => colour,
            None => self.dice.colour(self.plan.draft.colours),
        }
    }

    fn draw_further_tiles(&mut self) {
        for place in self.plan.board.cells()..self.plan.tiles() {
            self.draw_further_tile(place);
        }
    }

    // Draws a tile that looks as if it were cut from the board: as at some cell, with colours of its own.
    fn draw_further_tile(&mut self, place: u16)
        requires { place < MOST_TILES }
        ensures { self.new.plan ≡ self.old.plan }
    {
        let cell = self.dice.below(self.plan.board.cells());
        for side in 0..self.plan.board.sides() {
            let colour = if self.plan.board.is_border(cell, side) {
                self.outer_colour(cell, side)
            } else {
                self.inner_colour()
            };
            self.words[usize::from(place)][usize::from(side)] = colour;
        }
    }

    // Draws tiles that are alike again, until none are; `false` where some still are.
    fn draw_apart(&mut self) -> bool {
        for _ in 0..ROUNDS {
            if !self.draw_alike_anew() {
                return true;
            }
        }
        false
    }

    // Draws each tile that is like an earlier one again. Whether there was any.
    fn draw_alike_anew(&mut self) -> bool {
        let mut found = false;
        for place in 0..self.plan.tiles() {
            if self.is_alike(place) {
                self.draw_anew(place);
                found = true;
            }
        }
        found
    }

    // Draws one side of a cell again, or all sides of a further tile.
    fn draw_anew(&mut self, place: u16)
        requires { place < MOST_TILES }
        ensures { self.new.plan ≡ self.old.plan }
    {
        if place < self.plan.board.cells() {
            let side = self.dice.below(u16::from(self.plan.board.sides()));
            self.draw_side(place, side as u8);
        } else {
            self.draw_further_tile(place);
        }
    }

    // Whether a turn of the tile is an earlier tile; or the tile itself, where it is not to be its own turn.
    fn is_alike(&self, place: u16) -> bool
        requires { place < MOST_TILES }
    {
        let sides = self.plan.board.sides();
        for turns in 0..sides {
            if self.is_alike_after(place, turns) {
                return true;
            }
        }
        false
    }

    // Whether the tile after so many turns is an earlier one, or itself.
    fn is_alike_after(&self, place: u16, turns: u8) -> bool
        requires place { place < MOST_TILES }
        requires turns { turns ≤ 4 }
    {
        let draft = &self.plan.draft;
        let word = self.words[usize::from(place)];
        let turned = turned(word, self.plan.board.sides(), turns);
        let earlier = &self.words[..usize::from(place)];
        let is_earlier = (turns == 0 || self.plan.turns) && earlier.contains(&turned);
        let is_own = turns > 0 && draft.is_different && turned == word;
        is_earlier || is_own
    }

    /// The colours of the outer sides, by cell, then by side.
    pub(crate) fn outer_sides(&self, alloc: Global) -> Result<Vec<u8>, AllocError>
        ensures { IfOk result (λ v. vec_len v ≤ MOST_RULES) }
    {
        let mut colours = Vec::new(alloc);
        for cell in 0..self.plan.board.cells() {
            self.put_outer_sides(cell, &mut colours)?;
        }
        Ok(colours)
    }

    fn put_outer_sides(&self, cell: u16, colours: &mut Vec<u8>) -> Result<(), AllocError>
        requires { cell < cell_count self.now.plan.now.board }
        ensures { OnOk result (vec_len colours.new ≤ vec_len colours.old + 4) }
    {
        for side in 0..self.plan.board.sides() {
            if self.plan.board.is_border(cell, side) {
                colours.push(self.words[usize::from(cell)][usize::from(side)])?;
            }
        }
        Ok(())
    }
}

/// The word after so many turns of its tile.
pub(crate) fn turned(word: Word, sides: u8, turns: u8) -> Word
    requires sides { sides ≤ 4 }
    requires turns { turns ≤ 4 }
{
    let mut colours = [0; SIDES];
    for side in 0..sides {
        colours[usize::from(side)] = word[usize::from((side + turns) % sides)];
    }
    colours
}
