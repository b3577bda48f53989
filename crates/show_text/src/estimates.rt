//! Estimates how many arrangements a puzzle has.

ghost use Rattle.std.specs.Prelude.{◌<◌};
ghost use Rattle.match_board.specs.Board.{cell_count, side_count};

use crate::rough_numbers::RoughNumber;
use match_board::Tile;
use match_limits::{MOST_COLOURS, MOST_SIDES};
use match_puzzle::Puzzle;
use std::alloc::{AllocError, Global};

/// Estimates how many arrangements the puzzle has.
///
/// It is the number of ways to lay tiles on all cells, times a chance for each shared edge and for each outer side:
/// that they show what they have to, if the colour at each side of a tile were drawn by lot, each colour as often as
/// tiles have it. Where tiles may not be turned, the lots are drawn for each side apart. The true number may be far
/// from it, since the sides of a tile don't go their own ways.
///
/// An `Err` comes only where memory for a table of colours is refused. It asks what each side of each cell meets.
pub fn estimate_of(alloc: Global, puzzle: &Puzzle) -> Result<RoughNumber, AllocError> {
    let colours = SideColours::of(alloc, puzzle)?;
    let mut estimate = ways_to_lay(puzzle);
    for cell in 0..puzzle.board().cells() {
        estimate = with_sides(estimate, puzzle, &colours, cell);
    }
    Ok(estimate)
}

// In how many ways tiles can be laid, whatever they show.
fn ways_to_lay(puzzle: &Puzzle) -> RoughNumber {
    if !puzzle.have_all_to_stand() {
        return ways_to_lay_some(puzzle);
    }
    let mut ways = RoughNumber::of(1);
    let mut laid = 0u32;
    for tile in puzzle.tiles() {
        laid = laid.saturating_add(1);
        ways = ways.times(laid.saturating_mul(turns_of(puzzle, tile)), 1);
    }
    ways
}

// In how many ways a tile for each cell can be laid, where there are more tiles; each has as many turns as tiles have
// in the mean.
fn ways_to_lay_some(puzzle: &Puzzle) -> RoughNumber {
    let tiles = u32::from(puzzle.tile_count());
    let turns = turns_together(puzzle);
    let mut ways = RoughNumber::of(1);
    for laid in 0..u32::from(puzzle.board().cells()) {
        ways = ways.times(tiles.saturating_sub(laid).saturating_mul(turns), tiles);
    }
    ways
}

// How many different turns all tiles have together.
fn turns_together(puzzle: &Puzzle) -> u32 {
    let mut turns = 0u32;
    for tile in puzzle.tiles() {
        turns = turns.saturating_add(turns_of(puzzle, tile));
    }
    turns
}

// After how many turns the tile looks different, if it may be turned.
fn turns_of(puzzle: &Puzzle, tile: &Tile) -> u32 {
    if puzzle.turns() {
        u32::from(tile.period())
    } else {
        1
    }
}

// The estimate, times the chances of the cell's sides, of each shared edge at the lesser cell.
fn with_sides(before: RoughNumber, puzzle: &Puzzle, colours: &SideColours, cell: u16) -> RoughNumber
    requires { cell < cell_count puzzle.now.board }
{
    let mut estimate = before;
    for side in 0..puzzle.board().sides() {
        estimate = with_side(estimate, puzzle, colours, cell, side);
    }
    estimate
}

// The estimate, times the chance of the side.
fn with_side(
    before: RoughNumber,
    puzzle: &Puzzle,
    colours: &SideColours,
    cell: u16,
    side: u8,
) -> RoughNumber
    requires cell { cell < cell_count puzzle.now.board }
    requires side { side < side_count puzzle.now.board }
{
    let colour = puzzle.rule(cell, side);
    match met_by(puzzle, cell, side) {
        Some(met) if met.cell <= cell => before,
        Some(met) => {
            let here = Asked { cell, side, colour };
            before.times(colours.matching(puzzle, here, met), colours.pairs())
        }
        None => match colour {
            Some(asked) => before.times(colours.count(side, asked), colours.sides),
            None => before,
        },
    }
}

// A side of a cell, and the colour that is asked of it, or none.
#[derive(Clone, Copy)]
struct Asked {
    cell: u16,
    side: u8,
    colour: Option<u8>,
}

// The side that this one meets, and what is asked of it; none at the border.
fn met_by(puzzle: &Puzzle, cell: u16, side: u8) -> Option<Asked>
    requires cell { cell < cell_count puzzle.now.board }
    requires side { side < side_count puzzle.now.board }
{
    match puzzle.meets(cell, side) {
        Some((cell, side)) => Some(Asked {
            cell,
            side,
            colour: puzzle.rule(cell, side),
        }),
        None => None,
    }
}

// How often each colour stands on each side of the tiles; or on any, where tiles may be turned.
#[derive(Drop)]
struct SideColours {
    // by side and colour
    counts: Vec<u32>,
    // how many sides were counted for each side: at least one, at most 1,024
    sides: u32,
}

impl SideColours {
    fn of(alloc: Global, puzzle: &Puzzle) -> Result<SideColours, AllocError> {
        let board_sides = puzzle.board().sides();
        let mut counts = Vec::with_capacity(
            alloc,
            usize::from(MOST_SIDES) * usize::from(MOST_COLOURS),
        )?;
        for side in 0..MOST_SIDES {
            for colour in 0..MOST_COLOURS {
                counts.push(count_of(puzzle, side, colour))?;
            }
        }
        let tiles = u32::from(puzzle.tile_count());
        let sides = if puzzle.turns() {
            tiles * u32::from(board_sides)
        } else {
            tiles
        };
        Ok(SideColours { counts, sides })
    }

    // How often the colour stands on the side.
    fn count(&self, side: u8, colour: u8) -> u32 {
        let place = usize::from(side) * usize::from(MOST_COLOURS) + usize::from(colour);
        match self.counts.get(place) {
            Some(count) => *count,
            None => 0,
        }
    }

    // How often a side shows the colour; 0 if another is asked.
    fn count_as_asked(&self, asked: Asked, colour: u8) -> u32 {
        match asked.colour {
            Some(other) if other != colour => 0,
            _ => self.count(asked.side, colour),
        }
    }

    // Of how many pairs of sides, one of each of these, the colours go together and are those that are asked for.
    fn matching(&self, puzzle: &Puzzle, here: Asked, there: Asked) -> u32 {
        let mut matching = 0u32;
        for colour in 0..MOST_COLOURS {
            let pairs = self
                .count_as_asked(here, colour)
                .saturating_mul(self.count_as_asked(there, puzzle.mate(colour)));
            matching = matching.saturating_add(pairs);
        }
        matching
    }

    // Of how many pairs in all.
    fn pairs(&self) -> u32 {
        self.sides.saturating_mul(self.sides)
    }
}

// How many tiles have the colour on the side, or how many of their sides have it, where tiles may be turned.
fn count_of(puzzle: &Puzzle, side: u8, colour: u8) -> u32 {
    let mut count = 0u32;
    for tile in puzzle.tiles() {
        for other in 0..tile.sides() {
            if (puzzle.turns() || other == side) && tile.shows(0, other) == colour {
                count = count.saturating_add(1);
            }
        }
    }
    count
}
