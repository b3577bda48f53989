//! How the sides of tiles balance that aren't turned.
//!
//! On a board of squares each inner side meets one in the opposite direction, and the two match. So where more sides in
//! one direction give a colour than in the opposite one, the surplus has to lie at outer sides, and as many of these have
//! to be free.

ghost use Rattle.std.specs.Prelude.{◌≡◌, ◌<◌, ◌≤◌, ◌*◌, [], ℕ, IfOk, IfSome, IsTrue, MatchBool, length, slice_index};
ghost use Rattle.match_limits.specs.declared.TheConstants.{MOST_CELLS, MOST_COLOURS as colours};
ghost use Rattle.match_board.specs.Board.{cell_count, side_count, Meets};
ghost use Rattle.match_puzzle.specs.Puzzle.{colour_of};
ghost use Rattle.count_search.specs.Balance as balance;
ghost use Rattle.count_search.specs.Balance.{AreUnturnedSquares, IsBalance, IsShort, TellOuter, place_of, surplus};
ghost use Rattle.count_search.specs.BalanceSteps.{AddsPair, AddsTile, AreAtMost, AreTileSides, MayAdd, MayTakeBack};

use match_limits::{MOST_COLOURS, MOST_SIDES, SIDES};
use match_puzzle::{Border, Pair, Placement, Puzzle};
use std::alloc::{AllocError, Global};
use xcc_form::Xcc;

// How many numbers there are for all sides and colours.
const NUMBERS: usize = MOST_COLOURS as usize * SIDES;

/// What is counted of sides where some options are chosen.
#[derive(Drop)]
pub(crate) struct Balance {
    // for each cell, which of its sides are outer ones
    outer: Vec<[bool; SIDES]>,
    // for each side and colour, how many sides in this direction give the colour: those of tiles, and those of the border
    // at which a tile is put
    sides: [u32; NUMBERS],
    // for each side, how many outer sides in this direction have no tile yet
    free: [u32; SIDES],
    // no tile has this colour or a greater one
    colours: u8,
}

impl Balance {
    /// Returns the balance where nothing is chosen; `None` where it couldn't rule anything out.
    ///
    /// An error comes where memory is refused.
    pub(crate) fn of(alloc: Global, xcc: &Xcc<'_>) -> Result<Option<Balance>, AllocError>
        ensures { IfOk result (λ o. IfSome o (IsBalance xcc.now [])) }
    {
        let puzzle = xcc.puzzle();
        if !may_rule_out(puzzle) {
            return Ok(None);
        }
        let outer = outer_sides(alloc, puzzle)?;
        let free = outer_totals(&outer);
        Ok(Some(Balance {
            outer,
            sides: tile_sides(puzzle),
            free,
            colours: puzzle.colours(),
        }))
    }

    /// Counts an option that is chosen now.
    pub(crate) fn add(&mut self, puzzle: &Puzzle, pair: Pair)
        requires { MayAdd puzzle.now pair self.old }
        ensures { AddsPair puzzle.now pair self.old self.new }
    {
        for side in 0..MOST_SIDES {
            if self.outer[usize::from(pair.cell)][usize::from(side)] {
                let colour = given(puzzle, pair.placement, side);
                self.sides[number_of(opposite(side), colour)] += 1;
                self.free[usize::from(side)] -= 1;
            }
        }
    }

    /// Takes back an option that is chosen no more.
    pub(crate) fn take_back(&mut self, puzzle: &Puzzle, pair: Pair)
        requires { MayTakeBack puzzle.now pair self.old }
        ensures { AddsPair puzzle.now pair self.new self.old }
    {
        for side in 0..MOST_SIDES {
            if self.outer[usize::from(pair.cell)][usize::from(side)] {
                let colour = given(puzzle, pair.placement, side);
                self.sides[number_of(opposite(side), colour)] -= 1;
                self.free[usize::from(side)] += 1;
            }
        }
    }

    /// Whether in some direction fewer outer sides are free than have to be. The other two directions say the same.
    pub(crate) fn is_short(&self) -> bool
        ensures { IsTrue result → IsShort self.now }
    {
        self.is_short_at(0) || self.is_short_at(1)
    }

    // Whether in this direction fewer outer sides are free than have to be.
    fn is_short_at(&self, side: u8) -> bool
        requires { side < 4 }
        ensures { IsTrue result → slice_index self.now.free side < surplus self.now.sides side colours }
    {
        let mut more: u32 = 0;
        for colour in 0..self.colours.min(MOST_COLOURS) {
            let here = self.sides[number_of(side, colour)];
            let there = self.sides[number_of(opposite(side), colour)];
            more = more.saturating_add(here.saturating_sub(there));
        }
        more > self.free[usize::from(side)]
    }
}

// Whether a balance may rule something out: tiles aren't turned, each has to stand, and some outer side may show any
// colour. Where the border asks for colours, a balance is kept by whatever fits.
fn may_rule_out(puzzle: &Puzzle) -> bool
    ensures { IsTrue result → AreUnturnedSquares puzzle.now }
{
    if puzzle.turns() || puzzle.board().sides() != MOST_SIDES || !puzzle.have_all_to_stand() {
        return false;
    }
    matches!(puzzle.border(), Border::Free)
}

// For each cell, which of its sides are outer ones.
fn outer_sides(alloc: Global, puzzle: &Puzzle) -> Result<Vec<[bool; SIDES]>, AllocError>
    requires { side_count puzzle.now.board ≡ 4 }
    ensures { IfOk result (λ v. TellOuter puzzle.now.board v.items) }
{
    let mut outer = Vec::new(alloc);
    for cell in 0..puzzle.board().cells() {
        outer.push([
            is_outer(puzzle, cell, 0),
            is_outer(puzzle, cell, 1),
            is_outer(puzzle, cell, 2),
            is_outer(puzzle, cell, 3),
        ])?;
    }
    Ok(outer)
}

// Whether the side of the cell meets nothing.
fn is_outer(puzzle: &Puzzle, cell: u16, side: u8) -> bool
    requires cell { cell < cell_count puzzle.now.board }
    requires side { side < side_count puzzle.now.board }
    ensures { MatchBool result
        ((other met : ℕ) → Meets puzzle.now.board cell side other met → ⊥)
        ((other : ℕ) × (met : ℕ) × Meets puzzle.now.board cell side other met) }
{
    match puzzle.meets(cell, side) {
        None => true,
        Some(_) => false,
    }
}

// How many outer sides there are in each direction.
fn outer_totals(outer: &[[bool; SIDES]]) -> [u32; SIDES]
    requires { length outer.now ≤ MOST_CELLS }
    ensures { (side : ℕ) → side < 4 → slice_index result side ≡ balance.outer_total outer.now side }
{
    [
        outer_total(outer, 0),
        outer_total(outer, 1),
        outer_total(outer, 2),
        outer_total(outer, 3),
    ]
}

// How many outer sides there are in this direction.
fn outer_total(outer: &[[bool; SIDES]], side: usize) -> u32
    requires few { length outer.now ≤ MOST_CELLS }
    requires side { side < 4 }
    ensures { result ≡ balance.outer_total outer.now side }
{
    let mut total: u32 = 0;
    for row in outer {
        if row[side] {
            total += 1;
        }
    }
    total
}

// For each side and colour, how many tiles give it there.
fn tile_sides(puzzle: &Puzzle) -> [u32; NUMBERS]
    requires { side_count puzzle.now.board ≡ 4 }
    ensures { AreTileSides puzzle.now result }
{
    let mut sides = [0; NUMBERS];
    for tile in 0..puzzle.tile_count() {
        add_tile(puzzle, tile, &mut sides);
    }
    sides
}

// Counts the sides of a tile.
fn add_tile(puzzle: &Puzzle, tile: u16, sides: &mut [u32; NUMBERS])
    requires tile { tile < length puzzle.now.words }
    requires four { side_count puzzle.now.board ≡ 4 }
    requires room { AreAtMost tile sides.old }
    ensures { AddsTile puzzle.now tile sides.old sides.new }
{
    let placement = Placement { tile, turn: 0 };
    for side in 0..MOST_SIDES {
        let colour = given(puzzle, placement, side);
        sides[number_of(side, colour)] += 1;
    }
}

// What the placement gives to the edge at its side.
fn given(puzzle: &Puzzle, placement: Placement, side: u8) -> u8
    requires tile { placement.tile < length puzzle.now.words }
    requires side { side < side_count puzzle.now.board }
    ensures given { result ≡ balance.given puzzle.now side (colour_of puzzle.now placement side) }
    ensures below { result < colours }
{
    let colour = puzzle.colour(placement, side);
    if side < 2 {
        colour
    } else {
        puzzle.mate(colour)
    }
}

// The opposite side.
fn opposite(side: u8) -> u8
    requires { side < 4 }
    ensures value { result ≡ balance.opposite side }
    ensures below { result < 4 }
{
    (side + 2) % MOST_SIDES
}

// Where the number of a side and a colour stands.
fn number_of(side: u8, colour: u8) -> usize
    requires side { side < 4 }
    requires colour { colour < colours }
    ensures place { result ≡ place_of side colour }
    ensures below { result < colours * 4 }
{
    usize::from(MOST_COLOURS) * usize::from(side) + usize::from(colour)
}
