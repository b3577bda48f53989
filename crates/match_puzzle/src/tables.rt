//! What a puzzle looks up and does not work out anew.

ghost use Rattle.std.specs.Prelude.{◌≡◌, ◌≢◌, ◌<◌, ◌≤◌, ◌+◌, ◌*◌, ◌^◌, ℕ, List, IfOk, MatchOption, MatchBool};
ghost use Rattle.std.specs.Prelude.{None, Some, [], false, length, map, slice_get, slice_index_or};
ghost use Rattle.match_board.specs.Board.{cell_count, side_count, IsBoard};
ghost use Rattle.match_board.specs.declared.figures.Figure.{Figure};
ghost use Rattle.match_limits.specs.First.{IsLeast};
ghost use Rattle.match_board.specs.Tile.{word};
ghost use Rattle.match_board.specs.Turns.{IsPeriod};
ghost use Rattle.match_board.specs.declared.tiles.Tile.{Tile as BoardTile};
ghost use Rattle.match_board.specs.Clues.{clue_of, AsksByClue};
ghost use Rattle.match_puzzle.specs.Parts.{task_of_parts};
ghost use Rattle.match_puzzle.specs.Puzzle.{AreClues, IsPuzzle, task_by};
ghost use Rattle.match_board.specs.Borders.{rule_of, StandsInRule, IsAsLongAsBorder};
ghost use Rattle.match_puzzle.specs.Colours.{IsColourCount};
ghost use Rattle.match_puzzle.specs.Tables.{IsSide, AreSides, AreTurnCounts, IsMade, IsNextNumber};
ghost use Rattle.match_puzzle.specs.Tables.{place_asked, rule_on, AreAskedAt};
ghost use Rattle.match_puzzle.specs.declared.tables.Side.TheVariants as sides;

use crate::asking::beginning;
use crate::clue_rules::{asked_by_clue, clue_colour_count};
use crate::parts::PuzzleParts;
use crate::placement_sets::{ANY_COLOUR, PlacementSets};
use crate::rules::Rules;
use match_board::{Board, Tile};
use match_limits::{MOST_COLOURS, SIDES};
use std::alloc::{AllocError, Global};

/// What a side of a cell is.
#[derive(Clone, Copy)]
pub(crate) enum Side {
    /// It meets nothing, and the border or a clue may ask for a colour.
    Border(Option<u8>),
    /// It meets this side of this cell, and a clue may ask for a colour.
    Edge {
        cell: u16,
        side: u8,
        rule: Option<u8>,
    },
}

impl Side {
    /// The colour that is asked of the side, whatever it meets.
    pub(crate) fn rule(self) -> Option<u8>
        ensures { result ≡ rule_on self }
    {
        match self {
            Side::Border(rule) => rule,
            Side::Edge { rule, .. } => rule,
        }
    }
}

/// The sides of a cell, in order; a triangle has no fourth.
#[derive(Clone, Copy)]
pub(crate) struct CellSides {
    pub(crate) sides: [Side; SIDES],
    /// Where in a table of what cells ask the colour stands that is asked of each side.
    pub(crate) asked_at: [usize; SIDES],
}

/// Where the first cell begins in a table of what cells ask, which has four places to a cell. Before it stands each
/// colour at its own place, and behind the last one what stands for none.
pub(crate) const FIRST_PLACE: usize = ANY_COLOUR as usize + 1;

/// What a puzzle keeps looked up.
#[derive(Drop)]
pub(crate) struct Tables {
    /// The sides of each cell.
    pub(crate) sides: Vec<CellSides>,
    /// How many turns of each tile are legal.
    pub(crate) turn_counts: Vec<u8>,
    /// One more than the greatest colour.
    pub(crate) colours: u8,
    /// Which placements are legal, and what they show and ask.
    pub(crate) sets: PlacementSets,
    /// What cells ask where nothing stands.
    pub(crate) asks: Vec<u8>,
    /// Whether there are clues. Without, nothing is asked of a side that meets an empty cell.
    pub(crate) clued: bool,
}

impl Tables {
    /// The tables of the puzzle of these parts.
    pub(crate) fn new(alloc: Global, parts: &PuzzleParts<'_, '_>) -> Result<Tables, AllocError>
        requires { IsPuzzle (task_of_parts parts.now) }
        ensures { IfOk result (IsMade (task_of_parts parts.now)) }
    {
        let rules = parts.rules;
        let tiles = parts.tiles;
        let sides = sides_table(alloc, &parts.board, rules)?;
        let turn_counts = turn_counts(alloc, rules, tiles)?;
        let sets = PlacementSets::new(alloc, tiles, &turn_counts, rules.mates)?;
        let asks = beginning(alloc, &sides)?;
        Ok(Tables {
            sides,
            turn_counts,
            colours: colour_count(rules, tiles),
            sets,
            asks,
            clued: has_clues(rules),
        })
    }
}

// Whether there are clues.
fn has_clues(rules: &Rules<'_>) -> bool
    ensures { result ≡ false → rules.now.clues.now ≡ [] }
{
    !rules.clues.is_empty()
}

// The sides of each cell.
fn sides_table(
    alloc: Global,
    board: &Board,
    rules: &Rules<'_>,
) -> Result<Vec<CellSides>, AllocError>
    requires border { IsAsLongAsBorder board.now (rule_of rules.now.border.now) }
    requires clues { (version : ℕ) (tiles : List BoardTile) → AreClues (task_by board.now rules.now version tiles) }
    ensures { IfOk result (λ v. (version : ℕ) (tiles : List BoardTile)
        → AreSides (task_by board.now rules.now version tiles) v.items) }
{
    let mut table = Vec::with_capacity(alloc, usize::from(board.cells()))?;
    let mut number = 0;
    for cell in 0..board.cells() {
        let sides = cell_sides(board, rules, cell, &mut number);
        table.push(sides)?;
    }
    Ok(table)
}

// The sides of a cell; the number is that of the next border pair.
fn cell_sides(board: &Board, rules: &Rules<'_>, cell: u16, number: &mut u16) -> CellSides
    requires board { IsBoard board.now }
    requires cell { cell < cell_count board.now }
    requires border { IsAsLongAsBorder board.now (rule_of rules.now.border.now) }
    requires clues { (version : ℕ) (tiles : List BoardTile) → AreClues (task_by board.now rules.now version tiles) }
    requires number { IsNextNumber board.now (cell, 0) number.old }
    ensures sides { (version : ℕ) (tiles : List BoardTile) (side : ℕ) (x : Side)
        → side < side_count board.now → slice_get result.sides side ≡ Some x
        → IsSide (task_by board.now rules.now version tiles) cell side x }
    ensures outside { (side : ℕ) → side_count board.now ≤ side → side < 4
        → slice_get result.sides side ≡ Some (sides.Border None) }
    ensures asked { AreAskedAt result.sides result.asked_at }
    ensures number { IsNextNumber board.now (cell + 1, 0) number.new }
{
    let mut sides = [Side::Border(None); SIDES];
    for side in 0..board.sides() {
        sides[usize::from(side)] = side_at(board, rules, cell, side, number);
    }
    CellSides {
        sides,
        asked_at: asked_places(&sides),
    }
}

// Where the colours stand that are asked of the sides.
fn asked_places(sides: &[Side; SIDES]) -> [usize; SIDES]
    ensures { AreAskedAt sides.now result }
{
    [
        asked_place(sides[0]),
        asked_place(sides[1]),
        asked_place(sides[2]),
        asked_place(sides[3]),
    ]
}

// Where the colour stands that is asked of the side: at its own place where the side meets nothing and has a rule, and
// else where the side stands that is met.
fn asked_place(side: Side) -> usize
    ensures { result ≡ place_asked side }
{
    match side {
        Side::Border(rule) => usize::from(rule.unwrap_or(ANY_COLOUR)),
        Side::Edge { cell, side, .. } => {
            FIRST_PLACE + SIDES * usize::from(cell) + usize::from(side)
        }
    }
}

// What a side of a cell is; the number is that of the next border pair.
fn side_at(board: &Board, rules: &Rules<'_>, cell: u16, side: u8, number: &mut u16) -> Side
    requires board { IsBoard board.now }
    requires cell { cell < cell_count board.now }
    requires side { side < side_count board.now }
    requires border { IsAsLongAsBorder board.now (rule_of rules.now.border.now) }
    requires clues { (version : ℕ) (tiles : List BoardTile) → AreClues (task_by board.now rules.now version tiles) }
    requires number { IsNextNumber board.now (cell, side) number.old }
    ensures side { (version : ℕ) (tiles : List BoardTile)
        → IsSide (task_by board.now rules.now version tiles) cell side result }
    ensures number { IsNextNumber board.now (cell, side + 1) number.new }
{
    let asked = asked_by_clue(rules.clues, cell, side);
    match board.meets(cell, side) {
        Some((cell, side)) => Side::Edge {
            cell,
            side,
            rule: asked,
        },
        None => {
            let rule = rules.border.rule_at(*number);
            *number += 1;
            Side::Border(first_asked(rule, asked))
        }
    }
}

// What the border asks, or else what the clue does.
fn first_asked(by_border: Option<u8>, by_clue: Option<u8>) -> Option<u8>
    ensures border { (colour : ℕ) → by_border ≡ Some colour → result ≡ Some colour }
    ensures clue { by_border ≡ None → result ≡ by_clue }
{
    match by_border {
        Some(colour) => Some(colour),
        None => by_clue,
    }
}

// How many turns of each tile are legal.
fn turn_counts(alloc: Global, rules: &Rules<'_>, tiles: &[Tile]) -> Result<Vec<u8>, AllocError>
    ensures { IfOk result (λ v. (board : Figure) (version : ℕ)
        → AreTurnCounts (task_by board rules.now version tiles.now) v.items) }
{
    let mut table = Vec::with_capacity(alloc, tiles.len())?;
    for tile in tiles {
        table.push(turn_count(rules.turns, tile))?;
    }
    Ok(table)
}

// How many turns of the tile are legal.
fn turn_count(turns: bool, tile: &Tile) -> u8
    ensures { MatchBool turns (IsPeriod (word tile.now) result) (result ≡ 1) }
{
    if turns { tile.period() } else { 1 }
}

// One more than the greatest colour on a tile or in the rules.
fn colour_count(rules: &Rules<'_>, tiles: &[Tile]) -> u8
    requires border { (place colour : ℕ) → StandsInRule (rule_of rules.now.border.now) place colour
        → colour < MOST_COLOURS }
    requires mates { length rules.now.mates.now ≤ MOST_COLOURS }
    ensures { (board : Figure) (version : ℕ) → IsColourCount (task_by board rules.now version tiles.now) result }
{
    let mut count = named_colour_count(rules);
    for tile in tiles {
        let of_tile = tile.colour_count();
        if of_tile > count {
            count = of_tile;
        }
    }
    count
}

// One more than the greatest colour in the border's rule, in the list of mates or in a clue.
fn named_colour_count(rules: &Rules<'_>) -> u8
    requires border { (place colour : ℕ) → StandsInRule (rule_of rules.now.border.now) place colour
        → colour < MOST_COLOURS }
    requires mates { length rules.now.mates.now ≤ MOST_COLOURS }
    ensures border { (place colour : ℕ) → StandsInRule (rule_of rules.now.border.now) place colour → colour < result }
    ensures mates { length rules.now.mates.now ≤ result }
    ensures clues { (cell side colour : ℕ) → AsksByClue (map clue_of rules.now.clues.now) cell side colour
        → colour < result }
    ensures least { (other : ℕ)
        → ((place colour : ℕ) → StandsInRule (rule_of rules.now.border.now) place colour → colour < other)
        → length rules.now.mates.now ≤ other
        → ((cell side colour : ℕ) → AsksByClue (map clue_of rules.now.clues.now) cell side colour → colour < other)
        → result ≤ other }
{
    rules
        .border
        .colour_count()
        .max(rules.mates.len() as u8)
        .max(clue_colour_count(rules.clues))
}

/// The first tile that does not have as many sides as a cell.
pub(crate) fn odd_tile(board: &Board, tiles: &[Tile]) -> Option<u32>
    requires { length tiles.now < 2 ^ 32 }
    ensures { MatchOption result
        ((tile : ℕ) → tile < length (map word tiles.now)
        → length (slice_index_or (map word tiles.now) tile []) ≡ side_count board.now)
        (IsLeast (λ tile. (tile < length (map word tiles.now))
        × (length (slice_index_or (map word tiles.now) tile []) ≢ side_count board.now))) }
{
    for (number, tile) in tiles.iter().enumerate() {
        if tile.sides() != board.sides() {
            return Some(number as u32);
        }
    }
    None
}
