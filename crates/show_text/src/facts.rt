//! Facts of a puzzle that are known before it is solved.

ghost use Rattle.std.specs.Prelude.{◌≡◌, ◌++◌, ◌<◌, ◌≤◌, IfOk, OnOk, count_by, length, map, sum_by};
ghost use Rattle.std.specs.List.{flat_map, range_with_len};
ghost use Rattle.match_board.specs.Tile.{word};
ghost use Rattle.match_puzzle.specs.Puzzle.{IsPuzzle};
ghost use Rattle.match_board.specs.Borders.{rule_of};
ghost use Rattle.show_text.specs.Facts.{IsFacts, border_count, tile_count, colour_line, is_colour, is_rule};
ghost use Rattle.show_text.specs.Facts.{clues_text, mate_line, mates_text, named, own_mate_line, pair_line, turns_line};

use match_board::Tile;
use match_limits::{MOST_COLOURS, MOST_TILES};
use match_puzzle::{Border, Puzzle};
use std::alloc::{AllocError, Global};
use text_words::{character, put_number, put_number_line};

/// Facts of a puzzle, as lines:
///
/// - `cells N`, `tiles N` and `colours N`;
/// - for each colour C, from 0 on, `colour C: N on the border, N on tiles`: how many outer sides ask for it, and how
///   many sides of tiles have it;
/// - `tiles may be turned` or `tiles may not be turned`;
/// - `equal colours meet`; or where the puzzle has mates, `colours C and D are mates` or `colour C is its own mate`, a
///   line for each colour but the greater of two mates;
/// - `clues N`, where the puzzle has clues.
///
/// An `Err` comes only where memory is refused. It asks what each side of each cell meets, and goes through the tiles
/// once for each colour.
pub fn write_facts(alloc: Global, puzzle: &Puzzle) -> Result<Vec<u8>, AllocError>
    ensures { IfOk result (λ text. IsFacts puzzle.now text.items) }
{
    let mut text = Vec::new(alloc);
    let board = puzzle.board();
    let colours = puzzle.colours();
    put_number_line(&mut text, b"cells", u64::from(board.cells()))?;
    put_number_line(&mut text, b"tiles", u64::from(puzzle.tile_count()))?;
    put_number_line(&mut text, b"colours", u64::from(colours))?;
    put_colour_lines(&mut text, puzzle, board.border_len(), colours)?;
    put_turns_line(&mut text, puzzle.turns())?;
    put_mates(&mut text, puzzle, colours)?;
    put_clues(&mut text, puzzle)?;
    Ok(text)
}

// A line for each colour, where the board has `outer` outer sides.
fn put_colour_lines(
    text: &mut Vec<u8>,
    puzzle: &Puzzle,
    outer: u16,
    colours: u8,
) -> Result<(), AllocError>
    requires colours { colours ≤ MOST_COLOURS }
    requires puzzle { IsPuzzle puzzle.now }
    ensures { OnOk result (text.new.items ≡ text.old.items
        ++ flat_map (colour_line puzzle.now outer) (range_with_len 0 colours)) }
{
    for colour in 0..colours {
        put_colour_line(text, puzzle, outer, colour)?;
    }
    Ok(())
}

fn put_colour_line(
    text: &mut Vec<u8>,
    puzzle: &Puzzle,
    outer: u16,
    colour: u8,
) -> Result<(), AllocError>
    requires colour { colour < MOST_COLOURS }
    requires puzzle { IsPuzzle puzzle.now }
    ensures { OnOk result (text.new.items ≡ text.old.items ++ colour_line puzzle.now outer colour) }
{
    text.extend_from_slice(b"colour ")?;
    text.push(character(colour))?;
    text.extend_from_slice(b": ")?;
    put_number(text, sides_asked(puzzle.border(), outer, colour) as u64)?;
    text.extend_from_slice(b" on the border, ")?;
    put_number(text, sides_shown(puzzle.tiles(), colour) as u64)?;
    text.extend_from_slice(b" on tiles\n")?;
    Ok(())
}

// Whether tiles may be turned.
fn put_turns_line(text: &mut Vec<u8>, turns: bool) -> Result<(), AllocError>
    ensures { OnOk result (text.new.items ≡ text.old.items ++ turns_line turns) }
{
    if turns {
        text.extend_from_slice(b"tiles may be turned\n")
    } else {
        text.extend_from_slice(b"tiles may not be turned\n")
    }
}

// Which of the first `colours` colours are mates.
fn put_mates(text: &mut Vec<u8>, puzzle: &Puzzle, colours: u8) -> Result<(), AllocError>
    requires colours { colours ≤ MOST_COLOURS }
    requires puzzle { IsPuzzle puzzle.now }
    ensures { OnOk result (text.new.items ≡ text.old.items ++ mates_text puzzle.now puzzle.now.mating.mates colours) }
{
    match puzzle.mates() {
        [] => text.extend_from_slice(b"equal colours meet\n"),
        [_, ..] => put_mate_lines(text, puzzle, colours),
    }
}

// A line for each pair of mates, and for each colour that is its own mate.
fn put_mate_lines(text: &mut Vec<u8>, puzzle: &Puzzle, colours: u8) -> Result<(), AllocError>
    requires colours { colours ≤ MOST_COLOURS }
    requires puzzle { IsPuzzle puzzle.now }
    ensures { OnOk result (text.new.items ≡ text.old.items
        ++ flat_map (mate_line puzzle.now) (range_with_len 0 colours)) }
{
    for colour in 0..colours {
        put_mate_line(text, puzzle, colour)?;
    }
    Ok(())
}

fn put_mate_line(text: &mut Vec<u8>, puzzle: &Puzzle, colour: u8) -> Result<(), AllocError>
    requires colour { colour < MOST_COLOURS }
    requires puzzle { IsPuzzle puzzle.now }
    ensures { OnOk result (text.new.items ≡ text.old.items ++ mate_line puzzle.now colour) }
{
    let mate = puzzle.mate(colour);
    if mate == colour {
        return put_own_mate(text, colour);
    }
    if colour < mate {
        return put_pair(text, colour, mate);
    }
    Ok(())
}

fn put_own_mate(text: &mut Vec<u8>, colour: u8) -> Result<(), AllocError>
    requires { colour < MOST_COLOURS }
    ensures { OnOk result (text.new.items ≡ text.old.items ++ own_mate_line colour) }
{
    put_named(text, b"colour ", colour)?;
    text.extend_from_slice(b" is its own mate\n")?;
    Ok(())
}

fn put_pair(text: &mut Vec<u8>, colour: u8, mate: u8) -> Result<(), AllocError>
    requires colour { colour < MOST_COLOURS }
    requires mate { mate < MOST_COLOURS }
    ensures { OnOk result (text.new.items ≡ text.old.items ++ pair_line colour mate) }
{
    put_named(text, b"colours ", colour)?;
    put_named(text, b" and ", mate)?;
    text.extend_from_slice(b" are mates\n")?;
    Ok(())
}

// How many clues there are, where there are some.
fn put_clues(text: &mut Vec<u8>, puzzle: &Puzzle) -> Result<(), AllocError>
    ensures { OnOk result (text.new.items ≡ text.old.items ++ clues_text puzzle.now.clues) }
{
    match puzzle.clues() {
        [] => Ok(()),
        clues => put_number_line(text, b"clues", clues.len() as u64),
    }
}

/// Writes the words, and the sign of the colour.
pub fn put_named(text: &mut Vec<u8>, words: &[u8], colour: u8) -> Result<(), AllocError>
    requires { colour < MOST_COLOURS }
    ensures { OnOk result (text.new.items ≡ text.old.items ++ named words.now colour) }
{
    text.extend_from_slice(words)?;
    text.push(character(colour))?;
    Ok(())
}

/// How many outer sides ask for the colour, where the board has `outer` of them.
pub fn sides_asked(border: &Border, outer: u16, colour: u8) -> usize
    ensures { result ≡ border_count (rule_of border.now) outer colour }
{
    match border {
        Border::Free => 0,
        Border::One(asked) => {
            if *asked == colour {
                usize::from(outer)
            } else {
                0
            }
        }
        Border::Each(rules) => rules_asking(rules.as_slice(), colour),
    }
}

fn rules_asking(rules: &[Option<u8>], colour: u8) -> usize
    ensures { result ≡ count_by (is_rule colour) rules.now }
{
    let mut count = 0;
    for rule in rules {
        if asks(*rule, colour) {
            count += 1;
        }
    }
    count
}

fn asks(rule: Option<u8>, colour: u8) -> bool
    ensures { result ≡ is_rule colour rule }
{
    match rule {
        Some(asked) => asked == colour,
        None => false,
    }
}

/// How many sides of tiles have the colour.
pub fn sides_shown(tiles: &[Tile], colour: u8) -> usize
    requires { length tiles.now ≤ MOST_TILES }
    ensures { result ≡ sum_by (count_by (is_colour colour)) (map word tiles.now) }
{
    let mut count = 0;
    for tile in tiles {
        count += on_tile(tile, colour);
    }
    count
}

// How many sides of the tile have the colour.
fn on_tile(tile: &Tile, colour: u8) -> usize
    ensures count { result ≡ count_by (is_colour colour) (word tile.now) }
    ensures few { result ≤ 4 }
{
    let mut count = 0;
    for side in 0..tile.sides() {
        if tile.shows(0, side) == colour {
            count += 1;
        }
    }
    count
}
