//! Writes puzzles.

ghost use Rattle.std.specs.Prelude.{◌≡◌, ◌<◌, ◌≤◌, ◌*◌, ◌++◌, ◌∷◌, [], Ok, length, map, decimal, IfOk, OnOk};
ghost use Rattle.std.specs.List.{AllByRecursion};
ghost use Rattle.match_board.specs.declared.figures.Figure.{Figure};
ghost use Rattle.match_board.specs.declared.figures.Figure.TheVariants.{Rectangle, Triangle, Hexagon, Shape};
ghost use Rattle.match_board.specs.Board.{IsBoard};
ghost use Rattle.match_board.specs.Tile.{word as colours_of};
ghost use Rattle.match_board.specs.Mates.{mating_of};
ghost use Rattle.match_board.specs.Clues.{clue_of};
ghost use Rattle.match_board.specs.Borders.{rule_of, each, one, free};
ghost use Rattle.match_text.specs.Puzzles.{PuzzleReads};
ghost use Rattle.text_words.specs.Spelling.{line_text, text_of, colour_word, rule_word};
ghost use Rattle.text_words.specs.Spelling.{tile_word, ask_character, asks_word};
ghost use Rattle.text_words.specs.Within.{IsRuleWithin};
ghost use Rattle.match_text.specs.PuzzleSpelling.{mark_character, row_words, row_lines, board_lines};
ghost use Rattle.match_text.specs.PuzzleSpelling.{board_words, turns_words, border_words, tile_words, puzzle_spelling};
ghost use Rattle.match_text.specs.PuzzleSpelling.{AreRulesWithin, mates_words, mates_lines, clue_words, counted_lines};
ghost use Rattle.match_text.specs.PuzzleSpelling.{clues_lines};

use match_board::{Board, Clue, Figure, Tile};
use match_limits::MOST_COLOURS;
use match_puzzle::{Border, Puzzle};
use std::alloc::{AllocError, Global};
use text_words::{character, put_end, put_number, put_number_line};

// These bytes, a width and a height, and the end of the line.
fn put_lengths(text: &mut Vec<u8>, bytes: &[u8], width: u16, height: u16) -> Result<(), AllocError>
    ensures { OnOk result (text.new.items ≡ text.old.items
        ++ (bytes.now ++ (decimal width ++ 32 ∷ (decimal height ++ 10 ∷ [])))) }
{
    text.extend_from_slice(bytes)?;
    put_number(text, u64::from(width))?;
    text.push(b' ')?;
    put_number(text, u64::from(height))?;
    text.push(b'\n')?;
    Ok(())
}

#[tactic(auto, unfolding(text_words::specs::Spelling::text_of, text_words::specs::Spelling::line_text))]
fn put_rectangle(text: &mut Vec<u8>, width: u16, height: u16) -> Result<(), AllocError>
    ensures { OnOk result (text.new.items ≡ text.old.items ++ text_of (board_words (Rectangle width height) ∷ [])) }
{
    put_lengths(text, b"board rect ", width, height)
}

#[tactic(auto, unfolding(text_words::specs::Spelling::text_of, text_words::specs::Spelling::line_text))]
fn put_triangle(text: &mut Vec<u8>, size: u16) -> Result<(), AllocError>
    ensures { OnOk result (text.new.items ≡ text.old.items ++ text_of (board_words (Triangle size) ∷ [])) }
{
    put_number_line(text, b"board triangle", u64::from(size))
}

#[tactic(auto, unfolding(text_words::specs::Spelling::text_of, text_words::specs::Spelling::line_text))]
fn put_hexagon(text: &mut Vec<u8>, size: u16) -> Result<(), AllocError>
    ensures { OnOk result (text.new.items ≡ text.old.items ++ text_of (board_words (Hexagon size) ∷ [])) }
{
    put_number_line(text, b"board hexagon", u64::from(size))
}

fn put_shape(text: &mut Vec<u8>, width: u16, height: u16) -> Result<(), AllocError>
    ensures { OnOk result (text.new.items ≡ text.old.items ++ text_of (board_words (Shape width height []) ∷ [])) }
{
    put_lengths(text, b"board shape ", width, height)
}

fn put_marks(text: &mut Vec<u8>, row: &[bool]) -> Result<(), AllocError>
    ensures { OnOk result (text.new.items ≡ text.old.items ++ map mark_character row.now) }
{
    for mark in row {
        text.push(if *mark { b'#' } else { b'.' })?;
    }
    Ok(())
}

#[tactic(auto, unfolding(text_words::specs::Spelling::line_text))]
fn put_row(text: &mut Vec<u8>, row: &[bool]) -> Result<(), AllocError>
    ensures { OnOk result (text.new.items ≡ text.old.items ++ line_text (row_words row.now)) }
{
    text.extend_from_slice(b"row ")?;
    put_marks(text, row)?;
    text.push(b'\n')?;
    Ok(())
}

fn put_mask(text: &mut Vec<u8>, width: u16, height: u16, mask: &[bool]) -> Result<(), AllocError>
    requires { height * width ≤ length mask.now }
    ensures { OnOk result (text.new.items ≡ text.old.items ++ text_of (row_lines width height mask.now)) }
{
    let width = usize::from(width);
    let mut rest = mask;
    for _ in 0..height {
        put_row(text, &rest[..width])?;
        rest = &rest[width..];
    }
    Ok(())
}

fn put_board(text: &mut Vec<u8>, board: &Board) -> Result<(), AllocError>
    requires { IsBoard board.now }
    ensures { OnOk result (text.new.items ≡ text.old.items ++ text_of (board_lines board.now)) }
{
    match *board.figure() {
        Figure::Rectangle { width, height } => put_rectangle(text, width, height),
        Figure::Triangle { size } => put_triangle(text, size),
        Figure::Hexagon { size } => put_hexagon(text, size),
        Figure::Shape {
            width,
            height,
            ref mask,
        } => {
            put_shape(text, width, height)?;
            put_mask(text, width, height, mask)?;
            Ok(())
        }
    }
}

#[tactic(auto, unfolding(text_words::specs::Spelling::text_of, text_words::specs::Spelling::line_text))]
fn put_turns(text: &mut Vec<u8>, turns: bool) -> Result<(), AllocError>
    ensures { OnOk result (text.new.items ≡ text.old.items ++ text_of (turns_words turns ∷ [])) }
{
    if turns {
        text.extend_from_slice(b"turns yes\n")?;
    } else {
        text.extend_from_slice(b"turns no\n")?;
    }
    Ok(())
}

#[tactic(auto, unfolding(text_words::specs::Spelling::text_of, text_words::specs::Spelling::line_text))]
fn put_free(text: &mut Vec<u8>) -> Result<(), AllocError>
    ensures { OnOk result (text.new.items ≡ text.old.items ++ text_of (border_words free ∷ [])) }
{
    text.extend_from_slice(b"border free\n")?;
    Ok(())
}

#[tactic(auto, unfolding(text_words::specs::Spelling::text_of, text_words::specs::Spelling::line_text))]
fn put_one(text: &mut Vec<u8>, colour: u8) -> Result<(), AllocError>
    requires { colour < MOST_COLOURS }
    ensures { OnOk result (text.new.items ≡ text.old.items ++ text_of (border_words (one colour) ∷ [])) }
{
    text.extend_from_slice(b"border one ")?;
    text.push(character(colour))?;
    text.push(b'\n')?;
    Ok(())
}

fn put_rule(text: &mut Vec<u8>, rule: Option<u8>) -> Result<(), AllocError>
    requires { IsRuleWithin rule }
    ensures { OnOk result (text.new.items ≡ text.old.items ++ 32 ∷ rule_word rule) }
{
    text.push(b' ')?;
    match rule {
        None => text.push(b'-')?,
        Some(colour) => text.push(character(colour))?,
    }
    Ok(())
}

fn put_rules(text: &mut Vec<u8>, rules: &[Option<u8>]) -> Result<(), AllocError>
    requires { AllByRecursion IsRuleWithin rules.now }
    ensures { OnOk result (text.new.items ≡ text.old.items ++ text_of (border_words (each rules.now) ∷ [])) }
{
    text.extend_from_slice(b"border each")?;
    for rule in rules {
        put_rule(text, *rule)?;
    }
    text.push(b'\n')?;
    Ok(())
}

fn put_border(text: &mut Vec<u8>, border: &Border) -> Result<(), AllocError>
    requires { AreRulesWithin (rule_of border.now) }
    ensures { OnOk result (text.new.items ≡ text.old.items ++ text_of (border_words (rule_of border.now) ∷ [])) }
{
    match border {
        Border::Free => put_free(text),
        Border::One(colour) => put_one(text, *colour),
        Border::Each(rules) => put_rules(text, rules.as_slice()),
    }
}

fn put_colour(text: &mut Vec<u8>, colour: u8) -> Result<(), AllocError>
    requires { colour < MOST_COLOURS }
    ensures { OnOk result (text.new.items ≡ text.old.items ++ 32 ∷ colour_word colour) }
{
    text.push(b' ')?;
    text.push(character(colour))?;
    Ok(())
}

fn put_mates(text: &mut Vec<u8>, mates: &[u8]) -> Result<(), AllocError>
    requires { AllByRecursion (λ colour. colour < MOST_COLOURS) mates.now }
    ensures { OnOk result (text.new.items ≡ text.old.items ++ text_of (mates_words mates.now ∷ [])) }
{
    text.extend_from_slice(b"mates")?;
    for mate in mates {
        put_colour(text, *mate)?;
    }
    text.push(b'\n')?;
    Ok(())
}

// The line of the mates, if the version has one.
#[tactic(auto, unfolding(text_words::specs::Spelling::text_of))]
fn put_mating(text: &mut Vec<u8>, version: u8, mates: &[u8]) -> Result<(), AllocError>
    requires { AllByRecursion (λ colour. colour < MOST_COLOURS) mates.now }
    ensures { OnOk result (text.new.items ≡ text.old.items ++ text_of (mates_lines (mating_of version mates.now))) }
{
    if version == 1 {
        return Ok(());
    }
    put_mates(text, mates)
}

// What is asked of a side.
fn put_ask(text: &mut Vec<u8>, rule: Option<u8>) -> Result<(), AllocError>
    requires { IsRuleWithin rule }
    ensures { OnOk result (text.new.items ≡ text.old.items ++ ask_character rule ∷ []) }
{
    match rule {
        None => text.push(b'-')?,
        Some(colour) => text.push(character(colour))?,
    }
    Ok(())
}

// What the clue asks of each side.
fn put_asks(text: &mut Vec<u8>, clue: &Clue) -> Result<(), AllocError>
    ensures { OnOk result (text.new.items ≡ text.old.items ++ asks_word (clue_of clue.now).asks) }
{
    for side in 0..clue.sides() {
        put_ask(text, clue.asks(side))?;
    }
    Ok(())
}

#[tactic(auto, unfolding(text_words::specs::Spelling::line_text))]
fn put_clue(text: &mut Vec<u8>, clue: &Clue) -> Result<(), AllocError>
    ensures { OnOk result (text.new.items ≡ text.old.items ++ line_text (clue_words (clue_of clue.now))) }
{
    text.extend_from_slice(b"clue ")?;
    put_number(text, u64::from(clue.cell()))?;
    text.push(b' ')?;
    put_asks(text, clue)?;
    text.push(b'\n')?;
    Ok(())
}

fn put_clues(text: &mut Vec<u8>, clues: &[Clue]) -> Result<(), AllocError>
    ensures { OnOk result (text.new.items ≡ text.old.items ++ text_of (map clue_words (map clue_of clues.now))) }
{
    for clue in clues {
        put_clue(text, clue)?;
    }
    Ok(())
}

// How many clues there are, and each.
fn put_counted_clues(text: &mut Vec<u8>, clues: &[Clue]) -> Result<(), AllocError>
    ensures { OnOk result (text.new.items ≡ text.old.items ++ text_of (counted_lines (map clue_of clues.now))) }
{
    put_number_line(text, b"clues", clues.len() as u64)?;
    put_clues(text, clues)?;
    Ok(())
}

// The lines of the clues, if the version has them.
#[tactic(auto, unfolding(text_words::specs::Spelling::text_of))]
fn put_clue_part(text: &mut Vec<u8>, version: u8, clues: &[Clue]) -> Result<(), AllocError>
    ensures { OnOk result
        (text.new.items ≡ text.old.items ++ text_of (clues_lines version (map clue_of clues.now))) }
{
    if version == 3 {
        return put_counted_clues(text, clues);
    }
    Ok(())
}

/// Writes a tile's word.
pub fn put_colours(text: &mut Vec<u8>, tile: &Tile) -> Result<(), AllocError>
    ensures { OnOk result (text.new.items ≡ text.old.items ++ tile_word (colours_of tile.now)) }
{
    for side in 0..tile.sides() {
        text.push(character(tile.shows(0, side)))?;
    }
    Ok(())
}

#[tactic(auto, unfolding(text_words::specs::Spelling::line_text))]
fn put_tile(text: &mut Vec<u8>, tile: &Tile) -> Result<(), AllocError>
    ensures { OnOk result (text.new.items ≡ text.old.items ++ line_text (tile_words (colours_of tile.now))) }
{
    text.extend_from_slice(b"tile ")?;
    put_colours(text, tile)?;
    text.push(b'\n')?;
    Ok(())
}

fn put_tiles(text: &mut Vec<u8>, tiles: &[Tile]) -> Result<(), AllocError>
    ensures { OnOk result (text.new.items ≡ text.old.items ++ text_of (map tile_words (map colours_of tiles.now))) }
{
    for tile in tiles {
        put_tile(text, tile)?;
    }
    Ok(())
}

/// The text of the puzzle. Reading it gives the puzzle back.
pub fn write_puzzle(alloc: Global, puzzle: &Puzzle) -> Result<Vec<u8>, AllocError>
    ensures spelling { IfOk result (λ text. text.items ≡ puzzle_spelling puzzle.now) }
    ensures reads { IfOk result (λ text. PuzzleReads text.items (Ok puzzle.now)) }
{
    let mut text = Vec::new(alloc);
    let board = puzzle.board();
    let tiles = puzzle.tiles();
    put_number_line(&mut text, b"match", u64::from(puzzle.version()))?;
    put_board(&mut text, board)?;
    put_turns(&mut text, puzzle.turns())?;
    put_border(&mut text, puzzle.border())?;
    put_mating(&mut text, puzzle.version(), puzzle.mates())?;
    put_clue_part(&mut text, puzzle.version(), puzzle.clues())?;
    put_number_line(&mut text, b"tiles", tiles.len() as u64)?;
    put_tiles(&mut text, tiles)?;
    put_end(&mut text)?;
    Ok(text)
}
