//! Reads puzzles.

ghost use Rattle.std.specs.Prelude.{◌≡◌, ◌≢◌, ◌+◌, ◌*◌, ◌<◌, ◌^◌, ◌++◌, ℕ, Ok, Err, IfOk, IfErr, IfSome, OnOk};
ghost use Rattle.std.specs.Prelude.{[], length, map, take};
ghost use Rattle.match_board.specs.Board.{IsBoard, IsPlain, shape_of};
ghost use Rattle.match_board.specs.Tile.{word as tile_colours};
ghost use Rattle.match_limits.specs.First.{IsFirst};
ghost use Rattle.match_board.specs.Mates.{mating_of, IsOfVersion};
ghost use Rattle.match_board.specs.Clues.{clue_of};
ghost use Rattle.match_puzzle.specs.Puzzle.{Task, IsPuzzle};
ghost use Rattle.match_board.specs.Borders.{IsShortRule, rule_of};
ghost use Rattle.match_puzzle.specs.PuzzleFaults.{PuzzleFails, puzzle_rank};
ghost use Rattle.text_words.specs.declared.faults.TextKind.TheVariants as kinds;
ghost use Rattle.text_words.specs.Bytes.{line_ends};
ghost use Rattle.match_text.specs.PuzzleSpelling.{puzzle_spelling, IsTaskWithin};
ghost use Rattle.text_words.specs.PlainWords.{Judges, number_in};
ghost use Rattle.text_words.specs.Words.{marks_in, is_cell, colour_in, rule_in};
ghost use Rattle.text_words.specs.Place.{Gives, Reads, Says, times, entries, some_entries, word_by, fail};
ghost use Rattle.match_text.specs.Puzzles.{board_kind_in, board_size, board_line, turns_in, turns_line, border_kind_in};
ghost use Rattle.match_text.specs.Puzzles.{border_rule, border_line, tile_line, puzzle_text, puzzle_of, view_of};
ghost use Rattle.match_text.specs.Puzzles.{row_line, shape_rows, board_rows, figure_of, HasItsMarks, AddsRow};
ghost use Rattle.match_text.specs.Puzzles.{IsPuzzleVersion, puzzle_version_in, match_line};
ghost use Rattle.match_text.specs.Puzzles.{BoardFails, mates_line, mating_part, clue_line, counted_clues, clues_part};
ghost use Rattle.match_text.specs.Puzzles.{PuzzleReads, PuzzleGives};

use crate::faults::PuzzleTextFault;
use match_board::{Board, BoardFault, Clue, Figure, Tile};
use match_limits::{
    LAST_CELL, MOST_CELLS, MOST_COLOURS, MOST_LENGTH, MOST_PLACES, Ranges, ranges_of,
};
use match_puzzle::{Border, BorderRules, Puzzle, PuzzleFault, Rules};
use std::alloc::{AllocError, Global};
use text_words::{Asked, FaultPlace, ReadFault, Scan, TextFault, TextKind, row_word, version_word};

/// What a text says of a puzzle. There may be no such puzzle: tiles may be too few, for instance.
#[derive(Drop)]
pub struct PuzzleText {
    /// 1, 2 or 3.
    pub version: u8,
    pub board: BoardLine,
    /// For each place of a shape, row by row, whether it has a cell. Empty for other boards.
    pub marks: Vec<bool>,
    pub turns: bool,
    /// The border's rule, with no more entries than a text may have.
    pub border: Border,
    /// The list of mates, no longer than a text may give it. Empty in version 1.
    pub mates: Vec<u8>,
    /// The clues, no more than a text may have. Empty before version 3.
    pub clues: Vec<Clue>,
    /// The tiles, at least one, and no more than a text may have.
    pub tiles: Vec<Tile>,
}

// The kinds of board that have a word.
#[derive(Clone, Copy)]
enum BoardKind {
    Rectangle,
    Triangle,
    Hexagon,
    Shape,
}

/// What the line of a board says. Its numbers are within the ranges of the text's version.
#[derive(Clone, Copy)]
pub enum BoardLine {
    Rectangle { width: u16, height: u16 },
    Triangle { size: u16 },
    Hexagon { size: u16 },
    /// How many places each row has, and how many rows follow.
    Shape { width: u16, height: u16 },
}

// The kinds of border that have a word.
#[derive(Clone, Copy)]
enum BorderKind {
    Free,
    One,
    Each,
}

// The version of a puzzle: 1, 2 or 3.
fn puzzle_version_word(word: &[u8]) -> Result<u8, TextKind>
    ensures judges { Judges (λ version. version) result (puzzle_version_in word.now) }
    ensures version { IfOk result IsPuzzleVersion }
{
    if word == b"3".as_slice() {
        return Ok(3);
    }
    version_word(word)
}

#[tactic(auto, unfolding(text_words::specs::Place::word_by))]
fn puzzle_version(scan: &mut Scan) -> Result<u8, TextFault>
    ensures gives { Gives (λ version. version) result scan.new (word_by puzzle_version_in scan.old) }
    ensures version { IfOk result IsPuzzleVersion }
{
    let asked = Asked::Version { last: 3 };
    let word = scan.next_word(asked)?;
    scan.accept(asked, puzzle_version_word(word))
}

#[tactic(auto, unfolding(crate::specs::Puzzles::match_line))]
fn match_line(scan: &mut Scan) -> Result<u8, TextFault>
    ensures gives { Gives (λ version. version) result scan.new (match_line scan.old) }
    ensures version { IfOk result IsPuzzleVersion }
{
    scan.next_line()?;
    scan.word(b"match")?;
    let version = puzzle_version(scan)?;
    scan.end_of_line()?;
    Ok(version)
}

// The words for kinds of board, as they are told.
fn board_kinds(version: u8) -> &'static str {
    if version == 1 {
        "rect, triangle, or hexagon"
    } else {
        "rect, triangle, hexagon, or shape"
    }
}

fn board_kind_word(word: &[u8], version: u8) -> Result<BoardKind, TextKind>
    ensures { Judges (λ kind. kind) result (board_kind_in version word.now) }
{
    if word == b"rect".as_slice() {
        return Ok(BoardKind::Rectangle);
    }
    if word == b"triangle".as_slice() {
        return Ok(BoardKind::Triangle);
    }
    if word == b"hexagon".as_slice() {
        return Ok(BoardKind::Hexagon);
    }
    if version >= 2 && word == b"shape".as_slice() {
        return Ok(BoardKind::Shape);
    }
    Err(TextKind::Word)
}

#[tactic(auto, unfolding(text_words::specs::Place::word_by))]
fn board_kind(scan: &mut Scan, version: u8) -> Result<BoardKind, TextFault>
    ensures { Gives (λ kind. kind) result scan.new (word_by (board_kind_in version) scan.old) }
{
    let asked = Asked::OneOf(board_kinds(version));
    let word = scan.next_word(asked)?;
    scan.accept(asked, board_kind_word(word, version))
}

// A width, a height or a size of a board that is no shape.
fn side_length(scan: &mut Scan) -> Result<u16, TextFault>
    ensures { Gives (λ n. n) result scan.new (word_by (number_in 0 MOST_LENGTH) scan.old) }
{
    let length = scan.number(0, u32::from(MOST_LENGTH))?;
    Ok(length as u16)
}

// A width or a height of a shape.
fn shape_length(scan: &mut Scan) -> Result<u16, TextFault>
    ensures { Gives (λ n. n) result scan.new (word_by (number_in 1 MOST_PLACES) scan.old) }
{
    let length = scan.number(1, MOST_PLACES as u32)?;
    Ok(length as u16)
}

#[tactic(auto, unfolding(crate::specs::Puzzles::board_size))]
fn board_size(scan: &mut Scan, kind: BoardKind) -> Result<BoardLine, TextFault>
    ensures { Gives (λ line. line) result scan.new (board_size kind scan.old) }
{
    match kind {
        BoardKind::Rectangle => {
            let width = side_length(scan)?;
            let height = side_length(scan)?;
            Ok(BoardLine::Rectangle { width, height })
        }
        BoardKind::Triangle => {
            let size = side_length(scan)?;
            Ok(BoardLine::Triangle { size })
        }
        BoardKind::Hexagon => {
            let size = side_length(scan)?;
            Ok(BoardLine::Hexagon { size })
        }
        BoardKind::Shape => {
            let width = shape_length(scan)?;
            let height = shape_length(scan)?;
            Ok(BoardLine::Shape { width, height })
        }
    }
}

#[tactic(auto, unfolding(crate::specs::Puzzles::board_line))]
fn board_line(scan: &mut Scan, version: u8) -> Result<BoardLine, TextFault>
    ensures { Gives (λ line. line) result scan.new (board_line version scan.old) }
{
    scan.next_line()?;
    scan.word(b"board")?;
    let kind = board_kind(scan, version)?;
    let line = board_size(scan, kind)?;
    scan.end_of_line()?;
    Ok(line)
}

// The marks of a row that was judged good.
fn put_marks(marks: &mut Vec<bool>, row: &[u8]) -> Result<(), AllocError>
    ensures { OnOk result (marks.new.items ≡ marks.old.items ++ map is_cell row.now) }
{
    for character in row {
        marks.push(*character == b'#')?;
    }
    Ok(())
}

// The next word, as a row.
fn row_marks(scan: &mut Scan, width: u16, marks: &mut Vec<bool>) -> Result<(), ReadFault>
    ensures { AddsRow result marks.old.items marks.new.items scan.new (word_by (marks_in width) scan.old) }
{
    let asked = Asked::Row { width };
    let word = scan.next_word(asked)?;
    scan.accept(asked, row_word(word, width))?;
    put_marks(marks, word)?;
    Ok(())
}

fn row_line(scan: &mut Scan, width: u16, marks: &mut Vec<bool>) -> Result<(), ReadFault>
    ensures { AddsRow result marks.old.items marks.new.items scan.new (row_line width scan.old) }
{
    scan.next_line()?;
    scan.word(b"row")?;
    row_marks(scan, width, marks)?;
    scan.end_of_line()?;
    Ok(())
}

fn shape_rows(
    alloc: Global,
    scan: &mut Scan,
    width: u16,
    height: u16,
) -> Result<Vec<bool>, ReadFault>
    ensures reads { Reads (λ marks. shape_of width height marks.items) result scan.new
        (shape_rows width height scan.old) }
    ensures marks { IfOk result (λ marks. length marks.items ≡ height * width) }
{
    let mut marks = Vec::new(alloc);
    for _ in 0..height {
        row_line(scan, width, &mut marks)?;
    }
    Ok(marks)
}

#[tactic(auto, unfolding(crate::specs::Puzzles::board_rows))]
fn board_rows(alloc: Global, scan: &mut Scan, line: BoardLine) -> Result<Vec<bool>, ReadFault>
    ensures reads { Reads (λ marks. figure_of line marks.items) result scan.new (board_rows line scan.old) }
    ensures marks { IfOk result (λ marks. HasItsMarks line marks.items) }
{
    match line {
        BoardLine::Rectangle { .. } | BoardLine::Triangle { .. } | BoardLine::Hexagon { .. } => {
            Ok(Vec::new(alloc))
        }
        BoardLine::Shape { width, height } => shape_rows(alloc, scan, width, height),
    }
}

fn turns_word(word: &[u8]) -> Result<bool, TextKind>
    ensures { Judges (λ turns. turns) result (turns_in word.now) }
{
    if word == b"yes".as_slice() {
        return Ok(true);
    }
    if word == b"no".as_slice() {
        return Ok(false);
    }
    Err(TextKind::Word)
}

#[tactic(auto, unfolding(text_words::specs::Place::word_by))]
fn turns_rule(scan: &mut Scan) -> Result<bool, TextFault>
    ensures { Gives (λ turns. turns) result scan.new (word_by turns_in scan.old) }
{
    let asked = Asked::OneOf("yes, or no");
    let word = scan.next_word(asked)?;
    scan.accept(asked, turns_word(word))
}

#[tactic(auto, unfolding(crate::specs::Puzzles::turns_line))]
fn turns_line(scan: &mut Scan) -> Result<bool, TextFault>
    ensures { Gives (λ turns. turns) result scan.new (turns_line scan.old) }
{
    scan.next_line()?;
    scan.word(b"turns")?;
    let turns = turns_rule(scan)?;
    scan.end_of_line()?;
    Ok(turns)
}

fn border_kind_word(word: &[u8]) -> Result<BorderKind, TextKind>
    ensures { Judges (λ kind. kind) result (border_kind_in word.now) }
{
    if word == b"free".as_slice() {
        return Ok(BorderKind::Free);
    }
    if word == b"one".as_slice() {
        return Ok(BorderKind::One);
    }
    if word == b"each".as_slice() {
        return Ok(BorderKind::Each);
    }
    Err(TextKind::Word)
}

#[tactic(auto, unfolding(text_words::specs::Place::word_by))]
fn border_kind(scan: &mut Scan) -> Result<BorderKind, TextFault>
    ensures { Gives (λ kind. kind) result scan.new (word_by border_kind_in scan.old) }
{
    let asked = Asked::OneOf("free, one, or each");
    let word = scan.next_word(asked)?;
    scan.accept(asked, border_kind_word(word))
}

// The rest of the line.
fn rules(alloc: Global, scan: &mut Scan, ranges: &Ranges) -> Result<Vec<Option<u8>>, ReadFault>
    ensures { Reads (λ rules. rules.items) result scan.new (entries ranges.now.most_rules rule_in scan.old) }
{
    let mut rules = Vec::new(alloc);
    while scan.has_word() {
        scan.further_entry(rules.len(), ranges.most_rules)?;
        let rule = scan.rule()?;
        rules.push(rule)?;
    }
    Ok(rules)
}

#[tactic(auto, unfolding(text_words::specs::Place::some_entries))]
fn some_rules(alloc: Global, scan: &mut Scan, ranges: &Ranges) -> Result<Vec<Option<u8>>, ReadFault>
    ensures { Reads (λ rules. rules.items) result scan.new (some_entries ranges.now.most_rules rule_in scan.old) }
{
    scan.some_word()?;
    rules(alloc, scan, ranges)
}

#[tactic(auto, unfolding(crate::specs::Puzzles::border_rule))]
fn border_rule(
    alloc: Global,
    scan: &mut Scan,
    ranges: &Ranges,
    kind: BorderKind,
) -> Result<Border, ReadFault>
    ensures { Reads rule_of result scan.new (border_rule ranges.now kind scan.old) }
{
    match kind {
        BorderKind::Free => Ok(Border::Free),
        BorderKind::One => Ok(Border::One(scan.colour()?)),
        BorderKind::Each => {
            let rules = some_rules(alloc, scan, ranges)?;
            Ok(Border::Each(BorderRules::new(rules)))
        }
    }
}

#[tactic(auto, unfolding(crate::specs::Puzzles::border_line))]
fn border_line(alloc: Global, scan: &mut Scan, ranges: &Ranges) -> Result<Border, ReadFault>
    ensures { Reads rule_of result scan.new (border_line ranges.now scan.old) }
{
    scan.next_line()?;
    scan.word(b"border")?;
    let kind = border_kind(scan)?;
    let border = border_rule(alloc, scan, ranges, kind)?;
    scan.end_of_line()?;
    Ok(border)
}

// The rest of the line.
fn colours(alloc: Global, scan: &mut Scan) -> Result<Vec<u8>, ReadFault>
    ensures { Reads (λ colours. colours.items) result scan.new (entries MOST_COLOURS colour_in scan.old) }
{
    let mut colours = Vec::new(alloc);
    while scan.has_word() {
        scan.further_entry(colours.len(), u16::from(MOST_COLOURS))?;
        let colour = scan.colour()?;
        colours.push(colour)?;
    }
    Ok(colours)
}

#[tactic(auto, unfolding(crate::specs::Puzzles::mates_line))]
fn mates_line(alloc: Global, scan: &mut Scan) -> Result<Vec<u8>, ReadFault>
    ensures { Reads (λ mates. mates.items) result scan.new (mates_line scan.old) }
{
    scan.next_line()?;
    scan.word(b"mates")?;
    let mates = colours(alloc, scan)?;
    scan.end_of_line()?;
    Ok(mates)
}

#[tactic(auto, unfolding(crate::specs::Puzzles::mating_part))]
fn mating_part(alloc: Global, scan: &mut Scan, version: u8) -> Result<Vec<u8>, ReadFault>
    requires { IsPuzzleVersion version }
    ensures { Reads (λ mates. mating_of version mates.items) result scan.new (mating_part version scan.old) }
{
    if version == 1 {
        return Ok(Vec::new(alloc));
    }
    mates_line(alloc, scan)
}

// The cell of a clue.
fn clue_cell(scan: &mut Scan) -> Result<u16, TextFault>
    ensures { Gives (λ n. n) result scan.new (word_by (number_in 0 LAST_CELL) scan.old) }
{
    let cell = scan.number(0, u32::from(LAST_CELL))?;
    Ok(cell as u16)
}

#[tactic(auto, unfolding(crate::specs::Puzzles::clue_line))]
fn clue_line(scan: &mut Scan) -> Result<Clue, TextFault>
    ensures { Gives clue_of result scan.new (clue_line scan.old) }
{
    scan.next_line()?;
    scan.word(b"clue")?;
    let cell = clue_cell(scan)?;
    let clue = scan.clue(cell)?;
    scan.end_of_line()?;
    Ok(clue)
}

fn clue_lines(alloc: Global, scan: &mut Scan, count: u32) -> Result<Vec<Clue>, ReadFault>
    ensures { Reads (λ clues. map clue_of clues.items) result scan.new (times count clue_line scan.old) }
{
    let mut clues = Vec::new(alloc);
    for _ in 0..count {
        let clue = clue_line(scan)?;
        clues.push(clue)?;
    }
    Ok(clues)
}

#[tactic(auto, unfolding(crate::specs::Puzzles::counted_clues))]
fn counted_clues(alloc: Global, scan: &mut Scan) -> Result<Vec<Clue>, ReadFault>
    ensures { Reads (λ clues. map clue_of clues.items) result scan.new (counted_clues scan.old) }
{
    let count = scan.counted(b"clues", 0, u32::from(MOST_CELLS))?;
    clue_lines(alloc, scan, count)
}

#[tactic(auto, unfolding(crate::specs::Puzzles::clues_part))]
fn clues_part(alloc: Global, scan: &mut Scan, version: u8) -> Result<Vec<Clue>, ReadFault>
    ensures { Reads (λ clues. map clue_of clues.items) result scan.new (clues_part version scan.old) }
{
    if version == 3 {
        return counted_clues(alloc, scan);
    }
    Ok(Vec::new(alloc))
}

#[tactic(auto, unfolding(crate::specs::Puzzles::tile_line))]
fn tile_line(scan: &mut Scan) -> Result<Tile, TextFault>
    ensures { Gives tile_colours result scan.new (tile_line scan.old) }
{
    scan.next_line()?;
    scan.word(b"tile")?;
    let tile = scan.tile()?;
    scan.end_of_line()?;
    Ok(tile)
}

fn tile_lines(alloc: Global, scan: &mut Scan, count: u32) -> Result<Vec<Tile>, ReadFault>
    ensures { Reads (λ tiles. map tile_colours tiles.items) result scan.new (times count tile_line scan.old) }
{
    let mut tiles = Vec::new(alloc);
    for _ in 0..count {
        let tile = tile_line(scan)?;
        tiles.push(tile)?;
    }
    Ok(tiles)
}

#[tactic(auto, unfolding(crate::specs::Puzzles::puzzle_text, crate::specs::Puzzles::board_part))]
fn whole(alloc: Global, scan: &mut Scan) -> Result<PuzzleText, ReadFault>
    ensures reads { Reads view_of result scan.new (puzzle_text scan.old) }
    ensures marks { IfOk result (λ t. HasItsMarks t.board t.marks.items) }
{
    let version = match_line(scan)?;
    let ranges = ranges_of(version);
    let board = board_line(scan, version)?;
    let marks = board_rows(alloc, scan, board)?;
    let turns = turns_line(scan)?;
    let border = border_line(alloc, scan, &ranges)?;
    let mates = mating_part(alloc, scan, version)?;
    let clues = clues_part(alloc, scan, version)?;
    let count = scan.counted(b"tiles", 1, u32::from(ranges.most_cells))?;
    let tiles = tile_lines(alloc, scan, count)?;
    scan.closing()?;
    Ok(PuzzleText {
        version,
        board,
        marks,
        turns,
        border,
        mates,
        clues,
        tiles,
    })
}

/// What a text says of a puzzle. An `Err` is the text's first fault, or `Memory` where memory is refused.
#[tactic(auto, unfolding(crate::specs::Puzzles::puzzle_of))]
pub fn read_puzzle_text(alloc: Global, text: &[u8]) -> Result<PuzzleText, ReadFault>
    requires { length text.now + 1 < 2 ^ 32 }
    ensures says { Says view_of result (puzzle_of text.now) }
    ensures marks { IfOk result (λ t. HasItsMarks t.board t.marks.items) }
{
    let mut scan = Scan::new(text);
    whole(alloc, &mut scan)
}

/// Where the text of a puzzle has its first fault. `None` where it has no fault, or memory is refused.
#[tactic(auto, unfolding(crate::specs::Puzzles::puzzle_of))]
pub fn puzzle_fault_place(alloc: Global, text: &[u8]) -> Option<FaultPlace<'_>>
    requires { length text.now + 1 < 2 ^ 32 }
    ensures { IfSome result (λ place. puzzle_of text.now ≡ Err place.fault) }
{
    let mut scan = Scan::new(text);
    match whole(alloc, &mut scan) {
        Err(ReadFault::Text(fault)) => Some(scan.fault_place(fault)),
        _ => None,
    }
}

// The board that was said.
fn make_board(line: BoardLine, marks: &[bool]) -> Result<Board, BoardFault>
    requires { HasItsMarks line marks.now }
    ensures board { IfOk result (λ b. (b ≡ figure_of line marks.now) × IsBoard b) }
    ensures fault { IfErr result (BoardFails (figure_of line marks.now)) }
{
    match line {
        BoardLine::Rectangle { width, height } => Board::of(Figure::Rectangle { width, height }),
        BoardLine::Triangle { size } => Board::of(Figure::Triangle { size }),
        BoardLine::Hexagon { size } => Board::of(Figure::Hexagon { size }),
        BoardLine::Shape { width, height } => Board::shape(width, height, marks),
    }
}

impl PuzzleText {
    /// The board that the text describes, or why there is none.
    pub fn make_board(&self) -> Result<Board, BoardFault>
        requires { HasItsMarks self.now.board self.now.marks.items }
        ensures board { IfOk result (λ b. (b ≡ figure_of self.now.board self.now.marks.items) × IsBoard b) }
        ensures fault { IfErr result (BoardFails (figure_of self.now.board self.now.marks.items)) }
    {
        make_board(self.board, &self.marks)
    }
}

// The puzzle that was said, on its board.
fn make_said(alloc: Global, board: Board, said: &PuzzleText) -> Result<Puzzle, PuzzleFault>
    requires board { board ≡ (view_of said.now).board }
    requires plain { said.now.version ≡ 1 → IsPlain board }
    requires border { IsShortRule (rule_of said.now.border) }
    requires version { IsOfVersion (view_of said.now).mating }
    requires mates { length said.now.mates.items < 2 ^ 32 }
    requires clues { length said.now.clues.items < 2 ^ 32 }
    requires without { said.now.version ≢ 3 → said.now.clues.items ≡ [] }
    requires tiles { length said.now.tiles.items < 2 ^ 32 }
    ensures puzzle { IfOk result (λ p. (p ≡ view_of said.now) × IsPuzzle p) }
    ensures fault { IfErr result (λ f. f ≢ PuzzleFault.Memory
        → IsFirst puzzle_rank (PuzzleFails (view_of said.now)) f) }
{
    if said.version == 1 {
        return Puzzle::new(alloc, board, said.turns, &said.border, &said.tiles);
    }
    if said.version == 2 {
        return Puzzle::with_mates(
            alloc,
            board,
            said.turns,
            &said.border,
            &said.mates,
            &said.tiles,
        );
    }
    let rules = Rules {
        turns: said.turns,
        border: &said.border,
        mates: &said.mates,
        clues: &said.clues,
    };
    Puzzle::with_clues(alloc, board, &rules, &said.tiles)
}

// The board and the puzzle are made after the whole text was read.
fn read_and_make(alloc: Global, text: &[u8]) -> Result<Puzzle, PuzzleTextFault>
    requires { length text.now + 1 < 2 ^ 32 }
    ensures { PuzzleReads text.now result }
{
    let said = read_puzzle_text(alloc, text)?;
    let board = make_board(said.board, &said.marks)?;
    let puzzle = make_said(alloc, board, &said)?;
    Ok(puzzle)
}

/// The puzzle that a text describes.
///
/// An `Err` is the first fault of the text; where it has none, that of the board; where that has none, that of the
/// puzzle; and `Memory` where memory is refused.
pub fn read_puzzle(alloc: Global, text: &[u8]) -> Result<Puzzle, PuzzleTextFault>
    requires { length text.now + 1 < 2 ^ 32 }
    // Which puzzle, and which fault.
    ensures exact { PuzzleReads text.now result }
    // What is read is spelled so.
    ensures found { IfOk result (λ p. text.now ≡ puzzle_spelling p) }
    // What is spelled so is read.
    ensures only { (p : Task) → IsPuzzle p → text.now ≡ puzzle_spelling p → PuzzleGives result (Ok p) }
    // A spelling that is cut short ends at its last line.
    ensures cut { (p : Task) (k : ℕ) → IsTaskWithin p → k < length (puzzle_spelling p)
        → text.now ≡ take k (puzzle_spelling p)
        → PuzzleGives result (fail (line_ends text.now + 1) kinds.Ends) }
{
    read_and_make(alloc, text)
}
