//! A puzzle: a board, tiles, and what is asked of them.

ghost use Rattle.std.specs.Prelude.{◌≡◌, ◌≢◌, ◌⊎◌, ◌<◌, ◌≤◌, ◌↔◌, ◌^◌, ℕ, IfOk, IfErr, IsErrOf, IfSome, IsTrue};
ghost use Rattle.std.specs.Prelude.{MatchBool};
ghost use Rattle.std.specs.Prelude.{Some, length, map, slice_index};
ghost use Rattle.match_board.specs.Board.{cell_count, side_count, Meets};
ghost use Rattle.match_limits.specs.First.{IsFirst};
ghost use Rattle.match_board.specs.Mates.{IsOfVersion, mated};
ghost use Rattle.match_puzzle.specs.Puzzle.{Task, task_of, task_by, mating_for, second_form_of, IsPuzzle};
ghost use Rattle.match_puzzle.specs.Puzzle.{AllHaveToStand};
ghost use Rattle.match_board.specs.Borders.{rule_of, IsShortRule};
ghost use Rattle.match_puzzle.specs.Parts.{AreParts, task_of_parts};
ghost use Rattle.match_puzzle.specs.PuzzleFaults.{PuzzleFails, puzzle_rank};

use crate::asking::{both_asked, four_from};
use crate::clue_rules::asked_by_clue;
use crate::faults::PuzzleFault;
use crate::parts::PuzzleParts;
use crate::placement_sets::{ANY_COLOUR, NO_COLOUR};
use crate::placements::Placement;
use crate::rules::Rules;
use crate::tables::{FIRST_PLACE, Side, Tables};
use match_board::{Board, Border, Clue, Figure, Tile, mate_in};
use match_limits::{FixedSet, MOST_COLOURS, MOST_TILES, NumberSet, SIDES, TURNS};
use std::alloc::{AllocError, Global};
use std::marker::Model;

/// A board to be filled with different tiles, so that of two sides that meet one shows the mate of what the other
/// shows, and the border and clues get the colours that they ask for. In version 1 each colour is its own mate. Before
/// version 3 there are as many tiles as cells; in version 3 some may be left over.
#[derive(Drop)]
pub struct Puzzle {
    board: Board,
    turns: bool,
    border: Border,
    version: u8,
    mates: Vec<u8>,
    clues: Vec<Clue>,
    tiles: Vec<Tile>,
    tables: Tables,
}

impl Model for Puzzle {
    ghost use Rattle.match_board.specs.Mates.{mating_of};
    ghost use Rattle.match_puzzle.specs.Puzzle.{Task, task_with};
    ghost use Rattle.match_puzzle.specs.Tables.{IsMade};

    ghost Value = { Task };

    ghost view = { λ p. task_with p.board p.turns p.border (mating_of p.version p.mates.items)
        p.clues.items p.tiles.items };

    ghost invariant = { λ p. IsMade
        (task_with p.board p.turns p.border (mating_of p.version p.mates.items)
        p.clues.items p.tiles.items)
        p.tables };
}

impl Puzzle {
    ghost use Rattle.match_board.specs.Tile.{word};
    ghost use Rattle.match_board.specs.Mates.{AreMates};
    ghost use Rattle.match_board.specs.Clues.{clue_of, AsksByClue};
    ghost use Rattle.match_puzzle.specs.Puzzle.{IsLegal, HasRule, colour_of, mate_of, word_of};
    ghost use Rattle.match_puzzle.specs.Colours.{IsColourCount};
    ghost use Rattle.match_puzzle.specs.Tables.{IsSide, IsAskedAt, IsTurnCount};
    ghost use Rattle.match_puzzle.specs.PlacementSets.{AreLegalNumbers, AreUnturnedLegal, AreShowing, ShowsColours};
    ghost use Rattle.match_puzzle.specs.PlacementSets.{AsksColours, TellsOf};
    ghost use Rattle.match_puzzle.specs.Prefix.{empty_prefix};
    ghost use Rattle.match_puzzle.specs.Partials.{AreAsking};

    /// The puzzle of this board and these tiles, without mates and clues. It is of version 1, or of version 2 where the
    /// board is a shape.
    ///
    /// An `Err` is the first fault in the order of [`PuzzleFault`], with its least tile or place; `Memory` comes last.
    pub fn new(
        alloc: Global,
        board: Board,
        turns: bool,
        border: &Border,
        tiles: &[Tile],
    ) -> Result<Puzzle, PuzzleFault>
        requires tiles { length tiles.now < 2 ^ 32 }
        requires border { IsShortRule (rule_of border.now) }
        ensures puzzle { IfOk result
            (λ p. (p ≡ task_of board turns border.now (mating_for board) tiles.now) × IsPuzzle p) }
        ensures fault { IfErr result (λ f. f ≢ PuzzleFault.Memory
            → IsFirst puzzle_rank (PuzzleFails (task_of board turns border.now (mating_for board) tiles.now)) f) }
        ensures memory { IsErrOf result PuzzleFault.Memory
            → IsPuzzle (task_of board turns border.now (mating_for board) tiles.now) }
    {
        let version = match board.figure() {
            Figure::Shape { .. } => 2,
            _ => 1,
        };
        let rules = Rules {
            turns,
            border,
            mates: &[],
            clues: &[],
        };
        let parts = PuzzleParts {
            board,
            rules: &rules,
            version,
            tiles,
        };
        Puzzle::make(alloc, &parts)
    }

    /// The puzzle of version 2 of this board and these tiles, where entry i of the list is the mate of colour i.
    ///
    /// An `Err` is the first fault in the order of [`PuzzleFault`], with its least tile or place; `Memory` comes last.
    pub fn with_mates(
        alloc: Global,
        board: Board,
        turns: bool,
        border: &Border,
        mates: &[u8],
        tiles: &[Tile],
    ) -> Result<Puzzle, PuzzleFault>
        requires tiles { length tiles.now < 2 ^ 32 }
        requires border { IsShortRule (rule_of border.now) }
        requires mates { length mates.now < 2 ^ 32 }
        ensures puzzle { IfOk result
            (λ p. (p ≡ task_of board turns border.now (mated mates.now) tiles.now) × IsPuzzle p) }
        ensures fault { IfErr result (λ f. f ≢ PuzzleFault.Memory
            → IsFirst puzzle_rank (PuzzleFails (task_of board turns border.now (mated mates.now) tiles.now)) f) }
        ensures memory { IsErrOf result PuzzleFault.Memory
            → IsPuzzle (task_of board turns border.now (mated mates.now) tiles.now) }
    {
        let rules = Rules {
            turns,
            border,
            mates,
            clues: &[],
        };
        let parts = PuzzleParts {
            board,
            rules: &rules,
            version: 2,
            tiles,
        };
        Puzzle::make(alloc, &parts)
    }

    /// The puzzle of version 3 of this board, these rules and these tiles: with clues, and as many tiles as cells or
    /// more.
    ///
    /// An `Err` is the first fault in the order of [`PuzzleFault`], with its least tile or place; `Memory` comes last.
    pub fn with_clues(
        alloc: Global,
        board: Board,
        rules: &Rules<'_>,
        tiles: &[Tile],
    ) -> Result<Puzzle, PuzzleFault>
        requires tiles { length tiles.now < 2 ^ 32 }
        requires border { IsShortRule (rule_of rules.now.border.now) }
        requires mates { length rules.now.mates.now < 2 ^ 32 }
        requires clues { length rules.now.clues.now < 2 ^ 32 }
        ensures puzzle { IfOk result (λ p. (p ≡ task_by board rules.now 3 tiles.now) × IsPuzzle p) }
        ensures fault { IfErr result (λ f. f ≢ PuzzleFault.Memory
            → IsFirst puzzle_rank (PuzzleFails (task_by board rules.now 3 tiles.now)) f) }
        ensures memory { IsErrOf result PuzzleFault.Memory → IsPuzzle (task_by board rules.now 3 tiles.now) }
    {
        let parts = PuzzleParts {
            board,
            rules,
            version: 3,
            tiles,
        };
        Puzzle::make(alloc, &parts)
    }

    /// A copy in which a rectangle is written as the shape that has all its cells. It is of version 3 where the puzzle
    /// is, else of version 2. It has the same arrangements. An `Err` comes where memory runs out.
    pub fn second_form(&self, alloc: Global) -> Result<Puzzle, AllocError>
        ensures form { IfOk result (λ p. (p ≡ second_form_of self.now) × IsPuzzle p) }
        ensures puzzle { IsPuzzle self.now }
    {
        let board = self.board.second_form();
        let version = self.version.max(2);
        let rules = Rules {
            turns: self.turns,
            border: &self.border,
            mates: &self.mates,
            clues: &self.clues,
        };
        let parts = PuzzleParts {
            board,
            rules: &rules,
            version,
            tiles: &self.tiles,
        };
        Puzzle::from_parts(alloc, &parts)
    }

    // The puzzle of these parts, or its first fault.
    fn make(alloc: Global, parts: &PuzzleParts<'_, '_>) -> Result<Puzzle, PuzzleFault>
        requires { AreParts parts.now }
        ensures puzzle { IfOk result (λ p. (p ≡ task_of_parts parts.now) × IsPuzzle p) }
        ensures fault { IfErr result (λ f. f ≢ PuzzleFault.Memory
            → IsFirst puzzle_rank (PuzzleFails (task_of_parts parts.now)) f) }
        ensures memory { IsErrOf result PuzzleFault.Memory → IsPuzzle (task_of_parts parts.now) }
    {
        if let Some(fault) = parts.fault() {
            return Err(fault);
        }
        let puzzle = Puzzle::from_parts(alloc, parts)?;
        Ok(puzzle)
    }

    // The puzzle of these parts, of which nothing is wrong.
    fn from_parts(alloc: Global, parts: &PuzzleParts<'_, '_>) -> Result<Puzzle, AllocError>
        requires { IsPuzzle (task_of_parts parts.now) }
        ensures { IfOk result (λ p. (p ≡ task_of_parts parts.now) × IsPuzzle p) }
    {
        let tables = Tables::new(alloc, parts)?;
        let border = parts.rules.border.copy(alloc)?;
        let mates = parts.rules.mates.to_vec(alloc)?;
        let clues = parts.rules.clues.to_vec(alloc)?;
        let tiles = parts.tiles.to_vec(alloc)?;
        Ok(Puzzle {
            board: parts.board,
            turns: parts.rules.turns,
            border,
            version: parts.version,
            mates,
            clues,
            tiles,
            tables,
        })
    }

    /// The board.
    pub fn board(&self) -> &Board
        ensures value { result.now ≡ self.now.board }
        ensures puzzle { IsPuzzle self.now }
    {
        &self.board
    }

    /// Whether tiles may be turned.
    pub fn turns(&self) -> bool
        ensures { result ≡ self.now.turns }
    {
        self.turns
    }

    /// What is asked of the border.
    pub fn border(&self) -> &Border
        ensures { rule_of result.now ≡ self.now.border }
    {
        &self.border
    }

    /// The version of the format: 1; 2 where there is a list of mates or the board is a shape; 3 where there may be
    /// clues, and more tiles than cells.
    pub fn version(&self) -> u8
        ensures version { result ≡ self.now.mating.version }
        ensures three { IsOfVersion self.now.mating }
    {
        self.version
    }

    /// The list of mates. Entry i is the mate of colour i; a colour past the end is its own mate.
    pub fn mates(&self) -> &[u8]
        ensures list { result.now ≡ self.now.mating.mates }
        ensures mates { AreMates result.now }
    {
        self.mates.as_slice()
    }

    /// The clues, in the order of their cells.
    pub fn clues(&self) -> &[Clue]
        ensures clues { map clue_of result.now ≡ self.now.clues }
        ensures puzzle { IsPuzzle self.now }
    {
        self.clues.as_slice()
    }

    /// The colour that a clue asks for at a side, if one does.
    pub fn clue_colour(&self, cell: u16, side: u8) -> Option<u8>
        requires { side < side_count self.now.board }
        ensures rule { (colour : ℕ) → (result ≡ Some colour) ↔ AsksByClue self.now.clues cell side colour }
        ensures below { IfSome result (λ colour. colour < MOST_COLOURS) }
    {
        asked_by_clue(self.clues(), cell, side)
    }

    /// The mate of a colour.
    pub fn mate(&self, colour: u8) -> u8
        requires { colour < MOST_COLOURS }
        ensures mate { result ≡ mate_of self.now colour }
        ensures below { result < MOST_COLOURS }
        ensures puzzle { IsPuzzle self.now }
    {
        mate_in(&self.mates, colour)
    }

    /// The tiles, by number.
    pub fn tiles(&self) -> &[Tile]
        ensures { map word result.now ≡ self.now.words }
    {
        self.tiles.as_slice()
    }

    /// How many tiles there are.
    pub fn tile_count(&self) -> u16
        ensures count { result ≡ length self.now.words }
        ensures few { result ≤ MOST_TILES }
        ensures puzzle { IsPuzzle self.now }
    {
        self.tiles.len() as u16
    }

    /// Whether each tile has to stand: there are as many as cells.
    pub fn have_all_to_stand(&self) -> bool
        ensures all { MatchBool result (AllHaveToStand self.now) (AllHaveToStand self.now → ⊥) }
        ensures puzzle { IsPuzzle self.now }
    {
        self.tile_count() == self.board().cells()
    }

    /// One more than the greatest colour that occurs on a tile, in the border's rule, in the list of mates or in a
    /// clue.
    pub fn colours(&self) -> u8
        ensures { IsColourCount self.now result }
    {
        self.tables.colours
    }

    /// The colour that the border or a clue asks for at a side of a cell, if one does.
    pub fn rule(&self, cell: u16, side: u8) -> Option<u8>
        requires cell { cell < cell_count self.now.board }
        requires side { side < side_count self.now.board }
        ensures { (colour : ℕ) → (result ≡ Some colour) ↔ HasRule self.now cell side colour }
    {
        self.side(cell, side).rule()
    }

    /// The cell and the side that this side of the cell meets; `None` at the border.
    ///
    /// It looks into a table, where the board's own call goes through the rows.
    pub fn meets(&self, cell: u16, side: u8) -> Option<(u16, u8)>
        requires cell { cell < cell_count self.now.board }
        requires side { side < side_count self.now.board }
        ensures found { IfSome result (λ other. Meets self.now.board cell side other.0 other.1) }
        ensures only { (c k : ℕ) → Meets self.now.board cell side c k → result ≡ Some (c, k) }
    {
        match self.side(cell, side) {
            Side::Border(_) => None,
            Side::Edge { cell, side, .. } => Some((cell, side)),
        }
    }

    /// Whether the tile is one of the puzzle's, and may be turned this often.
    pub fn legal(&self, placement: Placement) -> bool
        ensures { IsTrue result ↔ IsLegal self.now placement }
    {
        usize::from(placement.tile) < self.tiles.len()
            && placement.turn < self.turn_count(placement.tile)
    }

    // What a side of a cell is.
    pub(crate) fn side(&self, cell: u16, side: u8) -> Side
        requires cell { cell < cell_count self.now.board }
        requires side { side < side_count self.now.board }
        ensures { IsSide self.now cell side result }
    {
        self.tables.sides[usize::from(cell)].sides[usize::from(side)]
    }

    // Where in a table of what cells ask the colour stands that is asked of the side; none, where there is no such
    // side.
    pub(crate) fn asked_at(&self, cell: u16, side: u8) -> usize
        requires cell { cell < cell_count self.now.board }
        requires side { side < 4 }
        ensures { IsAskedAt self.now cell side result }
    {
        self.tables.sides[usize::from(cell)].asked_at[usize::from(side)]
    }

    // How many turns of a tile are legal.
    pub(crate) fn turn_count(&self, tile: u16) -> u8
        requires { tile < length self.now.words }
        ensures { IsTurnCount self.now tile result }
    {
        self.tables.turn_counts[usize::from(tile)]
    }

    /// The legal placements: 4 times the tile's number, plus the turn.
    pub fn legal_numbers(&self) -> &NumberSet
        ensures legal { AreLegalNumbers self.now result.now }
        ensures unturned { AreUnturnedLegal self.now }
    {
        &self.tables.sets.legal
    }

    /// The placements that show on the side what is asked: 4 times the tile's number, plus the turn.
    pub fn showing(&self, asked: u8, side: u8) -> &FixedSet
        requires asked { asked ≤ NO_COLOUR }
        requires side { side < 4 }
        ensures { AreShowing self.now.words asked side result.now }
    {
        &self.tables.sets.showing[SIDES * usize::from(asked) + usize::from(side)]
    }

    // What the placement shows: the colour on each side, and something on a fourth that isn't there.
    pub(crate) fn shown(&self, placement: Placement) -> [u8; SIDES]
        requires { IsLegal self.now placement }
        ensures { ShowsColours self.now placement result }
    {
        self.tables.sets.shown[TURNS as usize * usize::from(placement.tile)
            + usize::from(placement.turn)]
    }

    /// What the placement asks of those that it meets: the mate of the colour on each side, and something on a fourth
    /// that isn't there.
    pub fn asked_by(&self, placement: Placement) -> [u8; SIDES]
        requires { IsLegal self.now placement }
        ensures { AsksColours self.now placement result }
    {
        self.tables.sets.asked[TURNS as usize * usize::from(placement.tile)
            + usize::from(placement.turn)]
    }

    // What is asked where nothing stands, as a partial arrangement keeps it.
    pub(crate) fn beginning(&self) -> &[u8]
        ensures asks { AreAsking self.now (empty_prefix self.now) result.now }
        ensures puzzle { IsPuzzle self.now }
    {
        self.tables.asks.as_slice()
    }

    // What is asked of those that meet an empty cell's sides: what a clue asks, or any colour.
    pub(crate) fn asked_beside_empty(&self, cell: u16) -> [u8; SIDES]
        requires { cell < cell_count self.now.board }
        ensures { (other met side : ℕ) → Meets self.now.board other met cell side
            → TellsOf (HasRule self.now other met) (slice_index result side) }
    {
        if !self.tables.clued {
            return [ANY_COLOUR; SIDES];
        }
        four_from(&self.tables.asks, FIRST_PLACE + SIDES * usize::from(cell))
    }

    // What is asked of those that meet the placement's sides at the cell: the mate of the colour that it shows there,
    // and of none that there is where a clue asks for another.
    pub(crate) fn asked_beside(&self, cell: u16, placement: Placement) -> [u8; SIDES]
        requires cell { cell < cell_count self.now.board }
        requires legal { IsLegal self.now placement }
        ensures { (other met side : ℕ) → Meets self.now.board other met cell side
            → TellsOf (λ colour. HasRule self.now other met colour
            ⊎ (mate_of self.now (colour_of self.now placement side) ≡ colour)) (slice_index result side) }
    {
        let placed = self.asked_by(placement);
        if !self.tables.clued {
            return placed;
        }
        both_asked(self.asked_beside_empty(cell), placed)
    }

    /// The colour that a tile shows on a side when it is placed so.
    #[tactic(auto, unfolding(crate::specs::Puzzle::colour_of))]
    pub fn colour(&self, placement: Placement, side: u8) -> u8
        requires tile { placement.tile < length self.now.words }
        requires side { side < side_count self.now.board }
        ensures colour { result ≡ colour_of self.now placement side }
        ensures below { result < MOST_COLOURS }
    {
        self.tile(placement.tile).shows(placement.turn, side)
    }

    // The tile with this number.
    fn tile(&self, tile: u16) -> &Tile
        requires { tile < length self.now.words }
        ensures word { word result.now ≡ word_of self.now tile }
        ensures sides { length (word result.now) ≡ side_count self.now.board }
    {
        &self.tiles[usize::from(tile)]
    }
}
