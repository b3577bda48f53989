//! What is wrong with a list of placements that is no arrangement.

ghost use Rattle.std.specs.Prelude.{◌≡◌, ◌<◌, ◌^◌, ℕ, MatchOption, MatchBool, length};
ghost use Rattle.match_board.specs.Board.{cell_count, side_count};
ghost use Rattle.match_limits.specs.First.{IsLeast, IsLeastPair};
ghost use Rattle.match_puzzle.specs.Puzzle.{IsPuzzle};
ghost use Rattle.match_puzzle.specs.Arrangement.{IsArrangement, MatchesEdgeAt, HaveTiles, AreLegal, StandOnce};
ghost use Rattle.match_puzzle.specs.Arrangement.{AreArrangements, ObeyBorder, MatchEdges};
ghost use Rattle.match_puzzle.specs.ArrangementFaults.{IsArrangementFault, HasNoTileAt, HasNoTurnAt, RepeatsTileAt};
ghost use Rattle.match_puzzle.specs.ArrangementFaults.{ObeysBorderAt, BreaksBorderAt, BreaksEdgeAt, IsFirstWrong};

use crate::arrangements::Arrangement;
use crate::faults::ArrangementFault;
use crate::placements::Placement;
use crate::puzzles::Puzzle;
use crate::tables::Side;
use match_board::first_side;
use match_limits::MOST_TILES;

impl Puzzle {
    /// The first fault of a list of placements, one for each cell in order, or none where it is an arrangement.
    ///
    /// It goes over the cells once for each kind of fault, and takes no memory.
    pub fn arrangement_fault(&self, placements: &[Placement]) -> Option<ArrangementFault>
        ensures { MatchOption result (IsArrangement self.now placements.now)
            (IsArrangementFault self.now placements.now) }
    {
        if placements.len() != usize::from(self.board().cells()) {
            return Some(ArrangementFault::Length);
        }
        if let Some(cell) = self.tile_out_of_range(placements) {
            return Some(ArrangementFault::TileRange(cell));
        }
        if let Some(cell) = self.turn_out_of_range(placements) {
            return Some(ArrangementFault::Turn(cell));
        }
        if let Some(cell) = self.repeated_tile(placements) {
            return Some(ArrangementFault::TileTwice(cell));
        }
        if let Some((cell, side)) = self.broken_border(placements) {
            return Some(ArrangementFault::BorderBroken(u32::from(cell), u32::from(side)));
        }
        if let Some((cell, side)) = self.broken_edge(placements) {
            return Some(ArrangementFault::EdgeBroken(u32::from(cell), u32::from(side)));
        }
        None
    }

    /// The first of these that is no arrangement of the puzzle, by its number from 0, with its first fault; none where
    /// each is one.
    pub fn first_wrong(&self, listed: &[Arrangement]) -> Option<(u32, ArrangementFault)>
        requires { length listed.now < 2 ^ 32 }
        ensures { MatchOption result (AreArrangements self.now listed.now)
            (λ found. IsFirstWrong self.now listed.now found.0 found.1) }
    {
        for (number, arrangement) in listed.iter().enumerate() {
            if let Some(fault) = self.arrangement_fault(arrangement.placements()) {
                return Some((number as u32, fault));
            }
        }
        None
    }

    // The first cell whose placement names no tile of the puzzle.
    fn tile_out_of_range(&self, placements: &[Placement]) -> Option<u32>
        requires { length placements.now ≡ cell_count self.now.board }
        ensures { MatchOption result (HaveTiles self.now placements.now)
            (IsLeast (HasNoTileAt self.now placements.now)) }
    {
        let tiles = self.tile_count();
        for cell in 0..self.board().cells() {
            if placements[usize::from(cell)].tile >= tiles {
                return Some(u32::from(cell));
            }
        }
        None
    }

    // The first cell whose tile may not be turned so.
    fn turn_out_of_range(&self, placements: &[Placement]) -> Option<u32>
        requires long { length placements.now ≡ cell_count self.now.board }
        requires tiles { HaveTiles self.now placements.now }
        ensures { MatchOption result (AreLegal self.now placements.now)
            (IsLeast (HasNoTurnAt self.now placements.now)) }
    {
        for cell in 0..self.board().cells() {
            if !self.legal(placements[usize::from(cell)]) {
                return Some(u32::from(cell));
            }
        }
        None
    }

    // The first cell whose tile stands at an earlier cell too.
    fn repeated_tile(&self, placements: &[Placement]) -> Option<u32>
        requires long { length placements.now ≡ cell_count self.now.board }
        requires tiles { HaveTiles self.now placements.now }
        ensures { MatchOption result (StandOnce placements.now) (IsLeast (RepeatsTileAt self.now placements.now)) }
    {
        let mut seen = [false; MOST_TILES as usize];
        for cell in 0..self.board().cells() {
            let tile = usize::from(placements[usize::from(cell)].tile);
            if seen[tile] {
                return Some(u32::from(cell));
            }
            seen[tile] = true;
        }
        None
    }

    // The first side that does not show what the border or a clue asks, behind its cell.
    fn broken_border(&self, placements: &[Placement]) -> Option<(u16, u8)>
        requires long { length placements.now ≡ cell_count self.now.board }
        requires legal { AreLegal self.now placements.now }
        ensures { MatchOption result (ObeyBorder self.now placements.now)
            (IsLeastPair (BreaksBorderAt self.now placements.now)) }
    {
        first_side(
            self.board(),
            |cell: u16, side: u8| -> bool
                requires cell { cell < cell_count self.now.board }
                requires side { side < side_count self.now.board }
                requires long { length placements.now ≡ cell_count self.now.board }
                requires legal { AreLegal self.now placements.now }
                ensures { MatchBool result
                    (BreaksBorderAt self.entry.now placements.entry.now cell side)
                    (ObeysBorderAt self.entry.now placements.entry.now cell side) }
            { !self.obeys_border(cell, side, placements) },
        )
    }

    // Whether the side of what stands at the cell shows what the border or a clue asks.
    fn obeys_border(&self, cell: u16, side: u8, placements: &[Placement]) -> bool
        requires cell { cell < cell_count self.now.board }
        requires side { side < side_count self.now.board }
        requires long { length placements.now ≡ cell_count self.now.board }
        requires legal { AreLegal self.now placements.now }
        ensures { MatchBool result (ObeysBorderAt self.now placements.now cell side)
            (BreaksBorderAt self.now placements.now cell side) }
    {
        match self.rule(cell, side) {
            None => true,
            Some(colour) => {
                self.shown(placements[usize::from(cell)])[usize::from(side)] == colour
            }
        }
    }

    // The first side that does not match the one that it meets, behind its cell.
    fn broken_edge(&self, placements: &[Placement]) -> Option<(u16, u8)>
        requires puzzle { IsPuzzle self.now }
        requires long { length placements.now ≡ cell_count self.now.board }
        requires legal { AreLegal self.now placements.now }
        ensures { MatchOption result (MatchEdges self.now placements.now)
            (IsLeastPair (BreaksEdgeAt self.now placements.now)) }
    {
        first_side(
            self.board(),
            |cell: u16, side: u8| -> bool
                requires puzzle { IsPuzzle self.now }
                requires cell { cell < cell_count self.now.board }
                requires side { side < side_count self.now.board }
                requires long { length placements.now ≡ cell_count self.now.board }
                requires legal { AreLegal self.now placements.now }
                requires before { (other side : ℕ) → other < cell → side < side_count self.now.board
                    → MatchesEdgeAt self.now placements.now other side }
                ensures { MatchBool result
                    (BreaksEdgeAt self.entry.now placements.entry.now cell side)
                    (MatchesEdgeAt self.entry.now placements.entry.now cell side) }
            { !self.matches_edge(cell, side, placements) },
        )
    }

    // Whether the side of the cell matches the side that it meets. A cell before it has shown so already.
    fn matches_edge(&self, cell: u16, side: u8, placements: &[Placement]) -> bool
        requires puzzle { IsPuzzle self.now }
        requires cell { cell < cell_count self.now.board }
        requires side { side < side_count self.now.board }
        requires long { length placements.now ≡ cell_count self.now.board }
        requires legal { AreLegal self.now placements.now }
        requires before { (other side : ℕ) → other < cell → side < side_count self.now.board
            → MatchesEdgeAt self.now placements.now other side }
        ensures { MatchBool result (MatchesEdgeAt self.now placements.now cell side)
            (BreaksEdgeAt self.now placements.now cell side) }
    {
        match self.side(cell, side) {
            Side::Border(_) => true,
            Side::Edge {
                cell: other,
                side: other_side,
                ..
            } => {
                let here = placements[usize::from(cell)];
                let there = placements[usize::from(other)];
                other < cell
                    || self.shown(here)[usize::from(side)]
                        == self.asked_by(there)[usize::from(other_side)]
            }
        }
    }
}
