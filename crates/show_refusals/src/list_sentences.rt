//! What is wrong with a listed arrangement, in words.

use crate::sides::{CellSide, why_not_turned};
use match_puzzle::{ArrangementFault, Partial, Placement, Puzzle};
use std::alloc::{AllocError, Global};
use text_words::letter;

// A puzzle and what is listed as an arrangement of it.
#[derive(Clone, Copy)]
pub(crate) struct Listed<'a> {
    pub(crate) puzzle: &'a Puzzle,
    pub(crate) placements: &'a [Placement],
}

impl<'a> Listed<'a> {
    // What is wrong with it. Where it has no such fault, that is named alone.
    pub(crate) fn sentence(
        &self,
        alloc: Global,
        fault: ArrangementFault,
    ) -> Result<String, AllocError> {
        match self.found_sentence(alloc, fault)? {
            Some(sentence) => Ok(sentence),
            None => format!(in alloc; "{fault}"),
        }
    }

    // What is wrong with it, if it has this fault; `None` if it doesn't.
    fn found_sentence(
        &self,
        alloc: Global,
        fault: ArrangementFault,
    ) -> Result<Option<String>, AllocError> {
        match fault {
            ArrangementFault::Length => self.length_sentence(alloc),
            ArrangementFault::TileRange(cell) => self.tile_sentence(alloc, cell),
            ArrangementFault::Turn(cell) => self.turn_sentence(alloc, cell),
            ArrangementFault::TileTwice(cell) => self.twice_sentence(alloc, cell),
            ArrangementFault::BorderBroken(cell, side) => {
                self.border_sentence(alloc, CellSide { cell, side })
            }
            ArrangementFault::EdgeBroken(cell, side) => {
                self.edge_sentence(alloc, CellSide { cell, side })
            }
        }
    }

    fn length_sentence(&self, alloc: Global) -> Result<Option<String>, AllocError> {
        let cells = self.puzzle.board().cells();
        let count = self.placements.len();
        let sentence = format!(in alloc; "cells of the board: {cells}, placements: {count}")?;
        Ok(Some(sentence))
    }

    fn tile_sentence(&self, alloc: Global, cell: u32) -> Result<Option<String>, AllocError> {
        let Some(placement) = self.placement_at(cell) else {
            return Ok(None);
        };
        let tile = placement.tile;
        let last = self.puzzle.board().cells().saturating_sub(1);
        let sentence = format!(in alloc;
            "at cell {cell} it has tile {tile}, and the tiles are 0 to {last}"
        )?;
        Ok(Some(sentence))
    }

    fn turn_sentence(&self, alloc: Global, cell: u32) -> Result<Option<String>, AllocError> {
        let Some(Placement { tile, turn }) = self.placement_at(cell) else {
            return Ok(None);
        };
        let why = why_not_turned(self.puzzle);
        let sentence = format!(in alloc; "at cell {cell} tile {tile} is turned by {turn}, {why}")?;
        Ok(Some(sentence))
    }

    fn twice_sentence(&self, alloc: Global, cell: u32) -> Result<Option<String>, AllocError> {
        let Some(Placement { tile, .. }) = self.placement_at(cell) else {
            return Ok(None);
        };
        let first = self.first_cell_of(tile);
        let sentence = format!(in alloc; "tile {tile} is at cell {first} and at cell {cell}")?;
        Ok(Some(sentence))
    }

    fn border_sentence(&self, alloc: Global, at: CellSide) -> Result<Option<String>, AllocError> {
        let Some(asked) = at.rule(self.puzzle) else {
            return Ok(None);
        };
        let Some(shown) = at.shown(self.puzzle, self.placements) else {
            return Ok(None);
        };
        let asker = if at.is_clued(self.puzzle) {
            "a clue"
        } else {
            "the border"
        };
        let CellSide { cell, .. } = at;
        let (side, shown, asked) = (
            at.name(self.puzzle),
            letter(u32::from(shown)),
            letter(u32::from(asked)),
        );
        let sentence = format!(in alloc;
            "cell {cell} shows {shown} on its {side}, where {asker} asks for {asked}"
        )?;
        Ok(Some(sentence))
    }

    fn edge_sentence(&self, alloc: Global, at: CellSide) -> Result<Option<String>, AllocError> {
        let Some(met) = at.met(self.puzzle) else {
            return Ok(None);
        };
        let Some(shown) = at.shown(self.puzzle, self.placements) else {
            return Ok(None);
        };
        let Some(other) = met.shown(self.puzzle, self.placements) else {
            return Ok(None);
        };
        let mate = letter(u32::from(self.puzzle.mate(shown)));
        let (side, shown) = (at.name(self.puzzle), letter(u32::from(shown)));
        let (other_side, other) = (met.name(self.puzzle), letter(u32::from(other)));
        let (cell, other_cell) = (at.cell, met.cell);
        let sentence = format!(in alloc;
            "cell {cell} shows {shown} on its {side}, which has to meet {mate}, \
             and cell {other_cell} shows {other} on its {other_side}"
        )?;
        Ok(Some(sentence))
    }

    // The board with each placement that can stand there beside those before it.
    pub(crate) fn laid_out(&self, alloc: Global) -> Result<Partial<'a>, AllocError> {
        let mut partial = Partial::new(alloc, self.puzzle)?;
        for cell in 0..self.puzzle.board().cells() {
            let Some(placement) = self.placement_at(u32::from(cell)) else {
                break;
            };
            if self.puzzle.legal(placement)
                && partial.at(cell).is_none()
                && !partial.used(placement.tile)
            {
                partial.place(cell, placement);
            }
        }
        Ok(partial)
    }

    // The placement at the cell.
    fn placement_at(&self, cell: u32) -> Option<Placement> {
        let placement = self.placements.get(cell as usize)?;
        Some(*placement)
    }

    // The first cell where the tile is.
    fn first_cell_of(&self, tile: u16) -> u32 {
        let mut cell = 0u32;
        for placement in self.placements {
            if placement.tile == tile {
                return cell;
            }
            cell = cell.saturating_add(1);
        }
        cell
    }
}
