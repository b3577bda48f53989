//! Partial arrangements.

ghost use Rattle.std.specs.Prelude.{◌≡◌, ◌↔◌, ◌<◌, ℕ, IfOk, IfSome, IsTrue, MatchBool};
ghost use Rattle.std.specs.Prelude.{map, None, Some, length, slice_get};
ghost use Rattle.match_board.specs.Board.{cell_count};
ghost use Rattle.match_puzzle.specs.Prefix.{IsWithin, Has};
ghost use Rattle.match_puzzle.specs.Fitting.{IsAsked};
ghost use Rattle.match_puzzle.specs.PlacementSets.{TellsOf};

use crate::asking::put;
use crate::placements::{Pair, Placement};
use crate::puzzles::Puzzle;
use match_limits::NumberSet;
use std::alloc::{AllocError, Global};
use std::marker::Model;

/// Some cells of a puzzle, filled with different tiles in legal placements. It borrows the puzzle.
#[derive(Drop)]
pub struct Partial<'a> {
    puzzle: &'a Puzzle,
    placed: Vec<Option<Placement>>,
    // the legal placements of tiles that are not placed
    free: NumberSet,
    // each colour at its own place, and behind them any; then, four sides to a cell, what is asked of the sides that
    // these meet, by a clue and by what stands at the cell
    asks: Vec<u8>,
}

impl<'a> Model for Partial<'a> {
    ghost use Rattle.match_puzzle.specs.Prefix.{Layout};
    ghost use Rattle.match_puzzle.specs.Partials.{IsKept};

    ghost Value = { Layout };

    ghost view = { λ q. record { puzzle = q.puzzle.now; placed = q.placed.items } };

    ghost invariant = { λ q. IsKept q.puzzle.now q.placed.items q.free q.asks.items };
}

impl<'a> Partial<'a> {
    ghost use Rattle.match_puzzle.specs.Puzzle.{IsPuzzle, IsLegal};
    ghost use Rattle.match_puzzle.specs.declared.placements.Placement.{Placement};
    ghost use Rattle.match_puzzle.specs.Prefix.{Layout, IsPrefix, IsFree, IsUsed, IsUnused, empty_prefix, with_pair};
    ghost use Rattle.match_puzzle.specs.Prefix.{with_pairs, without_cell, Has};
    ghost use Rattle.match_puzzle.specs.PrefixFaults.{IsPairList};
    ghost use Rattle.match_puzzle.specs.PlacementSets.{AreFreeNumbers};

    /// A board with nothing placed.
    pub fn new(alloc: Global, puzzle: &'a Puzzle) -> Result<Partial<'a>, AllocError>
        ensures empty { IfOk result (λ q. q ≡ record { puzzle = puzzle.now; placed = empty_prefix puzzle.now }) }
        ensures puzzle { IsPuzzle puzzle.now }
    {
        let cells = usize::from(puzzle.board().cells());
        let placed = vec![in alloc; None; cells]?;
        let asks = puzzle.beginning().to_vec(alloc)?;
        Ok(Partial {
            puzzle,
            placed,
            free: puzzle.legal_numbers().copy(),
            asks,
        })
    }

    /// A board with these pairs placed, and no others.
    pub fn of(alloc: Global, puzzle: &'a Puzzle, pairs: &[Pair]) -> Result<Partial<'a>, AllocError>
        requires { IsPairList puzzle.now pairs.now }
        ensures pairs { IfOk result
            (λ q. q ≡ record { puzzle = puzzle.now; placed = with_pairs pairs.now (empty_prefix puzzle.now) }) }
        ensures puzzle { IsPuzzle puzzle.now }
    {
        let mut partial = Partial::new(alloc, puzzle)?;
        partial.place_all(pairs);
        Ok(partial)
    }

    /// A copy, of the same puzzle.
    pub fn copy(&self, alloc: Global) -> Result<Partial<'a>, AllocError>
        ensures { IfOk result (λ q. q ≡ self.now) }
    {
        let placed = self.placed.to_vec(alloc)?;
        let asks = self.asks.to_vec(alloc)?;
        Ok(Partial {
            puzzle: self.puzzle,
            placed,
            free: self.free.copy(),
            asks,
        })
    }

    /// The puzzle.
    pub fn puzzle(&self) -> &'a Puzzle
        ensures same { result.now ≡ self.now.puzzle }
        ensures puzzle { IsPuzzle self.now.puzzle }
        ensures prefix { IsPrefix self.now.puzzle self.now.placed }
    {
        self.puzzle
    }

    /// The legal placements of tiles that are not placed yet: 4 times the tile's number, plus the turn.
    pub fn free(&self) -> &NumberSet
        ensures { AreFreeNumbers self.now.puzzle self.now.placed result.now }
    {
        &self.free
    }

    // The colour that is asked on the side of the cell, or any; none that there is, where two are asked.
    pub(crate) fn asked(&self, cell: u16, side: u8) -> u8
        requires cell { cell < cell_count self.now.puzzle.board }
        requires side { side < 4 }
        ensures asked { TellsOf (IsAsked self.now.puzzle self.now.placed cell side) result }
        ensures puzzle { IsPuzzle self.now.puzzle }
    {
        self.asks[self.puzzle.asked_at(cell, side)]
    }

    /// The placement at the cell, if it is filled.
    pub fn at(&self, cell: u16) -> Option<Placement>
        requires { cell < cell_count self.now.puzzle.board }
        ensures value { slice_get self.now.placed cell ≡ Some result }
        ensures legal { IfSome result (IsLegal self.now.puzzle) }
        ensures prefix { IsPuzzle self.now.puzzle × IsPrefix self.now.puzzle self.now.placed }
    {
        self.placed[usize::from(cell)]
    }

    /// Whether the tile is placed.
    pub fn used(&self, tile: u16) -> bool
        requires { tile < length self.now.puzzle.words }
        ensures used { MatchBool result (IsUsed self.now.placed tile) (IsUnused self.now.placed tile) }
        ensures prefix { IsPrefix self.now.puzzle self.now.placed }
    {
        self.free.group(tile) == 0
    }

    /// Whether each cell is filled.
    pub fn is_whole(&self) -> bool
        ensures { MatchBool result ((cell : ℕ) → IsFree self.now.placed cell → ⊥)
            ((cell : ℕ) × IsFree self.now.placed cell) }
    {
        is_filled(&self.placed)
    }

    /// Whether each cell is filled, and with these placements, by the cell's number.
    pub fn equals(&self, placements: &[Placement]) -> bool
        ensures { IsTrue result ↔ (self.now.placed ≡ map Some placements.now) }
    {
        is_all(&self.placed, placements)
    }

    /// Whether each of these pairs is placed.
    pub fn holds(&self, pairs: &[Pair]) -> bool
        ensures { IsTrue result ↔ IsWithin pairs.now self.now.placed }
    {
        has_all(&self.placed, pairs)
    }

    /// Places a tile at a cell.
    pub fn place(&mut self, cell: u16, placement: Placement)
        requires legal { IsLegal self.old.puzzle placement }
        requires free { IsFree self.old.placed cell }
        requires unused { IsUnused self.old.placed placement.tile }
        ensures { self.new ≡ record { puzzle = self.old.puzzle; placed = with_pair self.old.placed cell placement } }
    {
        self.placed[usize::from(cell)] = Some(placement);
        self.free.remove_group(placement.tile);
        put(
            &mut self.asks,
            cell,
            self.puzzle.asked_beside(cell, placement),
        );
    }

    /// Empties the cell.
    pub fn lift(&mut self, cell: u16)
        requires { (x : Placement) × Has self.old.placed cell x }
        ensures { self.new ≡ record { puzzle = self.old.puzzle; placed = without_cell self.old.placed cell } }
    {
        if let Some(placement) = self.placed[usize::from(cell)] {
            self.placed[usize::from(cell)] = None;
            let turns = self.puzzle.legal_numbers().group(placement.tile);
            self.free.put_group(placement.tile, turns);
            put(&mut self.asks, cell, self.puzzle.asked_beside_empty(cell));
        }
    }
}

impl<'a> Partial<'a> {
    ghost use Rattle.match_puzzle.specs.Prefix.{Layout, empty_prefix, with_pairs};
    ghost use Rattle.match_puzzle.specs.PrefixFaults.{IsPairList};

    /// Places these pairs on an empty board.
    pub fn place_all(&mut self, pairs: &[Pair])
        requires pairs { IsPairList self.old.puzzle pairs.now }
        requires empty { self.old.placed ≡ empty_prefix self.old.puzzle }
        ensures { self.new ≡ record {
          puzzle = self.old.puzzle;
          placed = with_pairs pairs.now
              (empty_prefix self.old.puzzle);
        } }
    {
        for pair in pairs {
            self.place(pair.cell, pair.placement);
        }
    }

    /// Takes these pairs away, where no others are placed.
    pub fn lift_all(&mut self, pairs: &[Pair])
        requires pairs { IsPairList self.old.puzzle pairs.now }
        requires placed { self.old.placed ≡ with_pairs pairs.now (empty_prefix self.old.puzzle) }
        ensures { self.new ≡ record { puzzle = self.old.puzzle; placed = empty_prefix self.old.puzzle } }
    {
        for place in (0..pairs.len()).rev() {
            self.lift(pairs[place].cell);
        }
    }
}

// Whether no place is empty.
fn is_filled(placed: &[Option<Placement>]) -> bool
    ensures { MatchBool result ((cell : ℕ) → slice_get placed.now cell ≡ Some None → ⊥)
        ((cell : ℕ) × (slice_get placed.now cell ≡ Some None)) }
{
    !placed.contains(&None)
}

// Whether each of these pairs stands.
fn has_all(placed: &[Option<Placement>], pairs: &[Pair]) -> bool
    ensures { IsTrue result ↔ IsWithin pairs.now placed.now }
{
    pairs.iter().all(|pair| stands(placed, *pair))
}

// Whether the pair stands.
fn stands(placed: &[Option<Placement>], pair: Pair) -> bool
    ensures { IsTrue result ↔ Has placed.now pair.cell pair.placement }
{
    let cell = usize::from(pair.cell);
    cell < placed.len() && placed[cell] == Some(pair.placement)
}

// Whether just these placements stand, one at each cell.
fn is_all(placed: &[Option<Placement>], placements: &[Placement]) -> bool
    ensures { IsTrue result ↔ (placed.now ≡ map Some placements.now) }
{
    if placed.len() != placements.len() {
        return false;
    }
    for (cell, placement) in placements.iter().enumerate() {
        if placed[cell] != Some(*placement) {
            return false;
        }
    }
    true
}
