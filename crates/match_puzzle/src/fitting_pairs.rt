//! The pairs that fit and settle an item.

use crate::items::Item;
use crate::partials::Partial;
use crate::placements::{Pair, Placement};
use match_limits::{MOST_CHILDREN, NumberSet, TURNS};
use std::marker::Model;

/// The pairs that fit and settle one item, and that were not taken yet: for a cell by tile, for a tile by cell, and
/// then by turn. They are kept as bits, in no memory of the heap.
#[derive(Drop)]
pub struct FittingPairs {
    item: Item,
    numbers: NumberSet,
}

impl Model for FittingPairs {
    ghost use Rattle.std.specs.Prelude.{List, map};
    ghost use Rattle.match_puzzle.specs.declared.placements.Pair.{Pair};

    ghost Value = { List Pair };

    ghost use Rattle.match_puzzle.specs.Fitting.{numbered_pair};

    ghost view = { λ f. map (numbered_pair f.item) f.numbers };
}

impl FittingPairs {
    ghost use Rattle.std.specs.Prelude.{◌≡◌, ◌≤◌, ◌∷◌, [], MatchOption, length};
    ghost use Rattle.match_puzzle.specs.Fitting.{AreFitting, IsItem};

    /// No pair of the item.
    pub fn none(item: Item) -> FittingPairs
        ensures { result ≡ [] }
    {
        let numbers = NumberSet::new();
        FittingPairs { item, numbers }
    }

    /// Replaces these by all pairs that fit and settle the item.
    ///
    /// It costs what `Partial::fitting` does, and writes the pairs where they are wanted, where that call moves them.
    /// It takes no memory.
    pub fn refill(&mut self, partial: &Partial<'_>, item: Item)
        requires { IsItem partial.now.puzzle item }
        ensures { AreFitting partial.now.puzzle partial.now.placed item self.new }
    {
        self.item = item;
        match item {
            Item::Cell(cell) => partial.put_fitting_at(cell, &mut self.numbers),
            Item::Tile(tile) => partial.put_fitting_of(tile, &mut self.numbers),
        }
    }

    /// How many pairs are left, at most 1,024: four turns for each of 256 tiles or cells.
    pub fn len(&self) -> u16
        ensures count { result ≡ length self.now }
        ensures few { result ≤ MOST_CHILDREN }
    {
        self.numbers.len()
    }

    /// Takes the first pair, if one is left.
    pub fn take_first(&mut self) -> Option<Pair>
        ensures { MatchOption result ((self.old ≡ []) × (self.new ≡ [])) (λ pair. self.old ≡ pair ∷ self.new) }
    {
        let number = self.numbers.take_first()?;
        let turn = (number % TURNS) as u8;
        Some(match self.item {
            Item::Cell(cell) => Pair {
                cell,
                placement: Placement {
                    tile: number / TURNS,
                    turn,
                },
            },
            Item::Tile(tile) => Pair {
                cell: number / TURNS,
                placement: Placement { tile, turn },
            },
        })
    }
}
