//! The pairs that a walk has still to place.

use match_limits::{Members, NumberSet, TURNS};
use match_puzzle::{Item, Pair, Placement};
use std::marker::Model;

// The pairs of an item with the numbers of a set, but for those that were taken. A walk keeps what is left of one word
// of the set, so that it doesn't look for the next number from the beginning.
#[derive(Drop)]
pub(crate) struct PairsLeft<'a> {
    item: Item,
    numbers: Members<'a>,
}

impl<'a> Model for PairsLeft<'a> {
    ghost use Rattle.std.specs.Prelude.{List, map};
    ghost use Rattle.match_puzzle.specs.declared.placements.Pair.{Pair};

    ghost Value = { List Pair };

    ghost use Rattle.match_puzzle.specs.Fitting.{numbered_pair};

    ghost view = { λ f. map (numbered_pair f.item) f.numbers };
}

impl<'a> PairsLeft<'a> {
    ghost use Rattle.std.specs.Prelude.{◌≡◌, ◌∷◌, [], MatchOption, map};
    ghost use Rattle.match_puzzle.specs.Fitting.{numbered_pair};

    // All of them.
    #[inline(always)]
    pub(crate) fn of(item: Item, numbers: &'a NumberSet) -> PairsLeft<'a>
        ensures { result ≡ map (numbered_pair item) numbers.now }
    {
        PairsLeft {
            item,
            numbers: numbers.members(),
        }
    }

    // Takes the first pair, if one is left.
    #[inline(always)]
    pub(crate) fn take_first(&mut self) -> Option<Pair>
        ensures { MatchOption result ((self.old ≡ []) × (self.new ≡ [])) (λ pair. self.old ≡ pair ∷ self.new) }
    {
        let number = self.numbers.take_first()?;
        let turn = (number % TURNS) as u8;
        Some(match self.item {
            Item::Cell(cell) => Pair {
                cell,
                placement: Placement {
                    tile: number / TURNS,
                    turn,
                },
            },
            Item::Tile(tile) => Pair {
                cell: number / TURNS,
                placement: Placement { tile, turn },
            },
        })
    }
}
