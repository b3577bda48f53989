//! Equal tiles, which can show the same.

ghost use Rattle.std.specs.Prelude.{◌↔◌, IsTrue, MatchOption};
ghost use Rattle.match_puzzle.specs.Puzzle.{IsLegal};
ghost use Rattle.match_puzzle.specs.EqualTiles.{AreEqualTiles, IsShowing, ShowTheSame};
ghost use Rattle.match_puzzle.specs.declared.placements.Placement.{Placement as Standing};

use crate::placements::Placement;
use crate::puzzles::Puzzle;

impl Puzzle {
    /// Whether the tiles are equal: a legal turn of the one shows what a legal turn of the other shows.
    pub fn are_equal_tiles(&self, tile: u16, other: u16) -> bool
        ensures { IsTrue result ↔ AreEqualTiles self.now tile other }
    {
        for turn in 0..self.board().sides() {
            let placement = Placement { tile, turn };
            if self.legal(placement) && self.turn_showing(placement, other).is_some() {
                return true;
            }
        }
        false
    }

    /// The first legal turn of the other tile at which it shows what the placement shows.
    pub fn turn_showing(&self, placement: Placement, other: u16) -> Option<Placement>
        requires { IsLegal self.now placement }
        ensures { MatchOption result
            ((shown : Standing) → IsShowing self.now other placement shown → ⊥)
            (IsShowing self.now other placement) }
    {
        for turn in 0..self.board().sides() {
            let shown = Placement { tile: other, turn };
            if self.legal(shown) && self.show_the_same(placement, shown) {
                return Some(shown);
            }
        }
        None
    }

    // Whether the placements show the same colour on each side.
    fn show_the_same(&self, one: Placement, other: Placement) -> bool
        requires one { IsLegal self.now one }
        requires other { IsLegal self.now other }
        ensures { IsTrue result ↔ ShowTheSame self.now one other }
    {
        for side in 0..self.board().sides() {
            if self.colour(one, side) != self.colour(other, side) {
                return false;
            }
        }
        true
    }
}
