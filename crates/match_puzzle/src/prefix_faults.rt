//! What is wrong with a list of pairs that is no prefix.

ghost use Rattle.std.specs.Prelude.{◌≡◌, MatchOption, length};
ghost use Rattle.match_puzzle.specs.PrefixFaults.{IsPairList, IsPrefixFault, TellsOfPair};

use crate::faults::PrefixFault;
use crate::placements::Pair;
use crate::puzzles::Puzzle;
use match_limits::MOST_TILES;

impl Puzzle {
    /// The first fault of a list of pairs: `None` where cells rise, tiles differ, and each placement is legal. Edges
    /// needn't match. It is one pass, and takes no memory.
    pub fn prefix_fault(&self, pairs: &[Pair]) -> Option<PrefixFault>
        ensures { MatchOption result (IsPairList self.now pairs.now) (IsPrefixFault self.now pairs.now) }
    {
        let mut seen = [false; MOST_TILES as usize];
        let mut least = 0;
        for (place, pair) in pairs.iter().enumerate() {
            if let Some(fault) = self.pair_fault(place as u32, *pair, least, &seen) {
                return Some(fault);
            }
            seen[usize::from(pair.placement.tile)] = true;
            least = pair.cell + 1;
        }
        None
    }

    // What is wrong with the pair at this place, where these tiles were seen and its cell has to be one from the least
    // on.
    fn pair_fault(&self, place: u32, pair: Pair, least: u16, seen: &[bool]) -> Option<PrefixFault>
        requires { length seen.now ≡ MOST_TILES }
        ensures { TellsOfPair self.now place pair least seen.now result }
    {
        if pair.cell < least || pair.cell >= self.board().cells() {
            return Some(PrefixFault::Cell(place));
        }
        if pair.placement.tile >= self.tile_count() || seen[usize::from(pair.placement.tile)] {
            return Some(PrefixFault::Tile(place));
        }
        if !self.legal(pair.placement) {
            return Some(PrefixFault::Turn(place));
        }
        None
    }
}
