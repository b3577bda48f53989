//! Numbers for pairs of a cell and a placement: by cell, tile and turn.

ghost use Rattle.std.specs.Prelude.{◌≡◌, ◌<◌, ◌≤◌, ◌*◌, IfOk, length};
ghost use Rattle.match_limits.specs.Listing.{IsListing};
ghost use Rattle.match_puzzle.specs.Puzzle.{IsPuzzle};
ghost use Rattle.xcc_form.specs.Options.{IsOptionPair, PairComesBefore};
ghost use Rattle.xcc_form.specs.Numbers.{AreNumbered, pair_number};

use match_limits::{MOST_ENTRIES, TURNS};
use match_puzzle::{Pair, Puzzle};
use std::alloc::{AllocError, Global};

/// The number of a pair, where there are `tiles` tiles, each with four turns at most, and as many cells or fewer.
pub(crate) fn number_of(tiles: u16, pair: Pair) -> usize
    ensures { result ≡ pair_number tiles pair }
{
    let placement = pair.placement;
    TURNS as usize * (usize::from(tiles) * usize::from(pair.cell) + usize::from(placement.tile))
        + usize::from(placement.turn)
}

/// The options of the puzzle, by the numbers of their pairs.
pub(crate) fn option_numbers(
    alloc: Global,
    puzzle: &Puzzle,
    pairs: &[Pair],
) -> Result<Vec<Option<u32>>, AllocError>
    requires puzzle { IsPuzzle puzzle.now }
    requires pairs { IsListing PairComesBefore (IsOptionPair puzzle.now) pairs.now }
    requires few { length pairs.now ≤ MOST_ENTRIES }
    ensures { IfOk result (λ v. AreNumbered (length puzzle.now.words) pairs.now v.items) }
{
    let tiles = puzzle.tile_count();
    let mut numbers = vec![in alloc; None; TURNS as usize
        * usize::from(tiles)
        * usize::from(tiles)]?;
    let mut option: u32 = 0;
    for pair in pairs {
        numbers[number_of(tiles, *pair)] = Some(option);
        option += 1;
    }
    Ok(numbers)
}
