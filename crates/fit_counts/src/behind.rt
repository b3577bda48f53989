//! Where the pairs begin that come after a given pair, in the order of an item (a cell or a tile).

ghost use Rattle.std.specs.Prelude.{◌≡◌, ◌↔◌, ◌<◌, ◌≤◌, ◌+◌, ◌*◌, ℕ, IfSome, MatchOption};
ghost use Rattle.std.specs.Int.{bit_at};

use match_limits::{MOST_TILES, TURNS};
use match_puzzle::Pair;

/// The four turns of a tile, as bits.
pub(crate) const EACH_TURN: u8 = 15;

/// The number after that of the pair's placement, with four turns to a tile; 0 without a pair.
pub(crate) fn number_behind(after: Option<Pair>) -> u16
    requires { IfSome after (λ x. (x.placement.tile < MOST_TILES) × (x.placement.turn < 4)) }
    ensures few { result ≤ 4 * MOST_TILES }
    ensures number { MatchOption after (result ≡ 0) (λ x. result ≡ 4 * x.placement.tile + x.placement.turn + 1) }
{
    match after {
        None => 0,
        Some(pair) => TURNS * pair.placement.tile + u16::from(pair.placement.turn) + 1,
    }
}

/// The cell at which a tile's pairs after this one begin, and the turns there that come after it, as bits; cell 0 and
/// all turns without a pair.
pub(crate) fn place_behind(after: Option<Pair>) -> (u16, u8)
    requires { IfSome after (λ x. x.placement.turn < 4) }
    ensures cell { MatchOption after (result.0 ≡ 0) (λ x. result.0 ≡ x.cell) }
    ensures turns { (turn : ℕ) → turn < 4
        → (bit_at result.1 turn ≡ 1) ↔ IfSome after (λ x. x.placement.turn < turn) }
{
    match after {
        None => (0, EACH_TURN),
        Some(pair) => (pair.cell, (EACH_TURN - 1) << pair.placement.turn),
    }
}
