//! What clues ask of sides.

ghost use Rattle.std.specs.Prelude.{◌≡◌, ◌<◌, ◌≤◌, ◌↔◌, ℕ, Contains, Some, length, map};
ghost use Rattle.match_board.specs.Clues.{Clue as Asking, clue_of, AsksByClue};

use match_board::Clue;

/// What a clue asks of the side of the cell, where each cell has one clue at most.
pub(crate) fn asked_by_clue(clues: &[Clue], cell: u16, side: u8) -> Option<u8>
    requires once { (c d : Asking) → Contains (map clue_of clues.now) c → Contains (map clue_of clues.now) d
        → c.cell ≡ d.cell → c ≡ d }
    requires sides { (c : Asking) → Contains (map clue_of clues.now) c → side < length c.asks }
    ensures { (colour : ℕ) → (result ≡ Some colour) ↔ AsksByClue (map clue_of clues.now) cell side colour }
{
    for clue in clues {
        if clue.cell() == cell {
            return clue.asks(side);
        }
    }
    None
}

/// One more than the greatest colour that a clue asks for.
pub(crate) fn clue_colour_count(clues: &[Clue]) -> u8
    ensures above { (cell side colour : ℕ) → AsksByClue (map clue_of clues.now) cell side colour → colour < result }
    ensures least { (other : ℕ)
        → ((cell side colour : ℕ) → AsksByClue (map clue_of clues.now) cell side colour → colour < other)
        → result ≤ other }
{
    let mut count = 0;
    for clue in clues {
        count = clue.colour_count().max(count);
    }
    count
}
