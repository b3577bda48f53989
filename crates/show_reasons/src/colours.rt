//! Colours, counted on the border and on tiles.

ghost use Rattle.std.specs.Prelude.{◌≡◌, ◌<◌, ◌↔◌, ℕ, List, None, Some, IsTrue, MatchBool, MatchOption, length};
ghost use Rattle.std.specs.Prelude.{slice_get};
ghost use Rattle.match_board.specs.Board.{IsBorderOrder};
ghost use Rattle.match_limits.specs.declared.TheConstants.{MOST_COLOURS};
ghost use Rattle.match_puzzle.specs.Puzzle.{IsPuzzle, Task, mate_of};
ghost use Rattle.show_text.specs.Facts.{tile_count};
ghost use Rattle.show_reasons.specs.Reasons.{AsksEverywhere, FillsInside, IsAskedCount, IsLeft, IsReasonAt};
ghost use Rattle.show_reasons.specs.Reasons.{HasNoReasonAt};

use crate::reasons::Reason;
use match_puzzle::{Border, Puzzle};
use show_text::{sides_asked, sides_shown};

/// How often the border asks for a colour, and how often tiles show it.
#[derive(Clone, Copy)]
struct Sides {
    asked: usize,
    shown: usize,
}

impl Sides {
    // How often the border asks for this colour and tiles show it, where the board has `outer` outer sides.
    fn of(puzzle: &Puzzle, outer: u16, colour: u8) -> Sides
        requires puzzle { IsPuzzle puzzle.now }
        requires outer { (pairs : List (ℕ × ℕ)) × IsBorderOrder puzzle.now.board pairs × (length pairs ≡ outer) }
        ensures asked { IsAskedCount puzzle.now colour result.asked }
        ensures shown { result.shown ≡ tile_count puzzle.now.words colour }
    {
        Sides {
            asked: sides_asked(puzzle.border(), outer, colour),
            shown: sides_shown(puzzle.tiles(), colour),
        }
    }
}

/// Whether what the border leaves of a colour just fills inner sides, where the board has `outer` outer sides: each
/// tile has to stand, and the border asks each outer side for a colour.
pub(crate) fn fills_inside(puzzle: &Puzzle, outer: u16) -> bool
    requires puzzle { IsPuzzle puzzle.now }
    requires outer { (pairs : List (ℕ × ℕ)) × IsBorderOrder puzzle.now.board pairs × (length pairs ≡ outer) }
    ensures { IsTrue result ↔ FillsInside puzzle.now }
{
    if puzzle.have_all_to_stand() {
        asks_everywhere(puzzle, outer)
    } else {
        false
    }
}

// Whether the border asks each outer side for a colour, where the board has `outer` of them.
fn asks_everywhere(puzzle: &Puzzle, outer: u16) -> bool
    requires puzzle { IsPuzzle puzzle.now }
    requires outer { (pairs : List (ℕ × ℕ)) × IsBorderOrder puzzle.now.board pairs × (length pairs ≡ outer) }
    ensures { IsTrue result ↔ AsksEverywhere puzzle.now }
{
    match puzzle.border() {
        Border::Free => outer == 0,
        Border::One(_) => true,
        Border::Each(rules) => is_full(rules.as_slice()),
    }
}

// Whether each of these is a rule.
fn is_full(rules: &[Option<u8>]) -> bool
    ensures { MatchBool result ((place : ℕ) → slice_get rules.now place ≡ Some None → ⊥)
        ((place : ℕ) × (slice_get rules.now place ≡ Some None)) }
{
    !rules.contains(&None)
}

/// The reason of a colour, if there is one, where the board has `outer` outer sides. `inside` says whether what is left
/// just fills inner sides.
pub(crate) fn colour_reason(puzzle: &Puzzle, outer: u16, inside: bool, colour: u8) -> Option<Reason>
    requires colour { colour < MOST_COLOURS }
    requires puzzle { IsPuzzle puzzle.now }
    requires outer { (pairs : List (ℕ × ℕ)) × IsBorderOrder puzzle.now.board pairs × (length pairs ≡ outer) }
    requires inside { IsTrue inside ↔ FillsInside puzzle.now }
    ensures { MatchOption result (HasNoReasonAt puzzle.now (0, colour)) (IsReasonAt puzzle.now (0, colour)) }
{
    let Sides { asked, shown } = Sides::of(puzzle, outer, colour);
    if shown < asked {
        return Some(Reason::ColourShort {
            colour,
            asked,
            shown,
        });
    }
    if inside {
        inner_reason(puzzle, outer, colour, shown - asked)
    } else {
        None
    }
}

// The reason of a colour of which `left` sides are left, where what is left just fills inner sides.
fn inner_reason(puzzle: &Puzzle, outer: u16, colour: u8, left: usize) -> Option<Reason>
    requires colour { colour < MOST_COLOURS }
    requires puzzle { IsPuzzle puzzle.now }
    requires outer { (pairs : List (ℕ × ℕ)) × IsBorderOrder puzzle.now.board pairs × (length pairs ≡ outer) }
    requires inside { FillsInside puzzle.now }
    requires left { IsLeft puzzle.now colour left }
    ensures { MatchOption result (HasNoReasonAt puzzle.now (0, colour)) (IsReasonAt puzzle.now (0, colour)) }
{
    let mate = puzzle.mate(colour);
    if mate == colour {
        return odd_reason(colour, left);
    }
    if colour < mate {
        return unequal_reason(puzzle, colour, left, Sides::of(puzzle, outer, mate));
    }
    None
}

// The reason of a colour that meets itself.
fn odd_reason(colour: u8, left: usize) -> Option<Reason>
    requires { colour < MOST_COLOURS }
    ensures { (p : Task) → FillsInside p → IsLeft p colour left → mate_of p colour ≡ colour
        → MatchOption result (HasNoReasonAt p (0, colour)) (IsReasonAt p (0, colour)) }
{
    if left % 2 == 1 {
        return Some(Reason::Odd { colour, left });
    }
    None
}

// The reason of the lesser of two mates, of which `left` sides are left. `of_mate` says how often the other is asked
// for and shown.
fn unequal_reason(puzzle: &Puzzle, colour: u8, left: usize, of_mate: Sides) -> Option<Reason>
    requires colour { colour < MOST_COLOURS }
    requires inside { FillsInside puzzle.now }
    requires left { IsLeft puzzle.now colour left }
    requires lesser { colour < mate_of puzzle.now colour }
    requires asked { IsAskedCount puzzle.now (mate_of puzzle.now colour) of_mate.asked }
    requires shown { of_mate.shown ≡ tile_count puzzle.now.words (mate_of puzzle.now colour) }
    requires puzzle { IsPuzzle puzzle.now }
    ensures { MatchOption result (HasNoReasonAt puzzle.now (0, colour)) (IsReasonAt puzzle.now (0, colour)) }
{
    let mate = puzzle.mate(colour);
    if of_mate.shown < of_mate.asked {
        return None;
    }
    let mate_left = of_mate.shown - of_mate.asked;
    if left == mate_left {
        return None;
    }
    Some(Reason::Unequal {
        colour,
        left,
        mate,
        mate_left,
    })
}
