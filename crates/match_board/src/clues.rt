//! Clues: what cells have to show.

ghost use Rattle.std.specs.Prelude.{◌≡◌, ◌≤◌, ◌<◌, ◌↔◌, ◌⊎◌, ℕ, IfOk, None, Some, length, slice_get, take};
ghost use Rattle.match_limits.specs.declared.TheConstants.{MOST_COLOURS};

use crate::borders::{colour_count_of, first_bad_colour};
use crate::tiles::TileFault;
use match_limits::SIDES;

/// What a cell has to show: a colour from 0 to 35, or nothing in particular, on each of its three or four sides.
///
/// Cells are numbered from 0, and sides from 0, clockwise. Clues are equal where they are of the same cell, have as
/// many sides and ask the same.
#[derive(Clone, Copy, PartialEq, Eq, Debug)]
pub struct Clue {
    cell: u16,
    asks: [Option<u8>; SIDES],
    sides: u8,
    pub ghost three_or_four: { (3 ≤ sides) × (sides ≤ 4) },
    pub ghost in_range: { (side colour : ℕ) → slice_get (take sides asks) side ≡ Some (Some colour)
        → colour < MOST_COLOURS },
}

// What the first `sides` sides are asked for, and nothing of a missing fourth: what nobody sees makes no difference.
fn asked_alone(asks: [Option<u8>; SIDES], sides: u8) -> [Option<u8>; SIDES]
    requires { (sides ≡ 3) ⊎ (sides ≡ 4) }
    ensures asked { take sides result ≡ take sides asks }
    ensures alone { sides ≡ 3 → slice_get result 3 ≡ Some None }
{
    let mut alone = asks;
    if sides == 3 {
        alone[3] = None;
    }
    alone
}

impl Clue {
    ghost use Rattle.match_board.specs.Clues.{Clue, clue_of};

    /// The clue that asks a cell for these colours. It takes as many of them as the cell has sides.
    ///
    /// `BadColour` where it asks for a colour of 36 or more.
    pub fn new(cell: u16, asks: [Option<u8>; SIDES], sides: u8) -> Result<Clue, TileFault>
        requires { (sides ≡ 3) ⊎ (sides ≡ 4) }
        ensures clue { IfOk result (λ c. clue_of c ≡ record { cell = cell; asks = take sides asks }) }
        ensures bad_colour { (result ≡ Err TileFault.BadColour) ↔ ((side : ℕ) × (colour : ℕ)
            × (slice_get (take sides asks) side ≡ Some (Some colour)) × (MOST_COLOURS ≤ colour)) }
    {
        match first_bad_colour(&asks[..usize::from(sides)]) {
            Some(_) => Err(TileFault::BadColour),
            None => Ok(Clue {
                cell,
                asks: asked_alone(asks, sides),
                sides,
            }),
        }
    }

    /// The number of the cell.
    pub fn cell(&self) -> u16
        ensures { result ≡ (clue_of self.now).cell }
    {
        self.cell
    }

    /// How many sides the cell has, 3 or 4.
    pub fn sides(&self) -> u8
        ensures count { result ≡ length (clue_of self.now).asks }
        ensures three_or_four { (3 ≤ result) × (result ≤ 4) }
    {
        self.sides
    }

    /// The colour, from 0 to 35, that the side has to show, if there is one.
    pub fn asks(&self, side: u8) -> Option<u8>
        requires { side < length (clue_of self.now).asks }
        ensures asked { slice_get (clue_of self.now).asks side ≡ Some result }
        ensures below { (colour : ℕ) → result ≡ Some colour → colour < MOST_COLOURS }
    {
        self.asks[usize::from(side)]
    }

    /// One more than the greatest colour that is asked for.
    pub fn colour_count(&self) -> u8
        ensures above { (side colour : ℕ) → slice_get (clue_of self.now).asks side ≡ Some (Some colour)
            → colour < result }
        ensures least { (other : ℕ)
            → ((side colour : ℕ) → slice_get (clue_of self.now).asks side ≡ Some (Some colour) → colour < other)
            → result ≤ other }
    {
        colour_count_of(&self.asks[..usize::from(self.sides)])
    }
}
