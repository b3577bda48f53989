//! Numbers in their ranges.

ghost use Rattle.std.specs.Prelude.{◌≡◌, ◌≤◌};

use crate::{
    LAST_ARRANGEMENT, MOST_COLOURS, MOST_DEPTH, MOST_DRAWN, MOST_FORKS, MOST_FUEL, MOST_SIDES,
    MOST_WORKERS,
};
use std::marker::Model;

/// A number from `LEAST` to `MOST`.
#[derive(Clone, Copy, PartialEq, Eq, Debug)]
pub struct Within<const LEAST: u32, const MOST: u32> {
    number: u32,
}

// Clauses see the number.
impl<const LEAST: u32, const MOST: u32> Model for Within<LEAST, MOST> {
    ghost use Rattle.std.specs.Prelude.{◌≤◌, ℕ};
    ghost use Rattle.std.proofs.Common.{refl};

    ghost Value = { ℕ };

    ghost view = { λ w. w.number };

    ghost invariant = { λ w. (LEAST ≤ w.number) × (w.number ≤ MOST) };

    ghost inverse = { λ n. record { number = n } };

    ghost inverse_ok = { λ w i. refl };
}

impl<const LEAST: u32, const MOST: u32> Within<LEAST, MOST> {
    /// The number, which has to be in the range.
    pub fn new(number: u32) -> Self
        requires { (LEAST ≤ number) × (number ≤ MOST) }
        ensures { result ≡ number }
    {
        Within { number }
    }

    pub fn get(self) -> u32
        ensures number { result ≡ self.entry }
        ensures range { (LEAST ≤ result) × (result ≤ MOST) }
    {
        self.number
    }
}

/// How many workers share the work.
pub type Workers = Within<1, 64>;

/// At how many levels of a tree the two halves of a branch's children are walked side by side.
pub type Forks = Within<0, 6>;

/// The depth of a solve: of how many levels of branches lemmas are made before the search begins.
pub type Depth = Within<0, 3>;

/// The most branch nodes of one lemma.
pub type Fuel = Within<1, 1_000_000>;

/// The number of an arrangement in a list, from 0.
pub type ArrangementNumber = Within<0, 999_999>;

/// How many arrangements are asked for on a sheet; 0 where no sheet is asked for.
pub type Drawn = Within<0, 100>;

/// How many sides a tile has.
pub type Sides = Within<3, 4>;

/// How many colours there are.
pub type Colours = Within<1, 36>;

/// How many parts of a search come before one part, or after it.
pub type OtherParts = Within<0, 999_999>;

// A type's bounds can't name the limits, so they have their digits.
const _: () = prove!(MOST_WORKERS == 64);

const _: () = prove!(MOST_FORKS == 6);

const _: () = prove!(MOST_DEPTH == 3);

const _: () = prove!(MOST_FUEL == 1_000_000);

const _: () = prove!(LAST_ARRANGEMENT == 999_999);

const _: () = prove!(MOST_DRAWN == 100);

const _: () = prove!(MOST_SIDES == 4);

const _: () = prove!(MOST_COLOURS == 36);
