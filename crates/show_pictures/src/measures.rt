//! How large forms are, and the numbers on them.

ghost use Rattle.std.specs.Prelude.{◌≤◌};

use crate::forms::{Form, Offset};

/// The middle of the form.
pub fn middle(form: Form) -> Offset {
    match form {
        Form::Square => Offset { x: 40, y: 40 },
        Form::Up => Offset { x: 52, y: 60 },
        Form::Down => Offset { x: 52, y: 30 },
    }
}

/// How wide and how high the box round the form is.
pub fn extent(form: Form) -> Offset {
    match form {
        Form::Square => Offset { x: 80, y: 80 },
        Form::Up | Form::Down => Offset { x: 104, y: 90 },
    }
}

/// How far a knob reaches beyond the box round the form, at most.
pub fn knob_reach(form: Form) -> u8 {
    match form {
        Form::Square => 12,
        Form::Up | Form::Down => 8,
    }
}

/// How large a tile's number is.
#[derive(Clone, Copy)]
pub struct NumberSize {
    /// How high its letters are.
    pub letters: u8,
    /// How far their base line is below the middle of the tile.
    pub base: u8,
    /// The radius of the disc behind it.
    pub disc: u8,
}

/// The size of numbers on tiles that have so many sides, and signs. Clued cells have discs like these.
pub fn size_beside_signs(sides: u8) -> NumberSize {
    let (letters, disc) = if sides == 4 { (13, 13) } else { (12, 9) };
    NumberSize {
        letters,
        base: 5,
        disc,
    }
}

/// The size of the numbers of so many tiles on a sheet, which is made small. Tiles have no signs there, so there is
/// room up to a hollow at a side: the number with the most digits just fits onto its disc.
pub fn size_on_a_sheet(sides: u8, tiles: u16) -> NumberSize {
    let (letters, base, disc) = match (sides == 4, tiles <= 100) {
        (true, true) => (36, 13, 26),
        (true, false) => (26, 9, 26),
        (false, true) => (28, 10, 20),
        (false, false) => (20, 7, 20),
    };
    NumberSize {
        letters,
        base,
        disc,
    }
}

/// How many sides the form has.
pub fn sides(form: Form) -> u8
    ensures { result ≤ 4 }
{
    match form {
        Form::Square => 4,
        Form::Up | Form::Down => 3,
    }
}
