//! The forms in which cells are drawn, side by side: a table in whole numbers.

ghost use Rattle.std.specs.Prelude.{◌≡◌};
ghost use Rattle.show_pictures.specs.Forms.{begin_of};

use std::fmt;

/// How a cell is drawn: as a square, or as a triangle that points up or down. Its sides are numbered as the board's.
#[derive(Clone, Copy)]
pub(crate) enum Form {
    Square,
    Up,
    Down,
}

/// How far a point is to the right of the upper left corner of the box round a cell, and how far below. The box is 80
/// by 80 round a square, and 104 by 90 round a triangle.
#[derive(Clone, Copy)]
pub(crate) struct Offset {
    pub x: u8,
    pub y: u8,
}

/// The way from one point of a form to another: how far to the right, and how far down.
#[derive(Clone, Copy)]
pub(crate) struct Way {
    pub x: i8,
    pub y: i8,
}

impl Way {
    /// The step of a path that goes this way.
    pub(crate) fn step(self) -> Step {
        Step {
            x: i32::from(self.x),
            y: i32::from(self.y),
        }
    }
}

/// A step of a path: how far to the right, and how far down. It is written as `h`, `v` or `l` with its numbers.
#[derive(Clone, Copy)]
pub struct Step {
    pub x: i32,
    pub y: i32,
}

impl fmt::Display for Step {
    fn fmt<W: fmt::Write>(&self, f: &mut fmt::Formatter<W>) -> fmt::Result {
        let Step { x, y } = *self;
        if y == 0 {
            return write!(f, "h{x}");
        }
        if x == 0 {
            return write!(f, "v{y}");
        }
        let next = Next { number: y };
        write!(f, "l{x}{next}")
    }
}

/// A number that follows another in a path. A space separates them where it has no sign.
#[derive(Clone, Copy)]
pub struct Next {
    pub number: i32,
}

impl fmt::Display for Next {
    fn fmt<W: fmt::Write>(&self, f: &mut fmt::Formatter<W>) -> fmt::Result {
        let number = self.number;
        if number < 0 {
            return write!(f, "{number}");
        }
        write!(f, " {number}")
    }
}

/// One side of a form. Sides run clockwise, and where two meet one runs as the other, backwards.
#[derive(Clone, Copy)]
pub(crate) struct FormSide {
    /// where it begins
    pub begin: Offset,
    /// from there to its end
    pub way: Way,
    /// from its end to the middle of the cell
    pub home: Way,
    /// from an end to the neck of a knob or a hollow
    pub straight: Way,
    /// over the neck
    pub neck: Way,
    /// the middle of a sign at it
    pub sign: Offset,
    /// the middle of a sign at a hollow
    pub hollow_sign: Offset,
    /// from an end to the outer corner of a band along it, where the board's edge goes straight on
    pub out: Way,
}

/// The side of the form with this number. A number that is too great gives the last side.
pub(crate) fn side_of(form: Form, side: u8) -> FormSide
    ensures x { result.begin.x ≡ (begin_of form side).0 }
    ensures y { result.begin.y ≡ (begin_of form side).1 }
{
    match form {
        Form::Square => square_side(side),
        Form::Up => up_side(side),
        Form::Down => down_side(side),
    }
}

fn square_side(side: u8) -> FormSide
    ensures x { result.begin.x ≡ (begin_of Form.Square side).0 }
    ensures y { result.begin.y ≡ (begin_of Form.Square side).1 }
{
    match side {
        0 => FormSide {
            begin: Offset { x: 0, y: 0 },
            way: Way { x: 80, y: 0 },
            home: Way { x: -40, y: 40 },
            straight: Way { x: 33, y: 0 },
            neck: Way { x: 14, y: 0 },
            sign: Offset { x: 40, y: 14 },
            hollow_sign: Offset { x: 40, y: 20 },
            out: Way { x: 0, y: -16 },
        },
        1 => FormSide {
            begin: Offset { x: 80, y: 0 },
            way: Way { x: 0, y: 80 },
            home: Way { x: -40, y: -40 },
            straight: Way { x: 0, y: 33 },
            neck: Way { x: 0, y: 14 },
            sign: Offset { x: 66, y: 40 },
            hollow_sign: Offset { x: 60, y: 40 },
            out: Way { x: 16, y: 0 },
        },
        2 => FormSide {
            begin: Offset { x: 80, y: 80 },
            way: Way { x: -80, y: 0 },
            home: Way { x: 40, y: -40 },
            straight: Way { x: -33, y: 0 },
            neck: Way { x: -14, y: 0 },
            sign: Offset { x: 40, y: 66 },
            hollow_sign: Offset { x: 40, y: 60 },
            out: Way { x: 0, y: 16 },
        },
        _ => FormSide {
            begin: Offset { x: 0, y: 80 },
            way: Way { x: 0, y: -80 },
            home: Way { x: 40, y: 40 },
            straight: Way { x: 0, y: -33 },
            neck: Way { x: 0, y: -14 },
            sign: Offset { x: 14, y: 40 },
            hollow_sign: Offset { x: 20, y: 40 },
            out: Way { x: -16, y: 0 },
        },
    }
}

fn up_side(side: u8) -> FormSide
    ensures x { result.begin.x ≡ (begin_of Form.Up side).0 }
    ensures y { result.begin.y ≡ (begin_of Form.Up side).1 }
{
    match side {
        0 => FormSide {
            begin: Offset { x: 52, y: 0 },
            way: Way { x: 52, y: 90 },
            home: Way { x: -52, y: -30 },
            straight: Way { x: 24, y: 41 },
            neck: Way { x: 4, y: 8 },
            sign: Offset { x: 68, y: 50 },
            hollow_sign: Offset { x: 66, y: 52 },
            out: Way { x: 14, y: -8 },
        },
        1 => FormSide {
            begin: Offset { x: 104, y: 90 },
            way: Way { x: -104, y: 0 },
            home: Way { x: 52, y: -30 },
            straight: Way { x: -48, y: 0 },
            neck: Way { x: -8, y: 0 },
            sign: Offset { x: 52, y: 79 },
            hollow_sign: Offset { x: 52, y: 76 },
            out: Way { x: 0, y: 16 },
        },
        _ => FormSide {
            begin: Offset { x: 0, y: 90 },
            way: Way { x: 52, y: -90 },
            home: Way { x: 0, y: 60 },
            straight: Way { x: 24, y: -41 },
            neck: Way { x: 4, y: -8 },
            sign: Offset { x: 36, y: 50 },
            hollow_sign: Offset { x: 38, y: 52 },
            out: Way { x: -14, y: -8 },
        },
    }
}

fn down_side(side: u8) -> FormSide
    ensures x { result.begin.x ≡ (begin_of Form.Down side).0 }
    ensures y { result.begin.y ≡ (begin_of Form.Down side).1 }
{
    match side {
        0 => FormSide {
            begin: Offset { x: 52, y: 90 },
            way: Way { x: -52, y: -90 },
            home: Way { x: 52, y: 30 },
            straight: Way { x: -24, y: -41 },
            neck: Way { x: -4, y: -8 },
            sign: Offset { x: 36, y: 40 },
            hollow_sign: Offset { x: 38, y: 38 },
            out: Way { x: -14, y: 8 },
        },
        1 => FormSide {
            begin: Offset { x: 0, y: 0 },
            way: Way { x: 104, y: 0 },
            home: Way { x: -52, y: 30 },
            straight: Way { x: 48, y: 0 },
            neck: Way { x: 8, y: 0 },
            sign: Offset { x: 52, y: 11 },
            hollow_sign: Offset { x: 52, y: 14 },
            out: Way { x: 0, y: -16 },
        },
        _ => FormSide {
            begin: Offset { x: 104, y: 0 },
            way: Way { x: -52, y: 90 },
            home: Way { x: 0, y: -60 },
            straight: Way { x: -24, y: 41 },
            neck: Way { x: -4, y: 8 },
            sign: Offset { x: 68, y: 40 },
            hollow_sign: Offset { x: 66, y: 38 },
            out: Way { x: 14, y: 8 },
        },
    }
}

/// How far a knob's arc reaches round: its radius.
pub fn knob_radius(form: Form) -> u8 {
    match form {
        Form::Square => 8,
        Form::Up | Form::Down => 5,
    }
}
