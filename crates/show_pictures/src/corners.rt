//! The outer corners of bands.

ghost use Rattle.std.specs.Prelude.{◌≡◌, ◌<◌, ◌≤◌, length};
ghost use Rattle.match_board.specs.Board.{cell_count, side_count, IsBoard};

use crate::canvases::{Canvas, Site};
use crate::forms::{Form, Step, Way, side_of};
use match_board::Figure;
use match_puzzle::Puzzle;

/// An end of a side, clockwise.
#[derive(Clone, Copy)]
pub enum End {
    First,
    Last,
}

/// The outer corner of a band: how far it is to the right of the end of its side, and how far below.
#[derive(Clone, Copy)]
pub struct Corner {
    pub x: i16,
    pub y: i16,
}

impl Corner {
    /// The step to it from the end of the side.
    pub fn step(self) -> Step {
        Step {
            x: i32::from(self.x),
            y: i32::from(self.y),
        }
    }
}

// How wide a band is.
const BAND: i8 = 16;

/// The outer corner at an end of a side that meets nothing.
pub fn outer_corner(canvas: &Canvas<'_>, cell: u16, side: u8, end: End) -> Corner
    requires many { length canvas.now.sites.items ≡ cell_count canvas.now.puzzle.now.board }
    requires cell { cell < cell_count canvas.now.puzzle.now.board }
    requires side { side < side_count canvas.now.puzzle.now.board }
{
    let board = canvas.puzzle.board();
    let site = canvas.sites[usize::from(cell)];
    if board.sides() == 4 {
        square_corner(board.figure(), site, side, end)
    } else {
        triangle_corner(canvas.puzzle, cell, side, site.form, end)
    }
}

// A square beside another one: how many rows and places it is on from that.
#[derive(Clone, Copy)]
struct Neighbour {
    rows: i8,
    places: i8,
}

// The outer corner at an end of a square's side. A band ends where the board's edge goes straight on; it goes further
// at a corner of the board, and less far at a corner of a hole.
fn square_corner(figure: &Figure, site: Site, side: u8, end: End) -> Corner
    requires { IsBoard figure.now }
{
    let outside = has_square(figure, site, beyond_outside(side, end));
    let along = has_square(figure, site, beyond(side, end));
    let further = match (outside, along) {
        (true, _) => -BAND,
        (false, true) => 0,
        (false, false) => BAND,
    };
    moved_on(side_of(Form::Square, side).out, side, end, further)
}

// The square beyond the end of the side, along it.
fn beyond(side: u8, end: End) -> Neighbour {
    match (side, end) {
        (0, End::Last) | (2, End::First) => Neighbour { rows: 0, places: 1 },
        (0, End::First) | (2, End::Last) => Neighbour {
            rows: 0,
            places: -1,
        },
        (1, End::Last) | (3, End::First) => Neighbour { rows: 1, places: 0 },
        _ => Neighbour {
            rows: -1,
            places: 0,
        },
    }
}

// The square outside of that.
fn beyond_outside(side: u8, end: End) -> Neighbour {
    match (side, end) {
        (0, End::Last) | (1, End::First) => Neighbour {
            rows: -1,
            places: 1,
        },
        (1, End::Last) | (2, End::First) => Neighbour { rows: 1, places: 1 },
        (2, End::Last) | (3, End::First) => Neighbour {
            rows: 1,
            places: -1,
        },
        _ => Neighbour {
            rows: -1,
            places: -1,
        },
    }
}

// Whether there is such a square.
fn has_square(figure: &Figure, site: Site, neighbour: Neighbour) -> bool
    requires { IsBoard figure.now }
{
    let row = u16::try_from(i64::from(site.y / 80) + i64::from(neighbour.rows));
    let place = u16::try_from(i64::from(site.x / 80) + i64::from(neighbour.places));
    let (Ok(row), Ok(place)) = (row, place) else {
        return false;
    };
    row < figure.rows() && place < figure.row_length(row) && figure.is_filled(row, place)
}

// The corner at `out` from an end of the side, moved on along the side by `further`.
fn moved_on(out: Way, side: u8, end: End, further: i8) -> Corner {
    let (x, y, further) = (i16::from(out.x), i16::from(out.y), i16::from(further));
    match (side, end) {
        (0, End::Last) | (2, End::First) => Corner { x: x + further, y },
        (0, End::First) | (2, End::Last) => Corner { x: x - further, y },
        (1, End::Last) | (3, End::First) => Corner { x, y: y + further },
        _ => Corner { x, y: y - further },
    }
}

// The outer corner at an end of a triangle's side, by how many triangles there are round the corner of the board: one,
// two, or three, where its edge goes straight on.
fn triangle_corner(puzzle: &Puzzle, cell: u16, side: u8, form: Form, end: End) -> Corner
    requires cell { cell < cell_count puzzle.now.board }
    requires sides { 3 ≤ side_count puzzle.now.board }
{
    let Some((beside, met)) = puzzle.meets(cell, turned(side, end)) else {
        return sharp_corner(form, side, end);
    };
    if puzzle.meets(beside, turned(met, end)).is_none() {
        return blunt_corner(form, side, end);
    }
    let out = side_of(form, side).out;
    Corner {
        x: i16::from(out.x),
        y: i16::from(out.y),
    }
}

// The side of a triangle that comes next round the corner at the end of this one.
fn turned(side: u8, end: End) -> u8
    ensures { result < 3 }
{
    match (side, end) {
        (0, End::Last) | (2, End::First) => 1,
        (1, End::Last) | (0, End::First) => 2,
        _ => 0,
    }
}

// Where one triangle stands alone; none that points down does.
fn sharp_corner(form: Form, side: u8, end: End) -> Corner {
    match (form, side, end) {
        (Form::Up, 0, End::First) | (Form::Up, 2, End::Last) => Corner { x: 0, y: -32 },
        (Form::Up, 1, End::First) | (Form::Up, 0, End::Last) => Corner { x: 28, y: 16 },
        (Form::Up, _, _) => Corner { x: -28, y: 16 },
        _ => blunt_corner(form, side, end),
    }
}

// Where two triangles stand.
fn blunt_corner(form: Form, side: u8, end: End) -> Corner {
    match (form, side, end) {
        (Form::Up, 0, End::First) => Corner { x: 9, y: -16 },
        (Form::Up, 0, End::Last) => Corner { x: 18, y: 0 },
        (Form::Up, 1, End::First) => Corner { x: 9, y: 16 },
        (Form::Up, 1, End::Last) => Corner { x: -9, y: 16 },
        (Form::Up, _, End::First) => Corner { x: -18, y: 0 },
        (Form::Up, _, End::Last) => Corner { x: -9, y: -16 },
        (Form::Down, 0, End::First) => Corner { x: -9, y: 16 },
        (Form::Down, 0, End::Last) => Corner { x: -18, y: 0 },
        (Form::Down, 1, End::First) => Corner { x: -9, y: -16 },
        (Form::Down, 1, End::Last) => Corner { x: 9, y: -16 },
        (Form::Down, _, End::First) => Corner { x: 18, y: 0 },
        _ => Corner { x: 9, y: 16 },
    }
}
