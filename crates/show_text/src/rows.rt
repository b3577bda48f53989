//! The faces of cells, row by row.

ghost use Rattle.std.specs.Prelude.{◌≡◌, ◌<◌, ◌+◌, ◌^◌, IfOk, OnOk, length};
ghost use Rattle.match_board.specs.Board.{row_count, cells_above};
ghost use Rattle.show_text.specs.Rows.{IsRow, AreRows};

use crate::faces::{Face, face_of};
use match_puzzle::Partial;
use std::alloc::{AllocError, Global};
use std::marker::Model;

/// For each place of a row what is shown of its cell, or `None` where there is no cell.
#[derive(Drop)]
pub struct Row {
    places: Vec<Option<Face>>,
}

impl Model for Row {
    ghost use Rattle.std.specs.Prelude.{List, Option};
    ghost use Rattle.show_text.specs.declared.faces.Face.{Face};

    ghost Value = { List (Option Face) };

    ghost view = { λ row. row.places.items };
}

impl Row {
    /// The row of these places.
    pub fn new(places: Vec<Option<Face>>) -> Row
        ensures { result ≡ places.items }
    {
        Row { places }
    }

    /// The places, from the left.
    pub fn places(&self) -> &[Option<Face>]
        ensures { result.now ≡ self.now }
    {
        &self.places
    }
}

/// The rows of the board, from the top.
pub fn rows_of(
    alloc: Global,
    partial: &Partial<'_>,
    mark: Option<u16>,
) -> Result<Vec<Row>, AllocError>
    ensures rows { IfOk result (λ rows. AreRows partial.now mark rows.items) }
    ensures few { IfOk result (λ rows. length rows.items < 2 ^ 16) }
{
    let mut found = Vec::new(alloc);
    let mut next = 0;
    let count = partial.puzzle().board().figure().rows();
    for row in 0..count {
        let places = row_of(alloc, partial, mark, row, &mut next)?;
        found.push(Row::new(places))?;
    }
    Ok(found)
}

// The places of the row; the next cell that is numbered moves on by those that are there.
fn row_of(
    alloc: Global,
    partial: &Partial<'_>,
    mark: Option<u16>,
    row: u16,
    next: &mut u16,
) -> Result<Vec<Option<Face>>, AllocError>
    requires row { row < row_count partial.now.puzzle.board }
    requires next { next.old ≡ cells_above partial.now.puzzle.board row }
    ensures places { IfOk result (λ places. IsRow partial.now mark row places.items) }
    ensures next { OnOk result (next.new ≡ cells_above partial.now.puzzle.board (row + 1)) }
{
    let figure = partial.puzzle().board().figure();
    let mut places = Vec::new(alloc);
    for place in 0..figure.row_length(row) {
        if figure.is_filled(row, place) {
            places.push(Some(face_of(partial, *next, mark)))?;
            *next += 1;
        } else {
            places.push(None)?;
        }
    }
    Ok(places)
}
