//! Draws boards of squares.

ghost use Rattle.std.specs.Prelude.{◌≡◌, ◌++◌, ◌||◌, [], IfOk, OnOk, option_map};
ghost use Rattle.show_text.specs.Pieces.{sheet_text, trimmed_line};
ghost use Rattle.show_text.specs.Squares.{square_part, inside_width, post_after, posted, dashes};
ghost use Rattle.show_text.specs.Squares.{has_cell, edge_line, part_line, row_lines, square_lines};

use crate::faces::Face;
use crate::pieces::{put_copies, put_padded, put_trimmed, star};
use crate::rows::Row;
use std::alloc::{AllocError, Global};

/// A line through squares, between the edges above and below them.
#[derive(Clone, Copy)]
pub enum Part {
    Top,
    Middle,
    Bottom,
}

/// The rows of a board of `columns` columns, with room for `digits` digits in each number.
pub fn write_squares(
    alloc: Global,
    rows: &[Row],
    columns: u16,
    digits: u8,
) -> Result<Vec<u8>, AllocError>
    ensures { IfOk result (λ text. text.items ≡ sheet_text (square_lines digits columns [] rows.now)) }
{
    let mut text = Vec::new(alloc);
    let mut above: &[Option<Face>] = &[];
    for row in rows {
        let here = row.places();
        put_edge_line(alloc, &mut text, above, here, columns, digits)?;
        put_row_lines(alloc, &mut text, here, digits)?;
        above = here;
    }
    put_edge_line(alloc, &mut text, above, &[], columns, digits)?;
    Ok(text)
}

// The edge between two rows.
fn put_edge_line(
    alloc: Global,
    text: &mut Vec<u8>,
    above: &[Option<Face>],
    below: &[Option<Face>],
    columns: u16,
    digits: u8,
) -> Result<(), AllocError>
    ensures { OnOk result (text.new.items ≡ text.old.items ++ trimmed_line (edge_line digits columns above.now below.now)) }
{
    let line = edge(alloc, above, below, columns, digits)?;
    put_trimmed(text, &line)
}

fn edge(
    alloc: Global,
    above: &[Option<Face>],
    below: &[Option<Face>],
    columns: u16,
    digits: u8,
) -> Result<Vec<u8>, AllocError>
    ensures { IfOk result (λ line. line.items ≡ edge_line digits columns above.now below.now) }
{
    let mut line = Vec::new(alloc);
    let mut before = false;
    for column in 0..columns {
        let there = has_edge(above, below, column);
        put_edge(&mut line, there, before, digits)?;
        before = there;
    }
    line.push(post(b'+', before))?;
    Ok(line)
}

// The edge of one column, where it is there, with the post before it.
fn put_edge(line: &mut Vec<u8>, there: bool, before: bool, digits: u8) -> Result<(), AllocError>
    ensures { OnOk result (line.new.items ≡ line.old.items ++ posted 43 (inside_width digits) before (dashes digits there)) }
{
    if there {
        line.push(b'+')?;
        put_copies(line, b'-', usize::from(digits) + 6)
    } else {
        line.push(post(b'+', before))?;
        put_copies(line, b' ', usize::from(digits) + 6)
    }
}

// Whether there is a cell at the column of either row.
fn has_edge(above: &[Option<Face>], below: &[Option<Face>], column: u16) -> bool
    ensures { result ≡ (has_cell above.now column || has_cell below.now column) }
{
    has_cell(above, column) || has_cell(below, column)
}

// Whether there is a cell at the column of the row.
fn has_cell(places: &[Option<Face>], column: u16) -> bool
    ensures { result ≡ has_cell places.now column }
{
    let column = usize::from(column);
    column < places.len() && places[column].is_some()
}

// The post behind a piece, or behind nothing.
fn post(sign: u8, before: bool) -> u8
    ensures { result ≡ post_after sign before }
{
    if before { sign } else { b' ' }
}

// The lines through the squares of a row.
fn put_row_lines(
    alloc: Global,
    text: &mut Vec<u8>,
    places: &[Option<Face>],
    digits: u8,
) -> Result<(), AllocError>
    ensures { OnOk result (text.new.items ≡ text.old.items ++ sheet_text (row_lines digits places.now)) }
{
    put_part_line(alloc, text, Part::Top, places, digits)?;
    put_part_line(alloc, text, Part::Middle, places, digits)?;
    put_part_line(alloc, text, Part::Bottom, places, digits)
}

fn put_part_line(
    alloc: Global,
    text: &mut Vec<u8>,
    part: Part,
    places: &[Option<Face>],
    digits: u8,
) -> Result<(), AllocError>
    ensures { OnOk result (text.new.items ≡ text.old.items ++ trimmed_line (part_line digits part places.now)) }
{
    let line = row_part(alloc, part, places, digits)?;
    put_trimmed(text, &line)
}

fn row_part(
    alloc: Global,
    part: Part,
    places: &[Option<Face>],
    digits: u8,
) -> Result<Vec<u8>, AllocError>
    ensures { IfOk result (λ line. line.items ≡ part_line digits part places.now) }
{
    let mut line = Vec::new(alloc);
    let mut before = false;
    for place in places {
        put_place(&mut line, part, place, before, digits)?;
        before = place.is_some();
    }
    line.push(post(b'|', before))?;
    Ok(line)
}

// One square, where it is there, with the post before it.
fn put_place(
    line: &mut Vec<u8>,
    part: Part,
    place: &Option<Face>,
    before: bool,
    digits: u8,
) -> Result<(), AllocError>
    ensures { OnOk result (line.new.items ≡ line.old.items
        ++ posted 124 (inside_width digits) before (option_map (square_part digits part) place.now)) }
{
    match place {
        Some(face) => {
            line.push(b'|')?;
            put_square_part(line, part, face, digits)
        }
        None => {
            line.push(post(b'|', before))?;
            put_copies(line, b' ', usize::from(digits) + 6)
        }
    }
}

fn put_square_part(
    line: &mut Vec<u8>,
    part: Part,
    face: &Face,
    digits: u8,
) -> Result<(), AllocError>
    ensures { OnOk result (line.new.items ≡ line.old.items ++ square_part digits part face.now) }
{
    match part {
        Part::Top => put_top(line, face, digits),
        Part::Middle => put_middle(line, face, digits),
        Part::Bottom => put_bottom(line, face, digits),
    }
}

fn put_top(line: &mut Vec<u8>, face: &Face, digits: u8) -> Result<(), AllocError>
    ensures { OnOk result (line.new.items ≡ line.old.items ++ square_part digits Part.Top face.now) }
{
    put_padded(line, Some(face.cell), digits)?;
    line.push(star(face.marked))?;
    line.push(b' ')?;
    line.push(face.signs[0])?;
    put_copies(line, b' ', 3)
}

fn put_middle(line: &mut Vec<u8>, face: &Face, digits: u8) -> Result<(), AllocError>
    ensures { OnOk result (line.new.items ≡ line.old.items ++ square_part digits Part.Middle face.now) }
{
    line.push(b' ')?;
    line.push(face.signs[3])?;
    line.push(b' ')?;
    put_padded(line, face.tile, digits)?;
    line.push(b' ')?;
    line.push(face.signs[1])?;
    line.push(b' ')?;
    Ok(())
}

fn put_bottom(line: &mut Vec<u8>, face: &Face, digits: u8) -> Result<(), AllocError>
    ensures { OnOk result (line.new.items ≡ line.old.items ++ square_part digits Part.Bottom face.now) }
{
    put_copies(line, b' ', usize::from(digits) + 2)?;
    line.push(face.signs[2])?;
    put_copies(line, b' ', 3)
}
