//! Draws boards of triangles.

ghost use Rattle.std.specs.Prelude.{◌≡◌, ◌+◌, ◌*◌, ◌++◌, ◌^◌, ◌<◌, ◌≤◌, OnOk, length};
ghost use Rattle.show_text.specs.Triangles.{turned, above_base, own_level, slant, sign_on, number_part, triangle_part};
ghost use Rattle.show_text.specs.Triangles.{crossed, crossed_piece, level_line, row_lines, rows_in, roofs, roof_line};
ghost use Rattle.show_text.specs.Triangles.{triangle_lines};
ghost use Rattle.show_text.specs.Pieces.{sheet_text, trimmed_line};

use crate::faces::Face;
use crate::pieces::{put_copies, put_padded, put_trimmed, star};
use crate::rows::Row;
use std::alloc::{AllocError, Global};

/// A line through a triangle, by its distance from the tip.
#[derive(Clone, Copy)]
pub enum Level {
    Tip,
    Blank,
    Number,
    Tile,
    Base,
}

/// The rows of a board of triangles with `size` of them at each side.
pub fn put_triangles(
    alloc: Global,
    text: &mut Vec<u8>,
    size: u16,
    rows: &[Row],
) -> Result<(), AllocError>
    requires { length rows.now < 2 ^ 16 }
    ensures { OnOk result (text.new.items ≡ text.old.items ++ sheet_text (triangle_lines size 0 rows.now)) }
{
    for (row, places) in rows.iter().enumerate() {
        put_row(alloc, text, size, row, places.places())?;
    }
    Ok(())
}

fn put_row(
    alloc: Global,
    text: &mut Vec<u8>,
    size: u16,
    row: usize,
    places: &[Option<Face>],
) -> Result<(), AllocError>
    requires { row < 2 ^ 16 }
    ensures { OnOk result (text.new.items ≡ text.old.items ++ sheet_text (row_lines size row places.now)) }
{
    put_level_line(alloc, text, size, row, Level::Tip, places)?;
    put_level_line(alloc, text, size, row, Level::Blank, places)?;
    put_level_line(alloc, text, size, row, Level::Number, places)?;
    put_level_line(alloc, text, size, row, Level::Tile, places)?;
    put_level_line(alloc, text, size, row, Level::Base, places)
}

// The line through a row in which triangles that point up have this level.
fn put_level_line(
    alloc: Global,
    text: &mut Vec<u8>,
    size: u16,
    row: usize,
    level: Level,
    places: &[Option<Face>],
) -> Result<(), AllocError>
    requires { row < 2 ^ 16 }
    ensures { OnOk result (text.new.items ≡ text.old.items ++ trimmed_line (level_line size row level places.now)) }
{
    let up = row < usize::from(size);
    let mut line = Vec::new(alloc);
    let indent = 5 * rows_in(size, row) + above_base(own_level(up, level));
    put_copies(&mut line, b' ', indent)?;
    put_crossed(&mut line, level, up, places)?;
    put_trimmed(text, &line)
}

// By how many rows the row is away from the longest of its half of the board.
fn rows_in(size: u16, row: usize) -> usize
    requires { row < 2 ^ 16 }
    ensures count { result ≡ rows_in size row }
    ensures few { result < 2 ^ 16 }
{
    let size = usize::from(size);
    if row < size {
        size - 1 - row
    } else {
        row - size
    }
}

// How many lines lie between the level and the base.
fn above_base(level: Level) -> usize
    ensures count { result ≡ above_base level }
    ensures few { result ≤ 4 }
{
    match level {
        Level::Tip => 4,
        Level::Blank => 3,
        Level::Number => 2,
        Level::Tile => 1,
        Level::Base => 0,
    }
}

// The level of a triangle, in the line in which those that point up have this one.
fn own_level(up: bool, level: Level) -> Level
    ensures { result ≡ own_level up level }
{
    if up { level } else { turned(level) }
}

// The level as seen from the base.
fn turned(level: Level) -> Level
    ensures { result ≡ turned level }
{
    match level {
        Level::Tip => Level::Base,
        Level::Blank => Level::Tile,
        Level::Number => Level::Number,
        Level::Tile => Level::Blank,
        Level::Base => Level::Tip,
    }
}

// The triangles of a row in this line, the first of which points up or down.
fn put_crossed(
    line: &mut Vec<u8>,
    level: Level,
    first_up: bool,
    places: &[Option<Face>],
) -> Result<(), AllocError>
    ensures { OnOk result (line.new.items ≡ line.old.items ++ crossed level first_up places.now) }
{
    let mut up = first_up;
    for place in places {
        put_place(line, level, up, place)?;
        up = !up;
    }
    line.push(slant(up))?;
    Ok(())
}

// The slant at the left of a triangle that points up or down; it is also at the right of one that points the other way.
fn slant(up: bool) -> u8
    ensures { result ≡ slant up }
{
    if up { b'/' } else { b'\\' }
}

fn put_place(
    line: &mut Vec<u8>,
    level: Level,
    up: bool,
    place: &Option<Face>,
) -> Result<(), AllocError>
    ensures { OnOk result (line.new.items ≡ line.old.items ++ crossed_piece level up place.now) }
{
    line.push(slant(up))?;
    match place {
        Some(face) => put_part(line, up, own_level(up, level), face),
        None => Ok(()),
    }
}

// What is inside a triangle at this level of its own.
fn put_part(line: &mut Vec<u8>, up: bool, level: Level, face: &Face) -> Result<(), AllocError>
    ensures { OnOk result (line.new.items ≡ line.old.items ++ triangle_part up level face.now) }
{
    match level {
        Level::Tip => Ok(()),
        Level::Blank => put_copies(line, b' ', 2),
        Level::Number => put_number(line, face),
        Level::Tile => put_tile(line, up, face),
        Level::Base => put_base(line, up, face),
    }
}

fn put_number(line: &mut Vec<u8>, face: &Face) -> Result<(), AllocError>
    ensures { OnOk result (line.new.items ≡ line.old.items ++ number_part face.now) }
{
    line.push(b' ')?;
    put_padded(line, Some(face.cell), 2)?;
    line.push(star(face.marked))?;
    Ok(())
}

fn put_tile(line: &mut Vec<u8>, up: bool, face: &Face) -> Result<(), AllocError>
    ensures { OnOk result (line.new.items ≡ line.old.items ++ triangle_part up Level.Tile face.now) }
{
    line.push(face.signs[if up { 2 } else { 0 }])?;
    put_padded(line, face.tile, 3)?;
    line.push(b' ')?;
    line.push(face.signs[if up { 0 } else { 2 }])?;
    Ok(())
}

fn put_base(line: &mut Vec<u8>, up: bool, face: &Face) -> Result<(), AllocError>
    ensures { OnOk result (line.new.items ≡ line.old.items ++ triangle_part up Level.Base face.now) }
{
    let stroke = if up { b'_' } else { b' ' };
    put_copies(line, stroke, 4)?;
    line.push(sign_on(stroke, face.signs[1]))?;
    put_copies(line, stroke, 3)
}

// The sign on a stroke, or the stroke where the sign is a space.
fn sign_on(stroke: u8, sign: u8) -> u8
    ensures { result ≡ sign_on stroke sign }
{
    if sign == b' ' { stroke } else { sign }
}

/// The line above a hexagon: the northern sides of the triangles in its first row that point down.
pub fn put_roof(alloc: Global, text: &mut Vec<u8>, size: u16) -> Result<(), AllocError>
    ensures { OnOk result (text.new.items ≡ text.old.items ++ trimmed_line (roof_line size)) }
{
    let mut line = Vec::new(alloc);
    put_copies(&mut line, b' ', 5 * rows_in(size, 0) + 4)?;
    put_roofs(&mut line, size)?;
    put_trimmed(text, &line)
}

fn put_roofs(line: &mut Vec<u8>, size: u16) -> Result<(), AllocError>
    ensures { OnOk result (line.new.items ≡ line.old.items ++ roofs size) }
{
    for _roof in 0..size {
        line.extend_from_slice(b"  ________")?;
    }
    Ok(())
}
