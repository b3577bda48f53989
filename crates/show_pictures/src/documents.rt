//! The first and the last lines of a picture.

use crate::elements::put_numbered;
use match_board::Figure;
use std::alloc::{AllocError, Global};

/// The beginning of a picture: its frame, its title, a description for those who can't see it, and white paper.
pub fn begin_picture(
    alloc: Global,
    wide: u64,
    high: u64,
    title: &str,
    description: &str,
) -> Result<Vec<u8>, AllocError> {
    let mut text = Vec::new(alloc);
    put_numbered(
        &mut text,
        &[
            ("<svg xmlns=\"http://www.w3.org/2000/svg\" width=\"", wide),
            ("\" height=\"", high),
            ("\" viewBox=\"0 0 ", wide),
            (" ", high),
        ],
        b"\" role=\"img\">\n",
    )?;
    let words = format!(in alloc; "<title>{title}</title>\n<desc>{description}</desc>\n")?;
    text.extend_from_slice(words.as_bytes())?;
    // white paper below all else
    put_numbered(
        &mut text,
        &[("<path fill=\"#fff\" d=\"M0 0h", wide), ("v", high)],
        b"H0z\"/>\n",
    )?;
    Ok(text)
}

/// The last line of a picture, or of one within another.
pub const END: &[u8] = b"</svg>\n";

/// The words of a board, as a puzzle's text has them.
pub fn board_words(alloc: Global, figure: &Figure) -> Result<String, AllocError> {
    match *figure {
        Figure::Rectangle { width, height } => format!(in alloc; "board rect {width} {height}"),
        Figure::Triangle { size } => format!(in alloc; "board triangle {size}"),
        Figure::Hexagon { size } => format!(in alloc; "board hexagon {size}"),
        Figure::Shape { width, height, .. } => format!(in alloc; "board shape {width} {height}"),
    }
}

/// How many rows there are, and how many things each has; the last row may have fewer.
#[derive(Clone, Copy)]
pub struct EvenRows {
    pub rows: u16,
    pub columns: u16,
}

/// Puts `count` things into as few rows as it takes with at most `most` in each, and then as few into each row as it
/// takes.
pub fn even_rows(count: u16, most: u16) -> EvenRows {
    let rows = count.div_ceil(most.max(1));
    EvenRows {
        rows,
        columns: count.div_ceil(rows.max(1)),
    }
}
