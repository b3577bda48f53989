//! Groups, signs and outlines.

ghost use Rattle.std.specs.Prelude.{◌<◌, OnOk};
ghost use Rattle.show_pictures.specs.Grown.{IsWrapped};
ghost use Rattle.match_limits.specs.declared.TheConstants.{MOST_COLOURS};

use crate::canvases::{Canvas, Point, Site};
use crate::edges::{Edge, edge_path};
use crate::forms::side_of;
use crate::measures::sides;
use match_puzzle::Puzzle;
use std::alloc::{AllocError, Global};
use text_words::{character, put_number};

/// Writes the lines as a group with these attributes, unless there are no lines.
pub fn put_group(text: &mut Vec<u8>, attributes: &[u8], lines: &[u8]) -> Result<(), AllocError>
    ensures { OnOk result (IsWrapped lines.now text.old.items text.new.items) }
{
    if lines.is_empty() {
        return Ok(());
    }
    text.extend_from_slice(b"<g ")?;
    text.extend_from_slice(attributes)?;
    text.extend_from_slice(b">\n")?;
    text.extend_from_slice(lines)?;
    text.extend_from_slice(b"</g>\n")?;
    Ok(())
}

/// Writes each of these words followed by its number, and then the last words.
pub fn put_numbered(
    text: &mut Vec<u8>,
    parts: &[(&str, u64)],
    last: &[u8],
) -> Result<(), AllocError> {
    for (words, number) in parts {
        text.extend_from_slice(words.as_bytes())?;
        put_number(text, *number)?;
    }
    text.extend_from_slice(last)
}

// The colours on whose fill a sign is white.
const DARK: [u8; 15] = [1, 3, 9, 11, 12, 14, 17, 18, 19, 23, 24, 28, 31, 32, 35];

/// The sign of the colour, with its middle at the point.
pub fn sign(alloc: Global, puzzle: &Puzzle, colour: u8, middle: Point) -> Result<String, AllocError>
    requires { colour < MOST_COLOURS }
{
    let (x, y) = (middle.x, middle.y.saturating_add(5));
    let sign = char::from(character(colour));
    let fill = if is_dark(colour.min(puzzle.mate(colour))) {
        " fill=\"#fff\""
    } else {
        ""
    };
    format!(in alloc; "<text x=\"{x}\" y=\"{y}\"{fill}>{sign}</text>")
}

// Whether a sign on the fill of the colour is white.
fn is_dark(colour: u8) -> bool {
    DARK.contains(&colour)
}

/// The outline of a cell or a tile with these edges, side by side.
pub fn outline(
    alloc: Global,
    canvas: &Canvas<'_>,
    site: Site,
    edges: [Edge; 4],
) -> Result<Vec<u8>, AllocError> {
    let begin = canvas.point(site, side_of(site.form, 0).begin);
    let (x, y) = (begin.x, begin.y);
    let mut path = Vec::from(format!(in alloc; "<path d=\"M{x} {y}")?);
    for side in 0..sides(site.form) {
        let edge = edge_path(alloc, site.form, side, edges[usize::from(side)])?;
        path.extend_from_slice(edge.as_bytes())?;
    }
    path.extend_from_slice(b"z\"/>")?;
    Ok(path)
}
