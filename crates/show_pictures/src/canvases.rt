//! Where cells and tiles are drawn in a picture.

ghost use Rattle.std.specs.Prelude.{◌≡◌, ◌+◌};

use crate::forms::{Form, Offset};
use match_puzzle::Puzzle;

/// Where a cell or a tile is drawn: its form, and the upper left corner of the box round it, counted from the corner of
/// the board or the tray.
#[derive(Clone, Copy)]
pub(crate) struct Site {
    pub form: Form,
    pub x: u32,
    pub y: u32,
}

/// A point of a picture, right of and below its upper left corner.
#[derive(Clone, Copy)]
pub(crate) struct Point {
    pub x: u64,
    pub y: u64,
}

/// The sites of a puzzle's cells, or of its tiles in the tray, by number, and the point of the picture where they
/// begin.
#[derive(Drop)]
pub(crate) struct Canvas<'a> {
    pub puzzle: &'a Puzzle,
    pub sites: Vec<Site>,
    pub left: u32,
    pub top: u32,
}

impl Canvas<'_> {
    /// The point that is `offset` away from the corner of the box round a site.
    pub fn point(&self, site: Site, offset: Offset) -> Point
        ensures x { result.x ≡ self.now.left + site.x + offset.x }
        ensures y { result.y ≡ self.now.top + site.y + offset.y }
    {
        Point {
            x: sum(self.left, site.x, offset.x),
            y: sum(self.top, site.y, offset.y),
        }
    }
}

fn sum(start: u32, more: u32, offset: u8) -> u64
    ensures { result ≡ start + more + offset }
{
    u64::from(start) + u64::from(more) + u64::from(offset)
}
