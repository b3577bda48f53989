//! Numbers in a picture.

ghost use Rattle.std.specs.Prelude.{IfOk};
ghost use Rattle.std.specs.String.{string_bytes};
ghost use Rattle.show_pictures.specs.Elements.{SaysNumber};

use crate::canvases::Point;
use match_puzzle::Placement;
use std::alloc::{AllocError, Global};

/// The number, with its base line `base` below the point.
pub(crate) fn number(alloc: Global, number: u32, at: Point, base: u8) -> Result<String, AllocError>
    ensures { IfOk result (λ label. SaysNumber number (string_bytes label)) }
{
    let (x, y) = (at.x, at.y.saturating_add(u64::from(base)));
    let begin = format!(in alloc; "<text x=\"{x}\" y=\"{y}\"")?;
    let label = format!(in alloc; "{begin}>{number}</text>")?;
    Ok(label)
}

/// The number of the placed tile, with its base line `base` below the point.
pub(crate) fn tile_number(
    alloc: Global,
    placement: Placement,
    at: Point,
    base: u8,
) -> Result<String, AllocError>
    ensures { IfOk result (λ label. SaysNumber placement.tile (string_bytes label)) }
{
    number(alloc, u32::from(placement.tile), at, base)
}
