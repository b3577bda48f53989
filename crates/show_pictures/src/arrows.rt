//! Arrows that point north, on tiles that may not be turned.

ghost use Rattle.std.specs.Prelude.{◌≡◌, ◌++◌, IfOk, OnOk};
ghost use Rattle.std.specs.List.{flat_map};
ghost use Rattle.show_pictures.specs.Arrows.{arrow_line, arrow_lines};

use crate::canvases::{Canvas, Site};
use crate::forms::Offset;
use std::alloc::{AllocError, Global};
use text_words::put_number;

/// An arrow for each site of the canvas, each on a line, where tiles may not be turned. Empty where they may.
pub(crate) fn arrow_lines(alloc: Global, canvas: &Canvas<'_>) -> Result<Vec<u8>, AllocError>
    ensures { IfOk result (λ lines. lines.items ≡ arrow_lines canvas.now.puzzle.now canvas.now.left canvas.now.top
        canvas.now.sites.items) }
{
    let mut lines = Vec::new(alloc);
    if !canvas.puzzle.turns() {
        put_arrows(&mut lines, canvas)?;
    }
    Ok(lines)
}

fn put_arrows(lines: &mut Vec<u8>, canvas: &Canvas<'_>) -> Result<(), AllocError>
    ensures { OnOk result (lines.new.items ≡ lines.old.items
        ++ flat_map (arrow_line canvas.now.left canvas.now.top) canvas.now.sites.items) }
{
    for site in &canvas.sites {
        put_arrow(lines, canvas, *site)?;
    }
    Ok(())
}

// An arrow in the corner of the site's box.
fn put_arrow(lines: &mut Vec<u8>, canvas: &Canvas<'_>, site: Site) -> Result<(), AllocError>
    ensures { OnOk result (lines.new.items ≡ lines.old.items ++ arrow_line canvas.now.left canvas.now.top site) }
{
    let tip = canvas.point(site, Offset { x: 12, y: 6 });
    lines.extend_from_slice(b"<path d=\"M")?;
    put_number(lines, tip.x)?;
    lines.push(b' ')?;
    put_number(lines, tip.y)?;
    lines.extend_from_slice(b"l6 8h-4v7h-4v-7h-4z\"/>\n")?;
    Ok(())
}
