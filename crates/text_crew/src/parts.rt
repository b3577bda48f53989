//! Texts in parts, which are written one after the other.

ghost use Rattle.std.specs.Prelude.{◌≡◌, ◌++◌, IfOk};
ghost use Rattle.std.specs.List.{flat_map};
ghost use Rattle.text_words.specs.Spelling.{end_lines, text_of};

use std::alloc::{AllocError, Global};
use text_words::put_end;

// A text as one part.
pub(crate) fn alone(alloc: Global, text: Vec<u8>) -> Result<Vec<Vec<u8>>, AllocError>
    ensures { IfOk result (λ parts. flat_map (λ part. part.items) parts.items ≡ text.items) }
{
    let mut parts = Vec::new(alloc);
    parts.push(text)?;
    Ok(parts)
}

// The lines with `front` before them and the last line of a text after them. There are so few parts that moving them
// costs nothing.
pub(crate) fn between(
    alloc: Global,
    front: Vec<u8>,
    lines: Vec<Vec<u8>>,
) -> Result<Vec<Vec<u8>>, AllocError>
    ensures { IfOk result (λ parts. flat_map (λ part. part.items) parts.items
        ≡ (front.items ++ flat_map (λ part. part.items) lines.items) ++ text_of end_lines) }
{
    let mut last = Vec::new(alloc);
    put_end(&mut last)?;
    let mut parts = lines;
    parts.insert(0, front)?;
    parts.push(last)?;
    Ok(parts)
}
