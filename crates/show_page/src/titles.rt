//! A title, as it stands in a page.

ghost use Rattle.std.specs.Prelude.{◌≡◌, ◌++◌, ℕ, List, IfOk, OnOk};
ghost use Rattle.show_page.specs.Titles.{entity, escaped, IsCharacterData};

use std::alloc::{AllocError, Global};

/// The law of titles; the call does nothing. What is written of a title stands for characters alone: nothing of it
/// begins or ends an element, an attribute or a reference.
pub fn title_law()
    ensures { (title : List ℕ) → IsCharacterData (escaped title) }
{}

// Writes a byte of a title, or the reference that stands for it.
fn put_escaped(hole: &mut Vec<u8>, byte: u8) -> Result<(), AllocError>
    ensures { OnOk result (hole.new.items ≡ hole.old.items ++ entity byte) }
{
    match byte {
        b'&' => hole.extend_from_slice(b"&amp;"),
        b'<' => hole.extend_from_slice(b"&lt;"),
        b'>' => hole.extend_from_slice(b"&gt;"),
        b'"' => hole.extend_from_slice(b"&quot;"),
        b'\'' => hole.extend_from_slice(b"&#39;"),
        _ => {
            hole.push(byte)?;
            Ok(())
        }
    }
}

/// A title, with references in place of the five characters that HTML reads otherwise. An error comes where memory is
/// refused.
pub fn escape(alloc: Global, title: &str) -> Result<Vec<u8>, AllocError>
    ensures { IfOk result (λ hole. hole.items ≡ escaped title.now) }
{
    let mut hole = Vec::new(alloc);
    for byte in title.as_bytes() {
        put_escaped(&mut hole, *byte)?;
    }
    Ok(hole)
}
