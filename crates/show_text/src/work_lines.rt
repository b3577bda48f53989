//! Lines that say how much work a search is guessed to be.

ghost use Rattle.std.specs.Prelude.{IfOk};
ghost use Rattle.show_text.specs.Facts.{IsWorkLine};

use crate::rough_numbers::RoughNumber;
use std::alloc::{AllocError, Global};

/// The line `work N` of a search that is guessed to meet N nodes.
///
/// An `Err` comes only where memory is refused.
pub fn write_work(alloc: Global, nodes: u64) -> Result<Vec<u8>, AllocError>
    ensures { IfOk result (λ text. IsWorkLine text.items) }
{
    let number = RoughNumber::of(nodes).to_text(alloc)?;
    let line = format!(in alloc; "work {number}\n")?;
    Ok(Vec::from(line))
}
