//! How many arrangements there are, as a page tells it.

ghost use Rattle.std.specs.Prelude.{◌≡◌, IfOk, decimal};
ghost use Rattle.show_page.specs.Counts.{counts_text, counts_with};

use crate::fixed;
use crate::joining::join;
use std::alloc::{AllocError, Global};
use symmetry_orbits::Count;
use text_words::put_number;

/// How many arrangements, pictures and orbits a puzzle has, how many symmetries the certificate names, and how many
/// arrangements are listed.
#[derive(Clone, Copy)]
pub struct PageCounts {
    pub count: Count,
    pub symmetries: u64,
    pub listed: u64,
}

/// A number in decimal. An error comes where memory is refused.
pub fn digits(alloc: Global, number: u64) -> Result<Vec<u8>, AllocError>
    ensures { IfOk result (λ text. text.items ≡ decimal number) }
{
    let mut text = Vec::new(alloc);
    put_number(&mut text, number)?;
    Ok(text)
}

/// The counts, each behind what the page says of it. An error comes where memory is refused.
pub fn counts_of(alloc: Global, counts: PageCounts) -> Result<Vec<u8>, AllocError>
    ensures { IfOk result (λ text. text.items ≡ counts_text counts) }
{
    let arrangements = digits(alloc, counts.count.arrangements)?;
    let pictures = digits(alloc, counts.count.pictures)?;
    let orbits = digits(alloc, counts.count.orbits)?;
    let symmetries = digits(alloc, counts.symmetries)?;
    let listed = digits(alloc, counts.listed)?;
    let text = counts_by(
        alloc,
        &arrangements,
        &pictures,
        &orbits,
        &symmetries,
        &listed,
    )?;
    Ok(text)
}

fn counts_by(
    alloc: Global,
    arrangements: &[u8],
    pictures: &[u8],
    orbits: &[u8],
    symmetries: &[u8],
    listed: &[u8],
) -> Result<Vec<u8>, AllocError>
    ensures { IfOk result (λ text. text.items
        ≡ counts_with arrangements.now pictures.now orbits.now symmetries.now listed.now) }
{
    join(
        alloc,
        &[
            fixed::BEFORE_ARRANGEMENTS,
            arrangements,
            fixed::BEFORE_PICTURES,
            pictures,
            fixed::BEFORE_ORBITS,
            orbits,
            fixed::BEFORE_SYMMETRIES,
            symmetries,
            fixed::BEFORE_LISTED,
            listed,
        ],
    )
}
