//! Colours that are mates in pairs.

ghost use Rattle.std.specs.Prelude.{◌≡◌, ◌<◌, ◌≤◌, ◌+◌, ◌*◌, ℕ, IfOk, vec_len};
ghost use Rattle.match_limits.specs.declared.TheConstants.{MOST_COLOURS};
ghost use Rattle.puzzle_drafts.specs.Drafts.{AreMatesAsked, ArePairs};
ghost use Rattle.puzzle_drafts.specs.declared.drafts.Draft.{Draft as AskedDraft};

use puzzle_drafts::PlainRules;
use std::alloc::{AllocError, Global};

/// The list of mates of so many colours. It is empty where none are asked for.
pub(crate) fn mates_of(
    alloc: Global,
    rules: &PlainRules,
    colours: u8,
) -> Result<Vec<u8>, AllocError>
    requires { colours ≤ MOST_COLOURS }
    ensures asked { IfOk result (λ v. (d : AskedDraft) → d.colours ≡ colours → AreMatesAsked rules.now d v.items) }
    ensures few { IfOk result (λ v. vec_len v ≤ MOST_COLOURS) }
{
    if rules.mates {
        pairs(alloc, rules.border.unpaired_colours(), colours)
    } else {
        Ok(Vec::new(alloc))
    }
}

// The mates of so many colours, where those from `alone` on pair up.
fn pairs(alloc: Global, alone: u8, colours: u8) -> Result<Vec<u8>, AllocError>
    requires { colours ≤ MOST_COLOURS }
    ensures pairs { IfOk result (λ v. ArePairs alone colours v.items) }
    ensures few { IfOk result (λ v. vec_len v ≤ MOST_COLOURS) }
{
    let mut mates = Vec::new(alloc);
    for colour in 0..colours {
        mates.push(mate_beside(alone, colour))?;
    }
    Ok(mates)
}

// The mate of a colour, where those from `alone` on pair up.
fn mate_beside(alone: u8, colour: u8) -> u8
    requires { colour < MOST_COLOURS }
    ensures own { colour < alone → result ≡ colour }
    ensures first { (pair : ℕ) → colour ≡ alone + 2 * pair → result ≡ colour + 1 }
    ensures second { (pair : ℕ) → colour ≡ alone + 2 * pair + 1 → result + 1 ≡ colour }
{
    if colour < alone {
        colour
    } else if (colour - alone) % 2 == 0 {
        colour + 1
    } else {
        colour - 1
    }
}
