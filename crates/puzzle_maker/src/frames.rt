//! The colour of a frame, and colours for inner sides.

ghost use Rattle.std.specs.Prelude.{◌≡◌, ◌<◌, ◌≤◌, ◌+◌, ◌==◌, ◌↔◌, ℕ, Some, MatchBool, IfOk, OnOk};
ghost use Rattle.std.specs.Prelude.{count_by, length, vec_len};
ghost use Rattle.match_board.specs.Tile.{word};
ghost use Rattle.match_puzzle.specs.Puzzle.{word_of};
ghost use Rattle.puzzle_maker.specs.Like.{IsFrameOf, IsInside, sides_showing};

use match_board::{Border, Tile, mate_in};
use match_puzzle::Puzzle;
use std::alloc::{AllocError, Global};

/// The colour of a frame, if the model has one: the border asks each outer side for it, and tiles show it on no more
/// sides than there are outer sides.
pub(crate) fn frame_of(model: &Puzzle) -> Option<u8>
    ensures { (colour : ℕ) → (result ≡ Some colour) ↔ IsFrameOf model.now colour }
{
    match model.border() {
        Border::Free | Border::Each(_) => None,
        Border::One(colour) => {
            let outer = model.board().border_len();
            if sides_with(model, *colour) <= u32::from(outer) {
                Some(*colour)
            } else {
                None
            }
        }
    }
}

// On how many sides of tiles the colour is.
fn sides_with(model: &Puzzle, colour: u8) -> u32
    ensures { result ≡ sides_showing colour model.now }
{
    let mut sum: u32 = 0;
    for tile in 0..model.tile_count() {
        sum += u32::from(sides_on(model, tile, colour));
    }
    sum
}

// On how many sides of the tile with this number the colour is.
fn sides_on(model: &Puzzle, tile: u16, colour: u8) -> u8
    requires { tile < length model.now.words }
    ensures count { result ≡ count_by (λ shown. shown == colour) (word_of model.now tile) }
    ensures few { result ≤ 4 }
{
    sides_of(&model.tiles()[usize::from(tile)], colour)
}

// On how many sides of the tile the colour is.
fn sides_of(tile: &Tile, colour: u8) -> u8
    ensures count { result ≡ count_by (λ shown. shown == colour) (word tile.now) }
    ensures few { result ≤ 4 }
{
    let mut count = 0;
    for side in 0..tile.sides() {
        if tile.shows(0, side) == colour {
            count += 1;
        }
    }
    count
}

/// Whether inner sides may show one of so many colours.
pub(crate) fn has_inner(mates: &[u8], frame: Option<u8>, colours: u8) -> bool
    ensures { MatchBool result
        ((colour : ℕ) × (colour < colours) × IsInside mates.now frame colour)
        ((colour : ℕ) → colour < colours → IsInside mates.now frame colour → ⊥) }
{
    for colour in 0..colours {
        if is_inside(mates, frame, colour) {
            return true;
        }
    }
    false
}

/// Those of so many colours that inner sides may show.
pub(crate) fn inner_colours(
    alloc: Global,
    mates: &[u8],
    frame: Option<u8>,
    colours: u8,
) -> Result<Vec<u8>, AllocError>
    requires { ((colour : ℕ) → colour < colours → IsInside mates.now frame colour → ⊥) → ⊥ }
    ensures some { IfOk result (λ v. 1 ≤ vec_len v) }
    ensures few { IfOk result (λ v. vec_len v ≤ colours) }
{
    let mut inner = Vec::new(alloc);
    for colour in 0..colours {
        add_inner(mates, frame, colour, &mut inner)?;
    }
    Ok(inner)
}

// Adds the colour, if inner sides may show it.
fn add_inner(
    mates: &[u8],
    frame: Option<u8>,
    colour: u8,
    inner: &mut Vec<u8>,
) -> Result<(), AllocError>
    ensures some { OnOk result (IsInside mates.now frame colour → 1 ≤ vec_len inner.new) }
    ensures more { OnOk result (vec_len inner.old ≤ vec_len inner.new) }
    ensures few { OnOk result (vec_len inner.new ≤ vec_len inner.old + 1) }
{
    if is_inside(mates, frame, colour) {
        inner.push(colour)?;
    }
    Ok(())
}

// Whether neither the colour nor its mate is that of the frame.
fn is_inside(mates: &[u8], frame: Option<u8>, colour: u8) -> bool
    ensures { MatchBool result (IsInside mates.now frame colour) (IsInside mates.now frame colour → ⊥) }
{
    match frame {
        None => true,
        Some(outside) => colour != outside && mate_in(mates, colour) != outside,
    }
}
