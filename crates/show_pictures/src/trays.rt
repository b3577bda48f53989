//! The tray: tiles below a board.

ghost use Rattle.std.specs.Prelude.{◌≡◌, ◌↔◌, ◌≤◌, ◌^◌, ℕ, IfOk, IsTrue, length};
ghost use Rattle.match_limits.specs.declared.TheConstants.{MOST_TILES};
ghost use Rattle.show_pictures.specs.Pictures.{AreSpare, AreUnturned};
ghost use Rattle.match_puzzle.specs.Arrangement.{Stands};
ghost use Rattle.match_puzzle.specs.declared.placements.Placement.{Placement as PuzzlePlacement};

use crate::canvases::Site;
use crate::documents::{EvenRows, even_rows};
use crate::forms::Form;
use crate::measures::extent;
use match_board::Board;
use match_puzzle::{Placement, Puzzle};
use std::alloc::{AllocError, Global};

// Between tiles.
const GAP: u32 = 28;

// The least width that a tray takes before it begins a new row: that of eight squares.
const LEAST_WIDTH: u32 = 836;

/// How tiles lie in a tray.
#[derive(Clone, Copy)]
pub struct Tray {
    pub form: Form,
    pub rows: EvenRows,
}

impl Tray {
    /// The tray of `count` tiles, which have `sides` sides each, below a board that is `board_width` wide.
    pub fn new(count: u16, board_width: u32, sides: u8) -> Tray
        requires { board_width ≤ 2 ^ 24 }
    {
        let form = if sides == 4 { Form::Square } else { Form::Up };
        let step = u32::from(extent(form).x) + GAP;
        let most = (board_width.max(LEAST_WIDTH) + GAP) / step;
        Tray {
            form,
            rows: even_rows(count, u16::try_from(most).unwrap_or(u16::MAX)),
        }
    }

    /// How wide it is.
    pub fn width(self) -> u32
        ensures { result ≤ 2 ^ 25 }
    {
        let step = u32::from(extent(self.form).x) + GAP;
        (u32::from(self.rows.columns) * step).saturating_sub(GAP)
    }

    /// How high it is.
    pub fn height(self) -> u32
        ensures { result ≤ 2 ^ 25 }
    {
        let step = u32::from(extent(self.form).y) + GAP;
        (u32::from(self.rows.rows) * step).saturating_sub(GAP)
    }

    /// The site of a tile.
    pub fn site(self, tile: u16) -> Site {
        let box_extent = extent(self.form);
        let columns = self.rows.columns.max(1);
        Site {
            form: self.form,
            x: u32::from(tile % columns) * (u32::from(box_extent.x) + GAP),
            y: u32::from(tile / columns) * (u32::from(box_extent.y) + GAP),
        }
    }
}

/// The sites of the tiles, by number.
pub fn tray_sites(alloc: Global, tray: Tray, count: u16) -> Result<Vec<Site>, AllocError>
    ensures { IfOk result (λ sites. length sites.items ≡ count) }
{
    let mut sites = Vec::new(alloc);
    for tile in 0..count {
        sites.push(tray.site(tile))?;
    }
    Ok(sites)
}

/// Each tile, unturned.
pub fn unturned(alloc: Global, count: u16) -> Result<Vec<Placement>, AllocError>
    ensures { IfOk result (λ placements. AreUnturned count placements.items) }
{
    let mut placements = Vec::new(alloc);
    for tile in 0..count {
        placements.push(Placement { tile, turn: 0 })?;
    }
    Ok(placements)
}

/// The tiles that an arrangement leaves over, by number, unturned.
pub fn spare_tiles(
    alloc: Global,
    puzzle: &Puzzle,
    arrangement: &[Placement],
) -> Result<Vec<Placement>, AllocError>
    ensures spare { IfOk result (λ v. AreSpare puzzle.now arrangement.now v.items) }
    ensures few { IfOk result (λ v. length v.items ≤ MOST_TILES) }
{
    let mut spare = Vec::new(alloc);
    for tile in 0..puzzle.tile_count() {
        if !is_placed(arrangement, tile) {
            spare.push(Placement { tile, turn: 0 })?;
        }
    }
    Ok(spare)
}

// Whether the tile is one of the arrangement's.
fn is_placed(arrangement: &[Placement], tile: u16) -> bool
    ensures { IsTrue result ↔ ((cell : ℕ) × (x : PuzzlePlacement) × Stands arrangement.now cell x × (x.tile ≡ tile)) }
{
    for placement in arrangement {
        if placement.tile == tile {
            return true;
        }
    }
    false
}
