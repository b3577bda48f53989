//! Where tiles lie on a page of A4 paper.

ghost use Rattle.std.specs.Prelude.{◌≡◌, ◌≤◌, IfOk, length};
ghost use Rattle.show_pictures.specs.Cuts.{side_length};

use crate::canvases::Site;
use crate::cut_plans::{CutPlan, TileSize};
use crate::forms::Form;
use crate::measures::{extent, knob_reach};
use match_limits::MOST_COLOURS;
use match_puzzle::Puzzle;
use std::alloc::{AllocError, Global};

// What is left free at the edges of a page, in millimetres.
const MARGIN: u16 = 10;

// The room for tiles on a page, in millimetres. Below it is room for a line of text.
const ROOM_WIDE: u16 = 190;

const ROOM_HIGH: u16 = 268;

// Between two tiles, in millimetres.
const GAP: u16 = 4;

/// How long a tile's side is in a drawing: each side of a square, and the level side of a triangle.
pub(crate) fn side_length(puzzle: &Puzzle) -> u8
    ensures { result ≡ side_length puzzle.now.board }
{
    if puzzle.board().sides() == 4 { 80 } else { 104 }
}

/// How tiles lie on a page: in rows, from the upper left corner on, with room to cut between them. Lengths are in the
/// units of a drawing.
#[derive(Clone, Copy)]
pub(crate) struct CutLayout {
    form: Form,
    pub plan: CutPlan,
    /// How far the box round the first tile is from the left edge of the page, and from the upper one.
    pub corner: u32,
    across: Spacing,
    down: Spacing,
}

impl CutLayout {
    /// The layout of this puzzle's tiles.
    pub fn new(puzzle: &Puzzle, plan: CutPlan) -> CutLayout
        ensures { result.plan ≡ plan }
    {
        let form = if puzzle.board().sides() == 4 {
            Form::Square
        } else {
            Form::Up
        };
        let reach = if has_knobs(puzzle) {
            knob_reach(form)
        } else {
            0
        };
        let scale = Scale {
            side: side_length(puzzle),
            size: plan.size,
        };
        let box_extent = extent(form);
        CutLayout {
            form,
            plan,
            corner: u32::from(scale.length(MARGIN)) + u32::from(reach),
            across: Spacing::new(&scale, ROOM_WIDE, box_extent.x, reach),
            down: Spacing::new(&scale, ROOM_HIGH, box_extent.y, reach),
        }
    }

    /// How many tiles lie on a page that is full: at least one.
    pub fn tiles_on_a_page(&self) -> u16
        ensures { 1 ≤ result }
    {
        self.across.most.saturating_mul(self.down.most).max(1)
    }

    /// The sites of the first `count` tiles of a page.
    pub fn sites(&self, alloc: Global, count: u16) -> Result<Vec<Site>, AllocError>
        ensures { IfOk result (λ sites. length sites.items ≡ count) }
    {
        let mut sites = Vec::new(alloc);
        for index in 0..count {
            sites.push(self.site(index))?;
        }
        Ok(sites)
    }

    // The site of the tile with this index on its page.
    fn site(&self, index: u16) -> Site {
        let columns = self.across.most.max(1);
        Site {
            form: self.form,
            x: u32::from(index % columns) * u32::from(self.across.step),
            y: u32::from(index / columns) * u32::from(self.down.step),
        }
    }
}

// Whether a colour has another one as its mate, and so a knob or a hollow.
fn has_knobs(puzzle: &Puzzle) -> bool {
    for colour in 0..MOST_COLOURS {
        if puzzle.mate(colour) != colour {
            return true;
        }
    }
    false
}

// How large a drawing is printed: how long a tile's side is there, and how long on paper, in millimetres.
#[derive(Clone, Copy)]
struct Scale {
    side: u8,
    size: TileSize,
}

impl Scale {
    // How long in the drawing so many millimetres of paper are.
    fn length(&self, millimetres: u16) -> u16 {
        let length = u32::from(millimetres) * u32::from(self.side) / self.size.get();
        u16::try_from(length).unwrap_or(u16::MAX)
    }
}

// How tiles follow each other in a row, or in a column.
#[derive(Clone, Copy)]
struct Spacing {
    // from where a tile begins to where the next one does
    step: u16,
    // how many there are at most
    most: u16,
}

impl Spacing {
    // For as many tiles as there is room for, in millimetres. A tile is `extent` long, and its knobs reach so far.
    fn new(scale: &Scale, room: u16, extent: u8, reach: u8) -> Spacing {
        let gap = scale.length(GAP);
        let step = gap.saturating_add(u16::from(extent) + 2 * u16::from(reach));
        let most = scale.length(room).saturating_add(gap) / step.max(1);
        Spacing {
            step,
            most: most.max(1),
        }
    }
}
