//! Where cells are drawn.

ghost use Rattle.std.specs.Prelude.{◌≡◌, ◌<◌, ◌≤◌, ◌+◌, ◌^◌, IfOk, OnOk, if◌then◌else◌};
ghost use Rattle.match_board.specs.Board.{IsBoard, cells_above, row_count};
ghost use Rattle.show_text.specs.Triangles.{rows_in};
ghost use Rattle.show_pictures.specs.Sites.{AreSites, AreSitesTo, IsSiteAt};

use crate::canvases::Site;
use crate::forms::Form;
use match_board::Figure;
use match_puzzle::Puzzle;
use std::alloc::{AllocError, Global};

/// The sites of the puzzle's cells, by number.
pub fn sites_of(alloc: Global, puzzle: &Puzzle) -> Result<Vec<Site>, AllocError>
    ensures { IfOk result (λ sites. AreSites puzzle.now.board sites.items) }
{
    let figure = puzzle.board().figure();
    let mut sites = Vec::new(alloc);
    for row in 0..figure.rows() {
        add_row(&mut sites, figure, row)?;
    }
    Ok(sites)
}

// Adds the sites of a row's cells, from the left.
fn add_row(sites: &mut Vec<Site>, figure: &Figure, row: u16) -> Result<(), AllocError>
    requires board { IsBoard figure.now }
    requires row { row < row_count figure.now }
    requires above { AreSitesTo figure.now (cells_above figure.now row) sites.old.items }
    ensures { OnOk result (AreSitesTo figure.now (cells_above figure.now (row + 1)) sites.new.items) }
{
    for place in 0..figure.row_length(row) {
        if figure.is_filled(row, place) {
            sites.push(site_of(figure, row, place))?;
        }
    }
    Ok(())
}

// The site of the cell at a place.
fn site_of(figure: &Figure, row: u16, place: u16) -> Site
    ensures { IsSiteAt figure.now row place result }
{
    match *figure {
        Figure::Rectangle { .. } | Figure::Shape { .. } => Site {
            form: Form::Square,
            x: 80 * u32::from(place),
            y: 80 * u32::from(row),
        },
        Figure::Triangle { size } => Site {
            form: pointing(place % 2 == 0),
            x: 52 * (u32::from(rows_in(size, row)) + u32::from(place)),
            y: 90 * u32::from(row),
        },
        Figure::Hexagon { size } => Site {
            form: pointing((place % 2 == 0) == (row < size)),
            x: 52 * (u32::from(rows_in(size, row)) + u32::from(place)),
            y: 90 * u32::from(row),
        },
    }
}

// A triangle that points up, or down.
fn pointing(up: bool) -> Form
    ensures { result ≡ (if up then Form.Up else Form.Down) }
{
    if up { Form::Up } else { Form::Down }
}

// How many rows lie between the row and the longest one in its half.
fn rows_in(size: u16, row: u16) -> u16
    ensures { result ≡ rows_in size row }
{
    if row < size {
        size - 1 - row
    } else {
        row - size
    }
}

/// How wide and how high something is.
#[derive(Clone, Copy)]
pub struct Extent {
    pub wide: u32,
    pub high: u32,
}

/// How wide and how high the board is.
pub fn board_extent(figure: &Figure) -> Extent
    ensures { (result.wide ≤ 2 ^ 24) × (result.high ≤ 2 ^ 24) }
{
    match *figure {
        Figure::Rectangle { width, height } | Figure::Shape { width, height, .. } => Extent {
            wide: 80 * u32::from(width),
            high: 80 * u32::from(height),
        },
        Figure::Triangle { size } => Extent {
            wide: 104 * u32::from(size),
            high: 90 * u32::from(size),
        },
        Figure::Hexagon { size } => Extent {
            wide: 208 * u32::from(size),
            high: 180 * u32::from(size),
        },
    }
}
