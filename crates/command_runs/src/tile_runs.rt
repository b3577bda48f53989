//! Lists of tiles.

ghost use Rattle.std.specs.Prelude.{◌≡◌, ◌++◌, IfOk, OnOk, map};
ghost use Rattle.match_board.specs.Tile.{word as colours_of};
ghost use Rattle.match_text.specs.PuzzleSpelling.{tile_words};
ghost use Rattle.text_words.specs.Spelling.{line_text, text_of};
ghost use Rattle.byte_streams.specs.Moves.{writing_of};
ghost use Rattle.byte_streams.specs.Origins.{no_source};
ghost use Rattle.byte_streams.specs.Targets.{one_sink};
ghost use Rattle.command_runs.specs.Runs.{MadeOf, Runs};
ghost use Rattle.command_runs.specs.Tiles.{TileLinesGive, TilesFail, TilesGive};

use crate::faults::RunFault;
use crate::running::run_by;
use byte_streams::{MadeText, NoSource, OneSink, Sink};
use match_board::{Tile, all_tiles};
use match_limits::{Colours, Sides};
use match_text::write_tiles;
use std::alloc::{AllocError, Global};
use std::slice::from_ref;

/// Writes one tile for each class of tiles that turn into each other, with this many sides and colours: its least word,
/// one on each line, rising, spelled as in a puzzle's text.
///
/// `Tiles` comes where there are over 100. After a fault other than `Write` nothing was written.
pub fn run_tiles<W: Sink>(
    alloc: Global,
    sides: Sides,
    colours: Colours,
    writer: &mut W,
) -> Result<(), RunFault>
    ensures { Runs no_source (TilesGive sides colours) (TilesFail sides colours)
        (one_sink (writing_of W.Sink writer.old writer.new)) result }
{
    let make = |_nothing: &()| -> Result<(MadeText, ()), RunFault>
        ensures { MadeOf (TilesGive sides colours) (TilesFail sides colours) _nothing.now result }
    { tiles_text(alloc, sides, colours) };
    run_by(alloc, &mut NoSource, make, &mut OneSink { sink: writer })
}

/// Writes one tile for each class of tiles that turn into each other, with this many sides and colours, as the line
/// that a puzzle's text has for it.
///
/// `Tiles` comes where there are over 100. After a fault other than `Write` nothing was written.
pub fn run_tile_lines<W: Sink>(
    alloc: Global,
    sides: Sides,
    colours: Colours,
    writer: &mut W,
) -> Result<(), RunFault>
    ensures { Runs no_source (TileLinesGive sides colours) (TilesFail sides colours)
        (one_sink (writing_of W.Sink writer.old writer.new)) result }
{
    let make = |_nothing: &()| -> Result<(MadeText, ()), RunFault>
        ensures { MadeOf (TileLinesGive sides colours) (TilesFail sides colours) _nothing.now result }
    { lines_text(alloc, sides, colours) };
    run_by(alloc, &mut NoSource, make, &mut OneSink { sink: writer })
}

// The lines of the tiles.
fn lines_text(alloc: Global, sides: Sides, colours: Colours) -> Result<(MadeText, ()), RunFault>
    ensures { MadeOf (TileLinesGive sides colours) (TilesFail sides colours) tt result }
{
    let tiles = all_tiles(alloc, sides.get() as u8, colours.get() as u8)?;
    let text = write_tile_lines(alloc, &tiles)?;
    Ok((MadeText::new(text), ()))
}

fn write_tile_lines(alloc: Global, tiles: &[Tile]) -> Result<Vec<u8>, AllocError>
    ensures { IfOk result (λ text. text.items ≡ text_of (map tile_words (map colours_of tiles.now))) }
{
    let mut text = Vec::new(alloc);
    for tile in tiles {
        put_tile_line(alloc, &mut text, tile)?;
    }
    Ok(text)
}

#[tactic(auto, unfolding(match_text::specs::PuzzleSpelling::tiles_spelling, text_words::specs::Spelling::text_of, text_words::specs::Spelling::line_text))]
fn put_tile_line(alloc: Global, text: &mut Vec<u8>, tile: &Tile) -> Result<(), AllocError>
    ensures { OnOk result (text.new.items ≡ text.old.items ++ line_text (tile_words (colours_of tile.now))) }
{
    let word = write_tiles(alloc, from_ref(tile))?;
    text.extend_from_slice(b"tile ")?;
    text.extend_from_slice(&word)?;
    Ok(())
}

// The words of the tiles.
fn tiles_text(alloc: Global, sides: Sides, colours: Colours) -> Result<(MadeText, ()), RunFault>
    ensures { MadeOf (TilesGive sides colours) (TilesFail sides colours) tt result }
{
    let tiles = all_tiles(alloc, sides.get() as u8, colours.get() as u8)?;
    let text = write_tiles(alloc, &tiles)?;
    Ok((MadeText::new(text), ()))
}
