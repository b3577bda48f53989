//! Writes tiles by themselves.

ghost use Rattle.std.specs.Prelude.{◌≡◌, ◌++◌, [], map, IfOk, OnOk};
ghost use Rattle.match_board.specs.Tile.{word as colours_of};
ghost use Rattle.text_words.specs.Spelling.{line_text, text_of};
ghost use Rattle.match_text.specs.PuzzleSpelling.{lone_tile_words, tiles_spelling};

use crate::puzzle_spellings::put_colours;
use match_board::Tile;
use std::alloc::{AllocError, Global};

#[tactic(auto, unfolding(text_words::specs::Spelling::line_text))]
fn put_lone_tile(text: &mut Vec<u8>, tile: &Tile) -> Result<(), AllocError>
    ensures { OnOk result (text.new.items ≡ text.old.items ++ line_text (lone_tile_words (colours_of tile.now))) }
{
    put_colours(text, tile)?;
    text.push(b'\n')?;
    Ok(())
}

fn put_lone_tiles(text: &mut Vec<u8>, tiles: &[Tile]) -> Result<(), AllocError>
    ensures { OnOk result
        (text.new.items ≡ text.old.items ++ text_of (map lone_tile_words (map colours_of tiles.now))) }
{
    for tile in tiles {
        put_lone_tile(text, tile)?;
    }
    Ok(())
}

/// The words of tiles, one a line, as a puzzle's text has them.
#[tactic(auto, unfolding(crate::specs::PuzzleSpelling::tiles_spelling))]
pub fn write_tiles(alloc: Global, tiles: &[Tile]) -> Result<Vec<u8>, AllocError>
    ensures { IfOk result (λ text. text.items ≡ tiles_spelling (map colours_of tiles.now)) }
{
    let mut text = Vec::new(alloc);
    put_lone_tiles(&mut text, tiles)?;
    Ok(text)
}
