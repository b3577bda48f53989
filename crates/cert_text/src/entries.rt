//! Reads entries of a line, up to a word or to its end.

ghost use Rattle.std.specs.Prelude.{◌≡◌, ◌+◌, ◌<◌, ◌++◌, codes, length, drop};
ghost use Rattle.match_limits.specs.Ranges.{AreRanges};
ghost use Rattle.text_words.specs.PlainWords.{number_in};
ghost use Rattle.text_words.specs.Words.{colour_in, pair_in};
ghost use Rattle.text_words.specs.Place.{Gives, Reads, entries, word_by};
ghost use Rattle.cert_text.specs.Entries.{goes_on, entries_before};

use match_limits::{MOST_COLOURS, Ranges};
use match_puzzle::Pair;
use std::alloc::Global;
use text_words::{ReadFault, Scan, TextFault};

// Whether the line has a further word other than this one.
fn has_other(scan: &Scan, stop: &[u8]) -> bool
    ensures { result ≡ goes_on stop.now scan.now.words }
{
    match scan.peek() {
        None => false,
        Some(word) => word != stop,
    }
}

// Reads the number of a cell or of a tile.
fn image(scan: &mut Scan, ranges: &Ranges) -> Result<u16, TextFault>
    ensures { Gives (λ n. n) result scan.new (word_by (number_in 0 ranges.now.last_cell) scan.old) }
{
    let image = scan.number(0, u32::from(ranges.last_cell))?;
    Ok(image as u16)
}

/// Reads the images of cells, up to the word `colours`.
pub fn cell_images(alloc: Global, scan: &mut Scan, ranges: &Ranges) -> Result<Vec<u16>, ReadFault>
    ensures { Reads (λ images. images.items) result scan.new
        (entries_before (codes "colours") ranges.now.most_cells (number_in 0 ranges.now.last_cell) scan.old) }
{
    let mut images = Vec::new(alloc);
    while has_other(scan, b"colours") {
        scan.further_entry(images.len(), ranges.most_cells)?;
        let image = image(scan, ranges)?;
        images.push(image)?;
    }
    Ok(images)
}

/// Reads the images of colours, up to the word `tiles`.
pub fn colour_images(alloc: Global, scan: &mut Scan) -> Result<Vec<u8>, ReadFault>
    ensures { Reads
        (λ images. images.items) result scan.new (entries_before (codes "tiles") MOST_COLOURS colour_in scan.old) }
{
    let mut images = Vec::new(alloc);
    while has_other(scan, b"tiles") {
        scan.further_entry(images.len(), u16::from(MOST_COLOURS))?;
        let image = scan.colour()?;
        images.push(image)?;
    }
    Ok(images)
}

/// Reads the images of tiles, up to the end of the line.
pub fn tile_images(alloc: Global, scan: &mut Scan, ranges: &Ranges) -> Result<Vec<u16>, ReadFault>
    ensures { Reads (λ images. images.items) result scan.new
        (entries ranges.now.most_cells (number_in 0 ranges.now.last_cell) scan.old) }
{
    let mut images = Vec::new(alloc);
    while scan.has_word() {
        scan.further_entry(images.len(), ranges.most_cells)?;
        let image = image(scan, ranges)?;
        images.push(image)?;
    }
    Ok(images)
}

/// Reads the pairs of a prefix, up to the word `tree`, and appends them.
pub fn prefix(scan: &mut Scan, ranges: &Ranges, pairs: &mut Vec<Pair>) -> Result<(), ReadFault>
    requires { AreRanges ranges.now }
    ensures reads { Reads (λ _. drop (length pairs.old.items) pairs.new.items) result scan.new
        (entries_before (codes "tree") ranges.now.most_cells (pair_in ranges.now) scan.old) }
    ensures behind { pairs.new.items ≡ pairs.old.items ++ drop (length pairs.old.items) pairs.new.items }
{
    let start = pairs.len();
    while has_other(scan, b"tree") {
        scan.further_entry(pairs.len() - start, ranges.most_cells)?;
        let pair = scan.pair(ranges)?;
        pairs.push(pair)?;
    }
    Ok(())
}
