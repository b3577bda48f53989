//! Sets of a puzzle's placements: that of tile t after turn r has the number 4 t + r.

ghost use Rattle.std.specs.Prelude.{◌≡◌, ◌≢◌, ◌<◌, ◌≤◌, ◌/◌, ◌%◌, ℕ, All, IfOk, length, map, slice_index};
ghost use Rattle.std.specs.Int.{bit_at};
ghost use Rattle.match_limits.specs.Listing.{IsListing};
ghost use Rattle.match_board.specs.Tile.{word};
ghost use Rattle.match_puzzle.specs.PlacementSets.{Shows, AreShowing, AreShowingSets};
ghost use Rattle.match_board.specs.Mates as listed;
ghost use Rattle.match_puzzle.specs.PlacementSets.{AreColoursAfter, AreShownColours, AreMatesShown};

use match_board::{Tile, mate_in};
use match_limits::{
    FixedSet, MOST_COLOURS, MOST_SIDES, MOST_TILES, MOST_TURNS, NumberSet, SIDES, TURNS,
};
use std::alloc::{AllocError, Global};

/// What a puzzle keeps of its placements.
#[derive(Drop)]
pub(crate) struct PlacementSets {
    /// Those that are legal.
    pub(crate) legal: NumberSet,
    /// For each colour, for `ANY_COLOUR` and for `NO_COLOUR`, and each of four sides, those that show it there: of
    /// colour c on side k at 4 c + k.
    pub(crate) showing: Vec<FixedSet>,
    /// What each placement shows, by number: the colour on each side, and `ANY_COLOUR` on a fourth that isn't there.
    pub(crate) shown: Vec<[u8; SIDES]>,
    /// What each placement asks of those that it meets, by number: the mate of the colour on each side.
    pub(crate) asked: Vec<[u8; SIDES]>,
}

/// Written where a colour could be asked for and none is: each colour will do.
pub const ANY_COLOUR: u8 = MOST_COLOURS;

/// Written where two colours are asked for at once: no colour will do.
pub const NO_COLOUR: u8 = ANY_COLOUR + 1;

// What each placement shows, by number.
fn shown_table(alloc: Global, tiles: &[Tile]) -> Result<Vec<[u8; SIDES]>, AllocError>
    requires { length tiles.now ≤ MOST_TILES }
    ensures { IfOk result (λ v. AreShownColours (map word tiles.now) v.items) }
{
    let mut table = Vec::with_capacity(alloc, TURNS as usize * tiles.len())?;
    for number in 0..TURNS as usize * tiles.len() {
        table.push(colours_after(
            &tiles[number / TURNS as usize],
            (number % TURNS as usize) as u8,
        ))?;
    }
    Ok(table)
}

// What the tile shows after this many turns.
fn colours_after(tile: &Tile, turn: u8) -> [u8; SIDES]
    ensures { AreColoursAfter (word tile.now) turn result }
{
    let mut colours = [ANY_COLOUR; SIDES];
    for side in 0..tile.sides() {
        colours[usize::from(side)] = tile.shows(turn, side);
    }
    colours
}

// For each colour, for any and for none, and each of four sides the placements that show it there.
fn showing_sets(alloc: Global, tiles: &[Tile]) -> Result<Vec<FixedSet>, AllocError>
    requires { length tiles.now ≤ MOST_TILES }
    ensures { IfOk result (λ v. AreShowingSets (map word tiles.now) v.items) }
{
    let places = MOST_SIDES * (NO_COLOUR + 1);
    let mut sets = Vec::with_capacity(alloc, usize::from(places))?;
    for place in 0..places {
        sets.push(showing_set(tiles, place / MOST_SIDES, place % MOST_SIDES).fixed())?;
    }
    Ok(sets)
}

// The placements that show on the side what is asked.
fn showing_set(tiles: &[Tile], asked: u8, side: u8) -> NumberSet
    requires { length tiles.now ≤ MOST_TILES }
    ensures { AreShowing (map word tiles.now) asked side result }
{
    let mut set = NumberSet::new();
    for (number, tile) in tiles.iter().enumerate() {
        set.put_group(number as u16, turns_as_asked(tile, asked, side));
    }
    set
}

// The turns after which the tile shows on the side what is asked, as bits.
fn turns_as_asked(tile: &Tile, asked: u8, side: u8) -> u8
    ensures few { result < 16 }
    ensures turns { (turn : ℕ) → turn < 4
        → (bit_at result turn ≡ 1 → asked ≢ ANY_COLOUR → Shows (word tile.now) asked side turn)
        × ((asked ≢ ANY_COLOUR → Shows (word tile.now) asked side turn) → bit_at result turn ≡ 1) }
{
    if asked == ANY_COLOUR {
        return 15;
    }
    showing_turns(tile, asked, side)
}

// The turns after which the tile shows the colour on the side, as bits.
fn showing_turns(tile: &Tile, colour: u8, side: u8) -> u8
    ensures few { result < 16 }
    ensures turns { (turn : ℕ) → turn < 4 → (bit_at result turn ≡ 1 → Shows (word tile.now) colour side turn)
        × (Shows (word tile.now) colour side turn → bit_at result turn ≡ 1) }
{
    if side >= tile.sides() {
        return 0;
    }
    let mut turns = 0;
    for turn in 0..MOST_TURNS {
        if tile.shows(turn, side) == colour {
            turns |= 1 << turn;
        }
    }
    turns
}

// The placements of each tile with turns below its number of legal ones, at most four.
fn legal_set(turn_counts: &[u8]) -> NumberSet
    requires tiles { length turn_counts.now ≤ MOST_TILES }
    requires turns { All (λ count. count ≤ 4) turn_counts.now }
    ensures { IsListing ◌<◌ (λ n. n % 4 < slice_index turn_counts.now (n / 4)) result }
{
    let mut set = NumberSet::new();
    for (tile, count) in turn_counts.iter().enumerate() {
        set.put_group(tile as u16, (1 << *count) - 1);
    }
    set
}

impl PlacementSets {
    /// The sets of these tiles, where `turn_counts` says for each tile how many of its turns are legal, and colours
    /// have these mates.
    pub(crate) fn new(
        alloc: Global,
        tiles: &[Tile],
        turn_counts: &[u8],
        mates: &[u8],
    ) -> Result<PlacementSets, AllocError>
        requires tiles { length tiles.now ≤ MOST_TILES }
        requires as_many { length turn_counts.now ≤ MOST_TILES }
        requires turns { All (λ count. count ≤ 4) turn_counts.now }
        ensures legal { IfOk result
            (λ sets. IsListing ◌<◌ (λ n. n % 4 < slice_index turn_counts.now (n / 4)) sets.legal) }
        ensures showing { IfOk result (λ sets. AreShowingSets (map word tiles.now) sets.showing.items) }
        ensures shown { IfOk result (λ sets. AreShownColours (map word tiles.now) sets.shown.items) }
        ensures asked { IfOk result (λ sets. AreMatesShown mates.now sets.shown.items sets.asked.items) }
    {
        let showing = showing_sets(alloc, tiles)?;
        let shown = shown_table(alloc, tiles)?;
        let asked = mates_table(alloc, mates, &shown)?;
        let legal = legal_set(turn_counts);
        Ok(PlacementSets {
            legal,
            showing,
            shown,
            asked,
        })
    }
}

// The mates of what a table of placements shows.
fn mates_table(alloc: Global, mates: &[u8], shown: &[[u8; 4]]) -> Result<Vec<[u8; 4]>, AllocError>
    ensures { IfOk result (λ v. AreMatesShown mates.now shown.now v.items) }
{
    let mut table = Vec::with_capacity(alloc, shown.len())?;
    for colours in shown {
        table.push(mates_of(mates, *colours))?;
    }
    Ok(table)
}

// The mate of each of these colours.
fn mates_of(mates: &[u8], colours: [u8; SIDES]) -> [u8; SIDES]
    ensures { (side : ℕ) → side < 4 → slice_index result side ≡ listed.mate_in mates.now (slice_index colours side) }
{
    [
        mate_in(mates, colours[0]),
        mate_in(mates, colours[1]),
        mate_in(mates, colours[2]),
        mate_in(mates, colours[3]),
    ]
}
