//! How much arrangements of a puzzle look like the planted one, cell by cell.

ghost use Rattle.std.specs.Prelude.{◌≡◌, IsErrOf};
ghost use Rattle.xcc_form.specs.Options.{HasTooManyEntries, cover_of};
ghost use Rattle.xcc_form.specs.Chosen.{IsUncovered};

use crate::clues::shown;
use crate::dice::Dice;
use match_puzzle::{Placement, Puzzle};
use std::alloc::{AllocError, Global};
use xcc_dance::OpenSets;
use xcc_form::{CompileFault, OpenOptions, Xcc, compile, option_behind};

// How many arrangements are looked at.
const MOST_FOUND: u32 = 256;

// How many nodes of a search are visited for them.
const MOST_NODES: u32 = 100_000;

// With what the random numbers of the search begin.
const SEED: u64 = 1;

/// The cell without a clue at which the fewest other arrangements show what the planted one shows there; the first of
/// them. A clue at this cell leaves the fewest other arrangements.
///
/// It looks at up to 256 arrangements, as far as 100,000 nodes of a search find them.
pub(crate) fn cell_to_ask(
    alloc: Global,
    puzzle: &Puzzle,
    planted: &[Placement],
    has_clue: &[bool],
) -> Result<u16, CompileFault>
    ensures { IsErrOf result CompileFault.TooMany → HasTooManyEntries puzzle.now }
{
    let xcc = compile(alloc, puzzle)?;
    let cells = puzzle.board().cells();
    let mut likeness = Likeness {
        puzzle,
        planted,
        dice: Dice::new(SEED),
        nodes: 0,
        found: 0,
        alike: vec![in alloc; 0; usize::from(cells)]?,
    };
    let mut engine = OpenSets::new(alloc, &xcc)?;
    walk(&mut engine, &mut likeness, cells)?;
    Ok(least_alike(&likeness.alike, has_clue, cells))
}

// How many of some arrangements show at each cell what the planted one shows there.
#[derive(Drop)]
struct Likeness<'a> {
    puzzle: &'a Puzzle,
    planted: &'a [Placement],
    dice: Dice,
    // how many nodes were visited, and how many arrangements were found
    nodes: u32,
    found: u32,
    // by cell
    alike: Vec<u32>,
}

impl Likeness<'_> {
    // Whether no more arrangements are to be looked at.
    fn is_done(&self) -> bool {
        self.found >= MOST_FOUND || self.nodes >= MOST_NODES
    }

    // Adds the arrangement of these options, which cover all items.
    fn add(&mut self, xcc: &Xcc<'_>, options: &[u32]) {
        self.found = self.found.saturating_add(1);
        for option in options {
            if *option < xcc.options() {
                let pair = xcc.pair(*option);
                self.add_at(pair.cell, pair.placement);
            }
        }
    }

    // Adds what an arrangement has at the cell.
    fn add_at(&mut self, cell: u16, placement: Placement) {
        let place = usize::from(cell);
        let Some(planted) = self.planted.get(place) else {
            return;
        };
        if shown(self.puzzle, placement) == shown(self.puzzle, *planted) {
            if let Some(count) = self.alike.get_mut(place) {
                *count = count.saturating_add(1);
            }
        }
    }
}

// Looks at arrangements that have all chosen options, and at most `levels` more. Whatever it chooses it takes back.
#[cycle(walk)]
fn walk<E: OpenOptions>(
    engine: &mut E,
    likeness: &mut Likeness<'_>,
    levels: u16,
) -> Result<(), AllocError>
    ensures { engine.new ≡ engine.old }
{
    likeness.nodes = likeness.nodes.saturating_add(1);
    let Some(item) = engine.branch_item() else {
        likeness.add(engine.xcc(), engine.chosen());
        return Ok(());
    };
    if levels == 0 {
        return Ok(());
    }
    walk_item(engine, likeness, levels - 1, item)
}

// Looks at those that have one more option of the item. It begins at a random one.
#[cycle(walk)]
fn walk_item<E: OpenOptions>(
    engine: &mut E,
    likeness: &mut Likeness<'_>,
    levels: u16,
    item: u32,
) -> Result<(), AllocError>
    requires { let s = E.selection engine.old in IsUncovered (cover_of s.compiled) s.chosen item }
    ensures { engine.new ≡ engine.old }
{
    let size = engine.size(item);
    let start = u32::from(likeness.dice.below(256));
    for number in 0..size {
        let place = number.wrapping_add(start) % size;
        let Some(option) = option_behind(engine, item, place) else {
            continue;
        };
        engine.choose(option)?;
        let walked = walk(engine, likeness, levels);
        engine.undo();
        walked?;
        if likeness.is_done() {
            return Ok(());
        }
    }
    Ok(())
}

// The first cell without a clue at which the fewest are alike. There is one, but no proof says so; then it is the first.
fn least_alike(alike: &[u32], has_clue: &[bool], cells: u16) -> u16 {
    let mut least = None;
    for cell in 0..cells {
        least = lesser(least, alike, has_clue, cell);
    }
    match least {
        None => 0,
        Some(cell) => cell,
    }
}

// The cell, if it has no clue and fewer are alike there than at the least one so far.
fn lesser(least: Option<u16>, alike: &[u32], has_clue: &[bool], cell: u16) -> Option<u16> {
    if has_clue.get(usize::from(cell)) != Some(&false) {
        return least;
    }
    match least {
        Some(before) if alike.get(usize::from(before)) <= alike.get(usize::from(cell)) => least,
        _ => Some(cell),
    }
}
