//! The item to branch on near the root, by a guess of the work that it leaves.

ghost use Rattle.std.specs.Prelude.{◌≡◌, IfSome};
ghost use Rattle.puzzle_symmetry.specs.Motion.{AreOfPuzzle};
ghost use Rattle.xcc_form.specs.Options.{cover_of};
ghost use Rattle.xcc_form.specs.Clashes.{IsOpen};

use crate::branches::Branch;
use crate::dives::Dives;
use crate::ruling_out::RulesOut;
use crate::splits::Splitter;
use std::alloc::{AllocError, Global};
use xcc_form::{OpenOptions, open_option, uncovered_item};

// How many dives decide whether a branch is worth a guess.
const DIVES_BEFORE: u64 = 16;

// The least number of nodes for which a branch is worth a guess.
const WORTH_A_GUESS: u64 = 1_000_000;

// The most nodes that one dive below each child of the items may visit.
const MOST_NODES: u64 = 400_000;

// Halving this often leaves one of all items.
const MOST_ROUNDS: u8 = 10;

// The dives of a round may take up to one in this many nodes of the search.
const SPARED: u64 = 64;

// The most nodes that the dives of a round are to visit.
const MOST_STEPS: u64 = 200_000;

// The number of dives grows at most by this factor from one round to the next.
const MOST_TIMES: u64 = 16;

// An item, and its rank: less is better.
#[derive(Clone, Copy)]
struct Ranked {
    by: u64,
    item: u32,
}

// The item to branch on for which dives guess the fewest nodes; `None` where all items are covered, and, below the
// root, where a guess would take longer than it saves.
pub(crate) fn guessed_item<E: RulesOut>(
    splitter: &Splitter<'_>,
    engine: &mut E,
    cells: u16,
) -> Result<Option<u32>, AllocError>
    requires { AreOfPuzzle (E.selection engine.old).compiled.puzzle splitter.now.symmetries.now }
    ensures { engine.new ≡ engine.old }
{
    let mut dives = Dives::new(cells);
    if !is_worth_a_guess(engine, &mut dives)? {
        return Ok(None);
    }
    let items = first_items(splitter, engine, MOST_NODES / u64::from(cells.max(1)))?;
    best_of(splitter, engine, &mut dives, items)
}

// Whether a guess saves more than it takes: at the root, and where dives expect many nodes.
fn is_worth_a_guess<E: RulesOut>(engine: &mut E, dives: &mut Dives) -> Result<bool, AllocError>
    ensures { engine.new ≡ engine.old }
{
    if engine.chosen().is_empty() {
        return Ok(true);
    }
    let nodes = dives.mean(engine, DIVES_BEFORE)?;
    Ok(nodes >= WORTH_A_GUESS)
}

// The best of these items, by rounds of dives, each of which leaves the better half.
fn best_of<E: RulesOut>(
    splitter: &Splitter<'_>,
    engine: &mut E,
    dives: &mut Dives,
    first: Vec<Ranked>,
) -> Result<Option<u32>, AllocError>
    requires { AreOfPuzzle (E.selection engine.old).compiled.puzzle splitter.now.symmetries.now }
    ensures { engine.new ≡ engine.old }
{
    let mut items = first;
    let mut count = 1;
    for _ in 0..MOST_ROUNDS {
        let before = dives.steps();
        items = better_half(splitter, engine, dives, &items, count)?;
        count = next_count(
            count,
            least_of(&items),
            dives.steps().saturating_sub(before),
        );
    }
    Ok(items.first().map(|ranked| ranked.item))
}

// The rank of the best of these items.
fn least_of(items: &[Ranked]) -> u64 {
    match items.first() {
        None => 0,
        Some(ranked) => ranked.by,
    }
}

// How many dives to make below each child of the better half. `count` were made, the best item is guessed to leave
// `nodes` nodes, and the dives visited `steps` nodes.
fn next_count(count: u64, nodes: u64, steps: u64) -> u64 {
    let most = (nodes / SPARED).min(MOST_STEPS);
    let times = (most / steps.max(1)).max(1).min(MOST_TIMES);
    count.saturating_mul(2).saturating_mul(times)
}

// The items with the fewest children: as many items as have at most `most` children together, at least one.
fn first_items<E: OpenOptions>(
    splitter: &Splitter<'_>,
    engine: &E,
    most: u64,
) -> Result<Vec<Ranked>, AllocError>
    requires { AreOfPuzzle (E.selection engine.now).compiled.puzzle splitter.now.symmetries.now }
{
    let mut ranked = Vec::new(splitter.alloc);
    let mut next = engine.next_item(None);
    while let Some(item) = next {
        let children = splitter.merged_children(engine, item, 1)?;
        let by = children.len() as u64;
        ranked.push(Ranked { by, item })?;
        next = engine.next_item(Some(item));
    }
    sort(&mut ranked);
    ranked.truncate(how_many(&ranked, most));
    Ok(ranked)
}

// How many of these items, from the first on, have ranks of at most `most` together; at least the first.
fn how_many(items: &[Ranked], most: u64) -> usize {
    let mut together: u64 = 0;
    let mut many: usize = 0;
    for ranked in items {
        together = together.saturating_add(ranked.by);
        if together > most && many > 0 {
            return many;
        }
        many = many.saturating_add(1);
    }
    many
}

// The better half of these items, by `count` dives below each child.
fn better_half<E: RulesOut>(
    splitter: &Splitter<'_>,
    engine: &mut E,
    dives: &mut Dives,
    items: &[Ranked],
    count: u64,
) -> Result<Vec<Ranked>, AllocError>
    requires { AreOfPuzzle (E.selection engine.old).compiled.puzzle splitter.now.symmetries.now }
    ensures { engine.new ≡ engine.old }
{
    let mut ranked = Vec::new(splitter.alloc);
    for old in items {
        let item = old.item;
        let by = if items.len() == 1 {
            0
        } else {
            guess(splitter, engine, dives, item, count)?
        };
        ranked.push(Ranked { by, item })?;
    }
    sort(&mut ranked);
    ranked.truncate(items.len().div_ceil(2));
    Ok(ranked)
}

// Puts the best of these items first; of two equally good ones, the lesser.
fn sort(items: &mut [Ranked]) {
    items.sort_unstable_by_key(|ranked| (ranked.by, ranked.item));
}

// A guess of how many nodes a search has that branches on this item, by `count` dives below each child.
fn guess<E: RulesOut>(
    splitter: &Splitter<'_>,
    engine: &mut E,
    dives: &mut Dives,
    number: u32,
    count: u64,
) -> Result<u64, AllocError>
    requires { AreOfPuzzle (E.selection engine.old).compiled.puzzle splitter.now.symmetries.now }
    ensures { engine.new ≡ engine.old }
{
    let Some(item) = uncovered_item(engine, number) else {
        return Ok(u64::MAX);
    };
    let children = splitter.merged_children(engine, item, 1)?;
    let mut sum: u64 = 0;
    for child in &children {
        if let Some(option) = last_option(engine, number, child) {
            let nodes = guess_with(splitter, engine, dives, option, count)?;
            sum = sum.saturating_add(nodes);
        }
    }
    Ok(sum)
}

// A guess of how many nodes there are below an open option, by `count` dives.
fn guess_with<E: RulesOut>(
    splitter: &Splitter<'_>,
    engine: &mut E,
    dives: &mut Dives,
    option: u32,
    count: u64,
) -> Result<u64, AllocError>
    requires puzzle { AreOfPuzzle (E.selection engine.old).compiled.puzzle splitter.now.symmetries.now }
    requires option { let s = E.selection engine.old in IsOpen (cover_of s.compiled) s.chosen option }
    ensures { engine.new ≡ engine.old }
{
    engine.choose(option)?;
    let nodes = guess_below(splitter, engine, dives, count);
    engine.undo();
    nodes
}

// A guess of how many nodes there are below, by `count` dives; where symmetries merge children, from each that is left.
fn guess_below<E: RulesOut>(
    splitter: &Splitter<'_>,
    engine: &mut E,
    dives: &mut Dives,
    count: u64,
) -> Result<u64, AllocError>
    requires { AreOfPuzzle (E.selection engine.old).compiled.puzzle splitter.now.symmetries.now }
    ensures { engine.new ≡ engine.old }
{
    let Some(item) = engine.branch_item() else {
        return Ok(1);
    };
    if !splitter.merges(engine) {
        return dives.mean(engine, count);
    }
    let children = splitter.merged_children(engine, item, 1)?;
    if children.len() == engine.size(item) as usize {
        return dives.mean(engine, count);
    }
    nodes_by(engine, dives, item, &children, count)
}

// A guess of how many nodes there are where these children of an item are its branches, by `count` dives for all of
// them.
fn nodes_by<E: RulesOut>(
    engine: &mut E,
    dives: &mut Dives,
    item: u32,
    children: &[Branch],
    count: u64,
) -> Result<u64, AllocError>
    ensures { engine.new ≡ engine.old }
{
    let each = (count / (children.len() as u64).max(1)).max(1);
    let mut sum: u64 = 1;
    for child in children {
        if let Some(option) = last_option(engine, item, child) {
            let nodes = mean_with(engine, dives, option, each)?;
            sum = sum.saturating_add(nodes);
        }
    }
    Ok(sum)
}

// The mean of `count` dives below an open option.
fn mean_with<E: RulesOut>(
    engine: &mut E,
    dives: &mut Dives,
    option: u32,
    count: u64,
) -> Result<u64, AllocError>
    requires { let s = E.selection engine.old in IsOpen (cover_of s.compiled) s.chosen option }
    ensures { engine.new ≡ engine.old }
{
    engine.choose(option)?;
    let nodes = dives.mean(engine, count);
    engine.undo();
    nodes
}

// The option that the child has chosen last, if it is an open option of the item with this number.
fn last_option<E: OpenOptions>(engine: &E, number: u32, child: &Branch) -> Option<u32>
    ensures { let s = E.selection engine.now in IfSome result (IsOpen (cover_of s.compiled) s.chosen) }
{
    let option = *child.chosen().last()?;
    let item = uncovered_item(engine, number)?;
    open_option(engine, item, option)
}
