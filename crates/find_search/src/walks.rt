//! The recursion of a pass. It goes depth first, and takes the open options of an item from a random one on, after the
//! last of them from the first one on.

ghost use Rattle.std.specs.Prelude.{◌≡◌, ◌≢◌, ◌≤◌, ◌+◌, None, IfOk, IfSome, MatchOption, IsErrOf, OnOk, length, map};
ghost use Rattle.puzzle_symmetry.specs.Motion.{line_of};
ghost use Rattle.xcc_form.specs.Options.{cover_of};
ghost use Rattle.xcc_form.specs.Clashes.{IsOpenAt};
ghost use Rattle.xcc_form.specs.Chosen.{AreAllCovered, IsUncovered};
ghost use Rattle.count_search.specs.Extensions.{IsExtension};
ghost use Rattle.find_search.specs.Finding.{HasTooLargeOrbit};
ghost use Rattle.find_search.specs.Adding.{MayAdd, Adds};
ghost use Rattle.find_search.specs.Turns.{IsExtensionInTurn};

use crate::ends::Ended;
use crate::faults::FindFault;
use crate::searches::{Progress, Search};
use crate::turns::Turn;
use crate::watches::FindWatch;
use count_search::RulesOut;
use rand_core::Rng;
use std::alloc::AllocError;
use xcc_form::{Chooses, FewestOptions, LeastLeftOfFew, OpenOptions, option_behind};

// How many options more than the fewest an item may have, so that it is looked at what they leave.
const FURTHER: u32 = 4;

/// Lists the arrangements that have all chosen options, until as many are listed as are wanted or the pass is spent. Of
/// arrangements that symmetries take into each other it lists only the first.
///
/// Whatever it chooses it takes back.
#[cycle(walk)]
pub(crate) fn walk<E: RulesOut, W: FindWatch>(
    engine: &mut E,
    search: &Search<'_, '_, '_, W>,
    progress: &mut Progress,
) -> Result<Ended, FindFault>
    requires may { let s = E.selection engine.old in
        MayAdd s.compiled.puzzle search.now.find.symmetries.now (IsExtension s) progress.old.listed }
    requires few { length progress.old.listed.arrangements.items ≤ search.now.find.most }
    ensures same { engine.new ≡ engine.old }
    ensures adds { let s = E.selection engine.old in IfOk result
        (Adds s.compiled.puzzle search.now.find.symmetries.now (IsExtension s) progress.old.listed progress.new.listed) }
    ensures few { OnOk result (length progress.new.listed.arrangements.items ≤ search.now.find.most) }
    ensures enough { IfOk result (λ ended. ended ≡ Ended.Enough
        → search.now.find.most ≤ length progress.new.listed.arrangements.items) }
    ensures fuel { progress.new.fuel ≡ progress.old.fuel }
    ensures unspent { progress.old.fuel ≡ None → search.now.is_over ≡ None → IfOk result (λ ended. ended ≢ Ended.Spent) }
    ensures too_many { IsErrOf result FindFault.TooMany
        → HasTooLargeOrbit (E.selection engine.old).compiled.puzzle (map line_of search.now.find.symmetries.now) }
{
    progress.nodes = progress.nodes.wrapping_add(1);
    if let Some(ended) = search.ended(progress) {
        return Ok(ended);
    }
    if engine.is_ruled_out() {
        return Ok(Ended::Whole);
    }
    match item_of(engine, progress)? {
        Some(item) => walk_item(engine, search, progress, item),
        None => {
            add_leaf(engine, search, progress)?;
            Ok(Ended::Whole)
        }
    }
}

// The item to branch on. Until something is listed it is one whose options leave little, since that leads to a first
// arrangement soonest; then it is the one with the fewest options, which is chosen in a fraction of the time.
fn item_of<E: OpenOptions>(engine: &mut E, progress: &Progress) -> Result<Option<u32>, AllocError>
    ensures same { engine.new ≡ engine.old }
    ensures uncovered { let s = E.selection engine.old in IfOk result (λ o. MatchOption o
        (AreAllCovered (cover_of s.compiled) s.chosen)
        (IsUncovered (cover_of s.compiled) s.chosen)) }
{
    if progress.listed.arrangements.is_empty() {
        return LeastLeftOfFew { further: FURTHER }.choose_item(engine);
    }
    FewestOptions.choose_item(engine)
}

// Lists the arrangements that have all chosen options and one of the item's.
#[cycle(walk)]
fn walk_item<E: RulesOut, W: FindWatch>(
    engine: &mut E,
    search: &Search<'_, '_, '_, W>,
    progress: &mut Progress,
    item: u32,
) -> Result<Ended, FindFault>
    requires uncovered { let s = E.selection engine.old in IsUncovered (cover_of s.compiled) s.chosen item }
    requires may { let s = E.selection engine.old in
        MayAdd s.compiled.puzzle search.now.find.symmetries.now (IsExtension s) progress.old.listed }
    requires few { length progress.old.listed.arrangements.items ≤ search.now.find.most }
    ensures same { engine.new ≡ engine.old }
    ensures adds { let s = E.selection engine.old in IfOk result
        (Adds s.compiled.puzzle search.now.find.symmetries.now (IsExtension s) progress.old.listed progress.new.listed) }
    ensures few { OnOk result (length progress.new.listed.arrangements.items ≤ search.now.find.most) }
    ensures enough { IfOk result (λ ended. ended ≡ Ended.Enough
        → search.now.find.most ≤ length progress.new.listed.arrangements.items) }
    ensures fuel { progress.new.fuel ≡ progress.old.fuel }
    ensures unspent { progress.old.fuel ≡ None → search.now.is_over ≡ None → IfOk result (λ ended. ended ≢ Ended.Spent) }
    ensures too_many { IsErrOf result FindFault.TooMany
        → HasTooLargeOrbit (E.selection engine.old).compiled.puzzle (map line_of search.now.find.symmetries.now) }
{
    let _right = engine.chosen();
    let options = engine.xcc().options();
    let start = random_option(engine, progress, item);
    let from_start = Turn {
        item,
        first: start,
        end: options,
    };
    let ended = walk_options(engine, search, progress, from_start)?;
    let Ended::Whole = ended else {
        return Ok(ended);
    };
    let before_start = Turn {
        item,
        first: engine.next_option(item, None),
        end: start.unwrap_or(options),
    };
    walk_options(engine, search, progress, before_start)
}

// Lists the arrangements that have all chosen options and one that comes in turn.
#[cycle(walk)]
fn walk_options<E: RulesOut, W: FindWatch>(
    engine: &mut E,
    search: &Search<'_, '_, '_, W>,
    progress: &mut Progress,
    turn: Turn,
) -> Result<Ended, FindFault>
    requires uncovered { let s = E.selection engine.old in IsUncovered (cover_of s.compiled) s.chosen turn.item }
    requires first { let s = E.selection engine.old in
        IfSome turn.first (IsOpenAt (cover_of s.compiled) s.chosen turn.item) }
    requires may { let s = E.selection engine.old in
        MayAdd s.compiled.puzzle search.now.find.symmetries.now (IsExtensionInTurn s turn) progress.old.listed }
    requires few { length progress.old.listed.arrangements.items ≤ search.now.find.most }
    ensures same { engine.new ≡ engine.old }
    ensures adds { let s = E.selection engine.old in IfOk result
        (Adds s.compiled.puzzle search.now.find.symmetries.now (IsExtensionInTurn s turn)
        progress.old.listed progress.new.listed) }
    ensures few { OnOk result (length progress.new.listed.arrangements.items ≤ search.now.find.most) }
    ensures enough { IfOk result (λ ended. ended ≡ Ended.Enough
        → search.now.find.most ≤ length progress.new.listed.arrangements.items) }
    ensures fuel { progress.new.fuel ≡ progress.old.fuel }
    ensures unspent { progress.old.fuel ≡ None → search.now.is_over ≡ None → IfOk result (λ ended. ended ≢ Ended.Spent) }
    ensures too_many { IsErrOf result FindFault.TooMany
        → HasTooLargeOrbit (E.selection engine.old).compiled.puzzle (map line_of search.now.find.symmetries.now) }
{
    let _right = engine.chosen();
    let mut next = turn.first;
    while let Some(option) = next {
        if option >= turn.end {
            return Ok(Ended::Whole);
        }
        next = engine.next_option(turn.item, Some(option));
        engine.choose(option)?;
        let below = walk(engine, search, progress);
        engine.undo();
        let ended = below?;
        let Ended::Whole = ended else {
            return Ok(ended);
        };
    }
    Ok(Ended::Whole)
}

// An open option of the item at random, if there is one.
fn random_option<E: OpenOptions>(engine: &E, progress: &mut Progress, item: u32) -> Option<u32>
    requires { let s = E.selection engine.now in IsUncovered (cover_of s.compiled) s.chosen item }
    ensures open { let s = E.selection engine.now in IfSome result (IsOpenAt (cover_of s.compiled) s.chosen item) }
    ensures listed { progress.new.listed ≡ progress.old.listed }
    ensures fuel { progress.new.fuel ≡ progress.old.fuel }
{
    let size = engine.size(item);
    if size == 0 {
        return None;
    }
    option_behind(engine, item, progress.random.next_u32() % size)
}

// Lists the arrangement of the chosen options, which cover all items.
fn add_leaf<E: OpenOptions, W: FindWatch>(
    engine: &E,
    search: &Search<'_, '_, '_, W>,
    progress: &mut Progress,
) -> Result<(), FindFault>
    requires covered { let s = E.selection engine.now in AreAllCovered (cover_of s.compiled) s.chosen }
    requires may { let s = E.selection engine.now in
        MayAdd s.compiled.puzzle search.now.find.symmetries.now (IsExtension s) progress.old.listed }
    ensures adds { let s = E.selection engine.now in OnOk result
        (Adds s.compiled.puzzle search.now.find.symmetries.now (IsExtension s)
        progress.old.listed progress.new.listed Ended.Whole) }
    ensures one { OnOk result (length progress.new.listed.arrangements.items
        ≤ length progress.old.listed.arrangements.items + 1) }
    ensures fuel { progress.new.fuel ≡ progress.old.fuel }
    ensures too_many { IsErrOf result FindFault.TooMany
        → HasTooLargeOrbit (E.selection engine.now).compiled.puzzle (map line_of search.now.find.symmetries.now) }
{
    let find = &search.find;
    let listed = &mut progress.listed;
    if listed.add(search.alloc, engine.xcc(), find.symmetries, engine.chosen())? {
        find.watch.found(listed.arrangements.len());
    }
    Ok(())
}
