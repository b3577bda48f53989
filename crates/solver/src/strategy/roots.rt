//! Chooses the item to branch on at the root, by guesses of how much work each leaves.

ghost use Rattle.std.specs.Prelude.{◌≡◌, ◌≤◌};
ghost use Rattle.match_limits.specs.declared.TheConstants.{MOST_WORKERS};
ghost use Rattle.xcc_form.specs.Options.{cover_of};
ghost use Rattle.xcc_form.specs.Chosen.{IsUncovered};

use crate::strategy::dives::Effort;
use crate::strategy::guesses::{Guesses, MOST_PLANS, plans_by};
use crate::strategy::images::image_of_pair;
use crate::strategy::orbits::Orbits;
use crate::strategy::plans::{Plan, Planner};
use match_limits::{MOST_DEPTH, MOST_WORKERS};
use std::alloc::{AllocError, Global};
use std::thread::Threads;
use xcc_dance::OpenSets;
use xcc_form::OpenOptions;

// How many choices are made for a first guess of a plan's nodes.
const FIRST_CHOICES: u64 = 4_096;

// Where the plan is guessed to have fewer nodes than this, no other item is looked for, and no deeper plan.
const FEW_NODES: u64 = 10_000;

// Where the plan is guessed to have several times this number of nodes, the numbers of choices below are taken as many
// times, at most `MOST_TIMES` times.
const NODES_OF_ONE_TIME: u64 = 1 << 20;

const MOST_TIMES: u64 = 16;

// How many choices are made for each item at first.
const ITEM_CHOICES: u64 = 256;

// For how many items whole plans are made at last, with `PLAN_CHOICES` choices for each.
const FINALISTS: usize = 4;

const PLAN_CHOICES: u64 = 4_096;

// How many choices are made for the best of them, and for the plan that it is to replace.
const LAST_CHOICES: u64 = 16_384;

// How often the items are halved at most; this leaves few of as many items as there may be.
const MOST_ROUNDS: u8 = 4;

// An item, and what it is ranked by: less is better.
#[derive(Clone, Copy)]
struct Ranked {
    by: u64,
    item: u32,
}

// What items at the root are compared by.
#[derive(Drop)]
struct Comparison<'a, R: Threads + Sync> {
    rt: &'a R,
    workers: u8,
    planner: Planner<'a>,
    // what the dives so far took; at first a guess
    effort: Effort,
    // how many guesses of plans were made
    round: u8,
    // how many times as many choices are made
    times: u64,
    ghost some: { 1 ≤ workers },
    ghost few: { workers ≤ MOST_WORKERS },
}

impl<'a, R: Threads + Sync> Comparison<'a, R> {
    // A comparison that has begun with nothing, on one worker.
    fn new(rt: &'a R, planner: Planner<'a>) -> Comparison<'a, R>
        ensures { result.workers ≡ 1 }
    {
        Comparison {
            rt,
            workers: 1,
            planner,
            effort: Effort::guessed(planner.xcc.cells()),
            round: 0,
            times: 1,
        }
    }

    // How many nodes the lemmas of this plan have together, by the few dives of a first guess.
    fn first_guess(&mut self, plan: &Plan) -> Result<u64, AllocError>
        ensures { self.new.workers ≡ self.old.workers }
    {
        let guesses = self.guess(std::slice::from_ref(plan), FIRST_CHOICES)?;
        Ok(guesses.first().copied().unwrap_or(0))
    }

    // How many nodes the lemmas of each of these plans have together, by dives with about `choices` choices for each
    // plan, taken `self.times` times.
    fn guess(&mut self, plans: &[Plan], choices: u64) -> Result<Vec<u64>, AllocError>
        ensures { self.new.workers ≡ self.old.workers }
    {
        let guesses = Guesses {
            planner: self.planner,
            plans,
            choices: choices.saturating_mul(self.times),
            effort: self.effort,
            round: self.round,
        };
        let (nodes, effort) = guesses.guess(self.rt, self.workers)?;
        self.effort.add(effort);
        self.round = self.round.wrapping_add(1);
        Ok(nodes)
    }

    // The items that may be taken in place of this one, as many as are compared: those with the fewest options, where
    // options that are images of each other count once. Of items that symmetries take to each other it is the least.
    fn other_items(
        &self,
        than: u32,
        engine: &OpenSets<'_>,
        orbits: &mut Orbits,
    ) -> Result<Vec<u32>, AllocError> {
        let mut ranked = Vec::new(self.planner.alloc);
        let mut next = engine.next_item(None);
        while let Some(item) = next {
            if item != than && self.is_least(engine, item) {
                let by = orbits_of(engine, item, orbits);
                ranked.push(Ranked { by, item })?;
            }
            next = engine.next_item(Some(item));
        }
        best_of(self.planner.alloc, ranked, MOST_PLANS)
    }

    // Whether no symmetry takes the item to a lesser one. It looks where the first open option goes.
    fn is_least(&self, engine: &OpenSets<'_>, item: u32) -> bool
        requires { IsUncovered (cover_of engine.now.compiled) engine.now.chosen item }
    {
        let xcc = self.planner.xcc;
        let Some(option) = engine.next_option(item, None) else {
            return true;
        };
        let pair = engine.xcc().pair(option);
        let is_cell = item < u32::from(xcc.cells());
        for symmetry in self.planner.symmetries {
            if let Some(image) = image_of_pair(symmetry, pair) {
                let is_lower = if is_cell {
                    image.cell < pair.cell
                } else {
                    image.placement.tile < pair.placement.tile
                };
                if is_lower {
                    return false;
                }
            }
        }
        true
    }

    // The items to compare with this one, by the engine and the orbits of the puzzle.
    fn items_beside(&self, than: u32) -> Result<Vec<u32>, AllocError> {
        let planner = self.planner;
        let engine = OpenSets::new(planner.alloc, planner.xcc)?;
        let mut orbits = Orbits::new(planner.alloc, planner.xcc, planner.symmetries)?;
        self.other_items(than, &engine, &mut orbits)
    }

    // The few of these items for which plans of one level are guessed to have least.
    fn few_of(&mut self, items: Vec<u32>) -> Result<Vec<u32>, AllocError> {
        let mut few = items;
        let mut choices = ITEM_CHOICES;
        for _ in 0..MOST_ROUNDS {
            if few.len() > FINALISTS {
                few = self.better_half(&few, choices)?;
                choices = choices.saturating_mul(2);
            }
        }
        Ok(few)
    }

    // The better half of these items, by plans of one level and about `choices` choices for each plan, taken
    // `self.times` times.
    fn better_half(&mut self, items: &[u32], choices: u64) -> Result<Vec<u32>, AllocError> {
        let plans = plans_by(self.rt, self.planner, items, 1, self.workers)?;
        let guesses = self.guess(&plans, choices)?;
        let ranked = ranked_by(self.planner.alloc, items, &guesses)?;
        best_of(self.planner.alloc, ranked, (items.len() / 2).max(FINALISTS))
    }

    // The plan by the item of these whose plan is guessed to have least.
    fn best_plan(&mut self, items: &[u32], depth: u8) -> Result<Option<Plan>, AllocError> {
        let plans = plans_by(self.rt, self.planner, items, depth, self.workers)?;
        let guesses = self.guess(&plans, PLAN_CHOICES)?;
        let mut best = None;
        let mut least = u64::MAX;
        for (plan, nodes) in plans.into_iter().zip(guesses) {
            if nodes < least {
                least = nodes;
                best = Some(plan);
            }
        }
        Ok(best)
    }

    // The other plan, if it is guessed to have less than two thirds of this one's nodes, or else this one.
    fn better_of(&mut self, plan: Plan, other: Plan) -> Result<Plan, AllocError> {
        let plans = [plan, other];
        let guesses = self.guess(&plans, LAST_CHOICES)?;
        let is_better = match guesses.as_slice() {
            [most, nodes] => nodes.saturating_mul(3) < most.saturating_mul(2),
            _ => false,
        };
        let [plan, other] = plans;
        Ok(if is_better { other } else { plan })
    }

    // The plan, which is by this item at the root, or one by another item, with which there are guessed to be much
    // fewer nodes. It is asked on one worker whether another item is looked for, and compared by all of them.
    fn best_beside(
        &mut self,
        plan: Plan,
        item: u32,
        depth: u8,
        workers: u8,
    ) -> Result<Plan, AllocError>
        requires workers { (1 ≤ workers) × (workers ≤ MOST_WORKERS) }
    {
        let nodes = self.first_guess(&plan)?;
        if nodes < FEW_NODES {
            return Ok(plan);
        }
        self.workers = workers;
        self.times = (nodes / NODES_OF_ONE_TIME).max(1).min(MOST_TIMES);
        let others = self.items_beside(item)?;
        let few = self.few_of(others)?;
        match self.best_plan(&few, depth)? {
            Some(other) => self.better_of(plan, other),
            None => Ok(plan),
        }
    }
}

// How many options an item has that are no images of each other.
fn orbits_of(engine: &OpenSets<'_>, item: u32, orbits: &mut Orbits) -> u64
    requires { IsUncovered (cover_of engine.now.compiled) engine.now.chosen item }
{
    orbits.start();
    let mut count: u64 = 0;
    let mut next = engine.next_option(item, None);
    while let Some(option) = next {
        if orbits.meet(option) {
            count = count.saturating_add(1);
        }
        next = engine.next_option(item, Some(option));
    }
    count
}

// These items, each ranked by the guess for it.
fn ranked_by(alloc: Global, items: &[u32], guesses: &[u64]) -> Result<Vec<Ranked>, AllocError> {
    let mut ranked = Vec::new(alloc);
    for (item, by) in items.iter().zip(guesses) {
        ranked.push(Ranked {
            by: *by,
            item: *item,
        })?;
    }
    Ok(ranked)
}

// The best `most` of these items, or all if there are fewer; of two that are as good the lesser one first.
fn best_of(alloc: Global, ranked: Vec<Ranked>, most: usize) -> Result<Vec<u32>, AllocError> {
    let mut ranked = ranked;
    ranked.sort_unstable_by_key(|ranked| (ranked.by, ranked.item));
    ranked.truncate(most);
    let mut items = Vec::new(alloc);
    for ranked in &ranked {
        items.push(ranked.item)?;
    }
    Ok(items)
}

// A plan of at most `depth` levels, which is at most 3. Where the planner's rule takes an item of its own at the root,
// it may be by another item, with which there are guessed to be much fewer nodes. The plan is the same for any number
// of workers.
pub fn plan_by_dives<R: Threads + Sync>(
    rt: &R,
    planner: Planner<'_>,
    depth: u8,
    workers: u8,
) -> Result<Plan, AllocError>
    requires workers { (1 ≤ workers) × (workers ≤ MOST_WORKERS) }
{
    let plan = planner.plan(depth)?;
    let Some(item) = planner.item_rule.root else {
        return Ok(plan);
    };
    let mut comparison = Comparison::new(rt, planner);
    comparison.best_beside(plan, item, depth, workers)
}

// The depth that suits a puzzle: the greatest where there are symmetries and a plan of one level is guessed to have many
// nodes, and 1 otherwise. A deeper plan has more of what may be cited, and each of its lemmas has a line.
pub fn depth_that_suits<R: Threads + Sync>(rt: &R, planner: Planner<'_>) -> Result<u8, AllocError> {
    if planner.symmetries.is_empty() {
        return Ok(1);
    }
    let plan = planner.plan(1)?;
    let nodes = Comparison::new(rt, planner).first_guess(&plan)?;
    Ok(if nodes < FEW_NODES { 1 } else { MOST_DEPTH })
}
