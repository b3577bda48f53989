//! Plans for several items, and guesses of how many nodes each plan leaves: jobs of a crew. Each job's dives have
//! random numbers of their own, so the results don't depend on how many workers there are.

ghost use Rattle.std.specs.Prelude.{◌≤◌};
ghost use Rattle.match_limits.specs.declared.TheConstants.{MOST_WORKERS};

use crate::strategy::dives::{Citable, Dives, Effort};
use crate::strategy::items::ItemRule;
use crate::strategy::plans::{Plan, Planner};
use std::alloc::AllocError;
use std::thread::Threads;
use steal_crew::{Work, run_crew};
use xcc_dance::OpenSets;

// What the random numbers begin with. It is always the same, so that a solve can be repeated.
const SEED: u64 = 2000;

// The most plans that are made or guessed at once.
pub const MOST_PLANS: usize = 24;

// How many jobs a guess of a plan's nodes is cut into, so that no worker is left alone with a large one.
const PARTS: u32 = 8;

// The plans by each of these items at the root: a job for each.
#[derive(Clone, Copy)]
struct Plannings<'a, 'i> {
    planner: Planner<'a>,
    items: &'i [u32],
    depth: u8,
}

impl<'a, 'i> Work for Plannings<'a, 'i> {
    ghost use Rattle.std.specs.Prelude.{◌<◌, length};

    type R = Plan;

    ghost accepts = { λ w n. n < length w.items.now };

    ghost gives = { λ _ _ _. Unit {0} };

    fn one(&self, number: u32) -> Result<Plan, AllocError> {
        let mut planner = self.planner;
        planner.item_rule = ItemRule::at_root(self.items[number as usize]);
        planner.plan(self.depth)
    }
}

// The plans of `depth` levels by each of these items, in their order.
pub fn plans_by<R: Threads + Sync>(
    rt: &R,
    planner: Planner<'_>,
    items: &[u32],
    depth: u8,
    workers: u8,
) -> Result<Vec<Plan>, AllocError>
    requires workers { (1 ≤ workers) × (workers ≤ MOST_WORKERS) }
{
    let plannings = Plannings {
        planner,
        items,
        depth,
    };
    let count = items.len().min(MOST_PLANS) as u32;
    let (plans, _) = run_crew(rt, planner.alloc, &plannings, count, workers)?.into_parts();
    Ok(plans)
}

// What a part of the guess of a plan's nodes came to.
#[derive(Clone, Copy)]
pub struct PartGuess {
    nodes: u64,
    effort: Effort,
}

// Guesses of these plans' nodes by dives: a job for each part of each.
#[derive(Clone, Copy)]
pub struct Guesses<'a, 'p> {
    pub planner: Planner<'a>,
    pub plans: &'p [Plan],
    // about how many options are chosen on the dives of each plan
    pub choices: u64,
    // what dives are taken to take
    pub effort: Effort,
    // how many guesses of plans were made before
    pub round: u8,
}

impl<'a, 'p> Guesses<'a, 'p> {
    // Random numbers of its own for this part.
    fn dives(&self, plan: &Plan, part: u32) -> Dives {
        let planner = self.planner;
        let item = u64::from(plan.item_rule.root.unwrap_or(0));
        let own = (item << 16) | (u64::from(self.round) << 8) | u64::from(part);
        Dives::new(planner.alloc, planner.xcc.cells(), (SEED << 48) ^ own)
    }

    // The nodes of the lemmas whose numbers leave the rest `part` where they are divided by the number of parts,
    // guessed by new dives, and what these took.
    fn part(&self, plan: &Plan, part: u32) -> Result<PartGuess, AllocError> {
        let mut engine = OpenSets::new(self.planner.alloc, self.planner.xcc)?;
        let mut dives = self.dives(plan, part);
        let nodes = self.nodes_of(plan, part, &mut engine, &mut dives)?;
        Ok(PartGuess {
            nodes,
            effort: dives.effort,
        })
    }

    // The nodes of the lemmas whose numbers leave the rest `part` where they are divided by the number of parts,
    // guessed by these dives from the root.
    fn nodes_of(
        &self,
        plan: &Plan,
        part: u32,
        engine: &mut OpenSets<'_>,
        dives: &mut Dives,
    ) -> Result<u64, AllocError> {
        let each = self
            .effort
            .dives_for_each(plan.prefixes.len() as u64, self.choices);
        let mut nodes: u64 = 0;
        if part == 0 {
            nodes = self.at_root(plan, engine, dives, each)?;
        }
        let mut lemma: u32 = 0;
        for prefix in &plan.prefixes {
            lemma = lemma.saturating_add(1);
            if lemma % PARTS == part {
                let citable = Citable::above(&plan.images, lemma, prefix);
                let below = dives.nodes_below(engine, prefix, &citable, each)?;
                nodes = nodes.saturating_add(below);
            }
        }
        Ok(nodes)
    }

    // The nodes of the lemma of the root, guessed by `each` dives below each child that no other lemma stands for.
    fn at_root(
        &self,
        plan: &Plan,
        engine: &mut OpenSets<'_>,
        dives: &mut Dives,
        each: u64,
    ) -> Result<u64, AllocError> {
        let mut planner = self.planner;
        planner.item_rule = plan.item_rule;
        let citable = Citable::above(&plan.images, 0, &[]);
        let children = planner.children(&[])?;
        let mut nodes: u64 = 0;
        for child in &children {
            let below = match plan.images.cite_any(child, 0) {
                Some(_) => 1,
                None => dives.nodes_below(engine, child, &citable, each)?,
            };
            nodes = nodes.saturating_add(below);
        }
        Ok(nodes)
    }

    // About how many nodes the lemmas of each plan have together, and what the dives took for it.
    pub fn guess<R: Threads + Sync>(
        &self,
        rt: &R,
        workers: u8,
    ) -> Result<(Vec<u64>, Effort), AllocError>
        requires workers { (1 ≤ workers) × (workers ≤ MOST_WORKERS) }
    {
        let alloc = self.planner.alloc;
        let count = self.plans.len().min(MOST_PLANS) as u32 * PARTS;
        let (parts, _) = run_crew(rt, alloc, self, count, workers)?.into_parts();
        let mut nodes = Vec::new(alloc);
        let mut effort = Effort::none();
        for parts in parts.chunks(PARTS as usize) {
            let guess = sum_of(parts);
            nodes.push(guess.nodes)?;
            effort.add(guess.effort);
        }
        Ok((nodes, effort))
    }
}

impl<'a, 'p> Work for Guesses<'a, 'p> {
    type R = PartGuess;

    ghost accepts = { λ _ _. Unit {0} };

    ghost gives = { λ _ _ _. Unit {0} };

    fn one(&self, number: u32) -> Result<PartGuess, AllocError> {
        match self.plans.get((number / PARTS) as usize) {
            Some(plan) => self.part(plan, number % PARTS),
            None => Ok(sum_of(&[])),
        }
    }
}

// All parts together.
fn sum_of(parts: &[PartGuess]) -> PartGuess {
    let mut nodes: u64 = 0;
    let mut effort = Effort::none();
    for part in parts {
        nodes = nodes.saturating_add(part.nodes);
        effort.add(part.effort);
    }
    PartGuess { nodes, effort }
}
