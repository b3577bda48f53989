//! Guesses how many nodes a search has, by dives (D. E. Knuth, Estimating the efficiency of backtrack programs, 1975).
//!
//! A dive goes from a node down to a leaf, and at each node takes one of the children at random. It assumes that the
//! other children have as many nodes below them as that one. So for a node it guesses one, plus the number of its
//! children times the guess for the child that was taken. The mean of many dives comes near to the true number.

ghost use Rattle.std.specs.Prelude.{◌≡◌, IfSome};
ghost use Rattle.xcc_form.specs.Options.{cover_of};
ghost use Rattle.xcc_form.specs.Clashes.{IsOpen};

use crate::strategy::images::PrefixImages;
use match_puzzle::Pair;
use rand_core::{Rng, SeedableRng};
use rand_xoshiro::Xoshiro256PlusPlus;
use std::alloc::{AllocError, Global};
use xcc_form::{OpenOptions, open_option, option_behind, uncovered_item};

// The lemmas that a search may cite: those numbered above its own.
#[derive(Clone, Copy)]
pub struct Citable<'a> {
    images: &'a PrefixImages,
    number: u32,
    // whether the prefix of its own lemma holds an image of such a lemma, so that each node does
    prefix_holds: bool,
}

impl<'a> Citable<'a> {
    // Those above the lemma with this number and this prefix.
    pub fn above(images: &'a PrefixImages, number: u32, prefix: &[Pair]) -> Citable<'a> {
        Citable {
            images,
            number,
            prefix_holds: images.cite_any(prefix, number).is_some(),
        }
    }

    // Whether one stands for the child at which these pairs are placed.
    fn has_one_for(&self, placed: &[Pair]) -> bool {
        let cite = self
            .images
            .cite_child(placed, self.number, self.prefix_holds);
        cite.is_some()
    }
}

// How many dives were made, and how many options were chosen on them.
#[derive(Clone, Copy)]
pub struct Effort {
    dives: u64,
    choices: u64,
}

impl Effort {
    pub fn none() -> Effort {
        Effort {
            dives: 0,
            choices: 0,
        }
    }

    // What one dive takes, before any was made: it goes through half the cells.
    pub fn guessed(cells: u16) -> Effort {
        Effort {
            dives: 1,
            choices: u64::from(cells) / 2,
        }
    }

    pub fn add(&mut self, other: Effort) {
        self.dives = self.dives.saturating_add(other.dives);
        self.choices = self.choices.saturating_add(other.choices);
    }

    // How many dives to make below each of `lemmas` lemmas, so that all together take about `choices` choices, where a
    // dive takes as many as these did; at least 1.
    pub fn dives_for_each(&self, lemmas: u64, choices: u64) -> u64 {
        let dives = choices.saturating_mul(self.dives);
        let for_one = self.choices.max(1).saturating_mul(lemmas.max(1));
        (dives / for_one.max(1)).max(1)
    }
}

// What dives are made with.
#[derive(Drop)]
pub struct Dives {
    random: Xoshiro256PlusPlus,
    // what is placed, in the order of placing
    placed: Vec<Pair>,
    // the most levels that a tree has
    levels: u16,
    // what the dives so far took
    pub effort: Effort,
    // how many of them filled all cells
    pub full: u64,
}

impl Dives {
    // Dives for a puzzle of `cells` cells, with random numbers from this seed.
    pub fn new(alloc: Global, cells: u16, seed: u64) -> Dives {
        Dives {
            random: Xoshiro256PlusPlus::seed_from_u64(seed),
            placed: Vec::new(alloc),
            levels: cells,
            effort: Effort::none(),
            full: 0,
        }
    }

    // How many nodes there are below these pairs, as `dives` dives guess it; 0 where one of the pairs doesn't fit.
    pub fn nodes_below<E: OpenOptions>(
        &mut self,
        engine: &mut E,
        pairs: &[Pair],
        citable: &Citable<'_>,
        dives: u64,
    ) -> Result<u64, AllocError>
        ensures { engine.new ≡ engine.old }
    {
        let Some((pair, others)) = pairs.split_first() else {
            return self.mean(engine, citable, dives);
        };
        let Some(option) = option_at(engine, *pair) else {
            return Ok(0);
        };
        self.placed.push(*pair)?;
        engine.choose(option)?;
        let nodes = self.nodes_below(engine, others, citable, dives);
        engine.undo();
        self.placed.pop();
        nodes
    }

    // The mean number of nodes that `dives` dives guess from where the engine is.
    fn mean<E: OpenOptions>(
        &mut self,
        engine: &mut E,
        citable: &Citable<'_>,
        dives: u64,
    ) -> Result<u64, AllocError>
        ensures { engine.new ≡ engine.old }
    {
        self.effort.add(Effort { dives, choices: 0 });
        let mut sum: u64 = 0;
        for _ in 0..dives {
            let nodes = self.dive(engine, citable, self.levels)?;
            sum = sum.saturating_add(nodes);
        }
        Ok(sum / dives.max(1))
    }

    // One dive of at most `levels` levels.
    fn dive<E: OpenOptions>(
        &mut self,
        engine: &mut E,
        citable: &Citable<'_>,
        levels: u16,
    ) -> Result<u64, AllocError>
        ensures { engine.new ≡ engine.old }
    {
        let Some(item) = engine.branch_item() else {
            self.full = self.full.saturating_add(1);
            return Ok(1);
        };
        let children = engine.size(item);
        if children == 0 || levels == 0 {
            return Ok(1);
        }
        let Some(option) = option_behind(engine, item, self.random.next_u32() % children) else {
            return Ok(1);
        };
        self.placed.push(engine.xcc().pair(option))?;
        let below = if citable.has_one_for(&self.placed) {
            1
        } else {
            engine.choose(option)?;
            self.effort.add(Effort {
                dives: 0,
                choices: 1,
            });
            let nodes = self.dive(engine, citable, levels - 1);
            engine.undo();
            nodes?
        };
        self.placed.pop();
        Ok(below.saturating_mul(u64::from(children)).saturating_add(1))
    }
}

// The option of this pair, if it is open.
fn option_at<E: OpenOptions>(engine: &E, pair: Pair) -> Option<u32>
    ensures { let s = E.selection engine.now in IfSome result (IsOpen (cover_of s.compiled) s.chosen) }
{
    let item = uncovered_item(engine, u32::from(pair.cell))?;
    open_option(engine, item, engine.xcc().option_of(pair)?)
}
