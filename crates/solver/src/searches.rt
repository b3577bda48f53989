//! The jobs of a crew that searches: one for each open branch.

ghost use Rattle.std.specs.Prelude.{IfOk, IfSome};
ghost use Rattle.giving_crew.specs.LiveHands.{Gave};
ghost use Rattle.match_puzzle.specs.Arrangement.{AreArrangements};
ghost use Rattle.match_limits.specs.declared.TheConstants.{MOST_CELLS, MOST_LEVELS};
ghost use Rattle.cert_tree.specs.Limits.{IsLemmaWithin, IsTreeWithin};
ghost use Rattle.solver.specs.Solving.{IsFoundIn, IsOutcomeOf, IsTreeWithinWith};

use crate::branches::{OpenBranch, rising_by_cell};
use crate::shared::Shared;
use crate::strategy::choices::Choices;
use cert_tree::{PackedLemma, PackedTree};
use giving_crew::{Hand, LiveWork};
use match_limits::MOST_ARRANGEMENTS;
use match_puzzle::{Arrangement, Pair};
use piece_desk::{FlatDesk, FlatReceipt};
use std::alloc::AllocError;
use std::sync::Wait;
use std::sync::atomic::{AtomicBool, Ordering};
use xcc_dance::{Counted, Met, PackedOutcome, Watch};
use xcc_form::Xcc;

// The outcome of an open branch.
#[derive(Drop)]
pub enum Searched {
    // Its lemma is on the desk, and this is what it found.
    Posted {
        receipt: FlatReceipt,
        found: Vec<Arrangement>,
    },
    // Its fuel was spent, or another job had failed before it began.
    GaveUp,
    // It found more than may be listed.
    Full,
}

// What the jobs need to search open branches.
#[derive(Drop)]
pub struct Searches<'a, T: Wait, W: Watch> {
    pub rt: &'a T,
    pub xcc: &'a Xcc<'a>,
    pub desk: &'a FlatDesk,
    pub shared: &'a Shared<'a>,
    pub watch: &'a W,
    // whether a job gave up or found too many
    pub is_over: AtomicBool,
}

impl<'a, T: Wait, W: Watch> Searches<'a, T, W> {
    // Searches below a job's pairs. With several workers or levels it may cite lemmas and give branches away.
    fn run_job(
        &self,
        number: u32,
        pairs: &[Pair],
        hand: &mut Hand<'_, OpenBranch>,
    ) -> Result<PackedOutcome, AllocError>
        ensures found { IfOk result (IsFoundIn self.now.xcc.now.puzzle) }
        ensures gave { Gave hand.old hand.new }
    {
        // (one worker does one job: nobody cites or gives)
        if self.shared.workers == 1 && self.shared.plan.prefixes.is_empty() {
            run_alone(self.shared, self.xcc, self.watch, pairs)
        } else {
            run_with_others(self.shared, self.xcc, self.watch, number, pairs, hand)
        }
    }

    // The lemma with this number, if its number and prefix are within the limits of a lemma's text.
    fn packed(
        &self,
        number: u32,
        pairs: &[Pair],
        tree: PackedTree,
    ) -> Result<Option<PackedLemma>, AllocError>
        requires { IsTreeWithin MOST_CELLS MOST_LEVELS tree }
        ensures { IfOk result (λ o. IfSome o (IsLemmaWithin MOST_CELLS)) }
    {
        let prefix = rising_by_cell(self.shared.alloc, pairs)?;
        let lemma = PackedLemma::new(number, prefix, tree);
        if !lemma.prefix_within_limits() {
            return Ok(None);
        }
        Ok(Some(lemma))
    }

    // Puts the lemma with this number on the desk.
    fn post(
        &self,
        number: u32,
        pairs: &[Pair],
        tree: PackedTree,
        found: Vec<Arrangement>,
    ) -> Result<Searched, AllocError>
        requires found { AreArrangements self.now.xcc.now.puzzle found.items }
        requires tree { IsTreeWithinWith found.items tree }
        ensures { IfOk result (IsOutcomeOf self.now.xcc.now.puzzle self.now.desk.now) }
    {
        if found.len() > MOST_ARRANGEMENTS as usize {
            return Ok(Searched::Full);
        }
        let Some(lemma) = self.packed(number, pairs, tree)? else {
            return Ok(Searched::GaveUp);
        };
        match self.desk.post(self.rt, lemma) {
            Ok(receipt) => {
                let waiting = self.shared.waiting.load(Ordering::Relaxed);
                self.watch.searched(waiting);
                Ok(Searched::Posted { receipt, found })
            }
            Err(_) => Err(AllocError),
        }
    }
}

impl<'a, T: Wait, W: Watch> LiveWork for Searches<'a, T, W> {
    type Job = OpenBranch;

    type R = Searched;

    ghost gives = { λ s _ _ _ r. IsOutcomeOf s.xcc.now.puzzle s.desk.now r };

    fn one(
        &self,
        number: u32,
        job: OpenBranch,
        hand: &mut Hand<'_, OpenBranch>,
    ) -> Result<Searched, AllocError> {
        if number > 0 {
            self.shared.waiting.fetch_sub(1, Ordering::Relaxed);
        }
        if self.is_over.load(Ordering::Relaxed) {
            return Ok(Searched::GaveUp);
        }
        let OpenBranch { pairs } = job;
        let searched = match self.run_job(number, &pairs, hand)? {
            PackedOutcome::GaveUp => {
                self.watch.gave_up(pairs.len());
                Searched::GaveUp
            }
            PackedOutcome::Done { tree, found } => self.post(number, &pairs, tree, found)?,
        };
        if !matches!(searched, Searched::Posted { .. }) {
            self.is_over.store(true, Ordering::Relaxed);
        }
        Ok(searched)
    }
}

// Searches below a job's pairs, and neither cites lemmas nor gives branches away.
fn run_alone<W: Watch>(
    shared: &Shared<'_>,
    xcc: &Xcc<'_>,
    watch: &W,
    pairs: &[Pair],
) -> Result<PackedOutcome, AllocError>
    ensures { IfOk result (IsFoundIn xcc.now.puzzle) }
{
    let cells = usize::from(xcc.puzzle().board().cells());
    let mut cites = Counted {
        watch,
        cells,
        met: Met::at_root(pairs.len() == cells),
    };
    let outcome = shared.search(xcc, pairs, &mut cites);
    cites.met.tell_rest(watch);
    outcome
}

// Searches below a job's pairs, and may cite lemmas and give branches away.
fn run_with_others<W: Watch>(
    shared: &Shared<'_>,
    xcc: &Xcc<'_>,
    watch: &W,
    number: u32,
    pairs: &[Pair],
    hand: &mut Hand<'_, OpenBranch>,
) -> Result<PackedOutcome, AllocError>
    ensures found { IfOk result (IsFoundIn xcc.now.puzzle) }
    ensures gave { Gave hand.old hand.new }
{
    let cells = usize::from(xcc.puzzle().board().cells());
    let mut choices = Choices {
        shared,
        watch,
        hand,
        number,
        level: pairs.len(),
        holds: shared.plan.images.cite_any(pairs, number).is_some(),
        cells,
        met: Met::at_root(pairs.len() == cells),
        gives: false,
    };
    let outcome = shared.search(xcc, pairs, &mut choices);
    choices.met.tell_rest(watch);
    outcome
}
