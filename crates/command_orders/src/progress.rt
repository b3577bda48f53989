//! Says on standard error how far a check, a solve or a count is.

ghost use Rattle.std.specs.Prelude.{◌≡◌, ◌-◌, ◌*◌, ◌/◌, ◌^◌, max, min};
ghost use Rattle.command_runs.specs.Runs.{unhinted};

use cert_check::Gate;
use command_runs::{CheckSize, CheckWatch, HintedFault, RunFault, SolveWatch};
use count_search::CensusWatch;
use find_search::FindWatch;
use match_limits::MOST_BYTES;
use puzzle_maker::{Flaw, MakerWatch};
use solver::{SolveFault, Watch};
use std::alloc::Global;
use std::cell::Cell;
use std::sync::atomic::{AtomicBool, AtomicU64, Ordering};
use std::time::{Clock, Instant};

// Who may say it next: once a second, the first worker that asks.
#[derive(Drop)]
struct Turns<'a, R: Clock + Eprint> {
    rt: &'a R,
    // none where nothing is to be said, or there is no clock
    start: Option<Instant>,
    // the second in which it was said last
    told: AtomicU64,
}

impl<'a, R: Clock + Eprint> Turns<'a, R> {
    fn new(rt: &'a R, asked: bool) -> Turns<'a, R> {
        let start = if asked { Instant::now(rt).ok() } else { None };
        Turns {
            rt,
            start,
            told: AtomicU64::new(0),
        }
    }

    // The seconds since the start.
    fn passed(&self) -> Option<u64> {
        let start = self.start.as_ref()?;
        let passed = start.elapsed(self.rt).ok()?;
        Some(passed.as_secs())
    }

    // The seconds since the start, if it is the caller's turn.
    fn take(&self) -> Option<u64> {
        let now = self.passed()?;
        let told = self.told.load(Ordering::Relaxed);
        let is_next = now > told
            && self
                .told
                .compare_exchange(told, now, Ordering::Relaxed, Ordering::Relaxed)
                .is_ok();
        if is_next { Some(now) } else { None }
    }
}

/// Says how far a check is: for how many lemmas the walk of the tree has begun. At its end it says what the listed
/// arrangements stand for.
#[derive(Drop)]
pub struct CheckProgress<'a, R: Clock + Eprint> {
    turns: Turns<'a, R>,
    listed: AtomicU64,
    symmetries: AtomicU64,
    lemmas: AtomicU64,
    begun: AtomicU64,
}

impl<'a, R: Clock + Eprint> CheckProgress<'a, R> {
    /// Says how far it is if `asked`, otherwise nothing.
    pub fn new(rt: &'a R, asked: bool) -> CheckProgress<'a, R> {
        CheckProgress {
            turns: Turns::new(rt, asked),
            listed: AtomicU64::new(0),
            symmetries: AtomicU64::new(0),
            lemmas: AtomicU64::new(0),
            begun: AtomicU64::new(0),
        }
    }

    // Says up to what a complete list has every arrangement.
    pub(crate) fn tell_scope(&self) {
        let listed = self.listed.load(Ordering::Relaxed);
        let symmetries = self.symmetries.load(Ordering::Relaxed);
        let others = if symmetries == 0 {
            "there is no other"
        } else {
            "each other one is an image of these; edgematch count tells how many there are"
        };
        let _ = eprintln!(self.turns.rt;
            "arrangements listed {listed}, symmetries named {symmetries}: {others}"
        );
    }
}

impl<R: Clock + Eprint> Gate for CheckProgress<'_, R> {
    fn enter(&self, _lemma: u32) {
        let begun = self.begun.fetch_add(1, Ordering::Relaxed);
        if let Some(seconds) = self.turns.take() {
            let lemmas = self.lemmas.load(Ordering::Relaxed);
            let _ = eprintln!(self.turns.rt; "check: {seconds} s, {begun} of {lemmas} lemmas");
        }
    }
}

impl<R: Clock + Eprint> CheckWatch for CheckProgress<'_, R> {
    fn begins(&self, size: CheckSize) {
        self.listed.store(size.listed as u64, Ordering::Relaxed);
        self.symmetries
            .store(size.symmetries as u64, Ordering::Relaxed);
        self.lemmas.store(size.lemmas as u64, Ordering::Relaxed);
    }
}

// A node of a certificate has at least this many bytes: a letter and a digit, each after a space.
const LEAST_NODE_LEN: u64 = 4;

/// Says how far a solve is: how many children of branches were looked at, how many lemmas are done, how many wait for a
/// worker, and how many arrangements were met, also in lemmas that are still being searched.
#[derive(Drop)]
pub struct SolveProgress<'a, R: Clock + Eprint> {
    turns: Turns<'a, R>,
    children: AtomicU64,
    lemmas: AtomicU64,
    waiting: AtomicU64,
    met: AtomicU64,
    // whether it has said that the certificate is too long to be checked
    is_too_long: AtomicBool,
}

impl<'a, R: Clock + Eprint> SolveProgress<'a, R> {
    /// Says how far it is if `asked`, otherwise nothing.
    pub fn new(rt: &'a R, asked: bool) -> SolveProgress<'a, R> {
        SolveProgress {
            turns: Turns::new(rt, asked),
            children: AtomicU64::new(0),
            lemmas: AtomicU64::new(0),
            waiting: AtomicU64::new(0),
            met: AtomicU64::new(0),
            is_too_long: AtomicBool::new(false),
        }
    }

    /// Returns the hint and, where the search gave up, before it what the search had met until then. `None` where there
    /// is no hint, or memory is refused.
    pub fn with_met(
        &self,
        alloc: Global,
        fault: &RunFault,
        hint: Option<String>,
    ) -> Option<String> {
        let hint = hint?;
        if !matches!(fault, RunFault::Solve(SolveFault::GaveUp)) {
            return Some(hint);
        }
        let nodes = self.nodes();
        let met = self.met.load(Ordering::Relaxed);
        format!(in alloc; "nodes met: {nodes}, arrangements met: {met}, {hint}").ok()
    }

    // The outcome of a solve. Its fault has the hint, with what was met, or else the hint about writing, if there is
    // one.
    pub(crate) fn told(
        &self,
        alloc: Global,
        solved: Result<(), HintedFault>,
        refused: Option<String>,
    ) -> Result<(), HintedFault>
        ensures { unhinted result ≡ unhinted solved }
    {
        match solved {
            Ok(()) => Ok(()),
            Err(HintedFault { fault, hint }) => {
                let hint = self.with_met(alloc, &fault, hint).or(refused);
                Err(HintedFault { fault, hint })
            }
        }
    }

    // How many nodes the certificate has by now: each child that was looked at, and the root of each lemma.
    fn nodes(&self) -> u64 {
        let children = self.children.load(Ordering::Relaxed);
        let lemmas = self.lemmas.load(Ordering::Relaxed);
        children.saturating_add(lemmas)
    }

    // Says how far it is after this many seconds.
    fn tell(&self, seconds: u64) {
        let children = self.children.load(Ordering::Relaxed);
        let lemmas = self.lemmas.load(Ordering::Relaxed);
        let waiting = self.waiting.load(Ordering::Relaxed);
        let met = self.met.load(Ordering::Relaxed);
        let _ = eprintln!(self.turns.rt;
            "solve: {seconds} s, {children} children looked at, {lemmas} lemmas done, {waiting} open, \
             {met} arrangements"
        );
    }

    // Says once that the certificate is too long, as soon as its nodes show it.
    fn tell_of_length(&self) {
        let is_too_long = self.nodes() > u64::from(MOST_BYTES) / LEAST_NODE_LEN;
        if is_too_long && !self.is_too_long.swap(true, Ordering::Relaxed) {
            let _ = eprintln!(self.turns.rt; "solve: the certificate is longer than check reads");
        }
    }

    fn tell_in_turn(&self) {
        if let Some(seconds) = self.turns.take() {
            self.tell(seconds);
            self.tell_of_length();
        }
    }
}

impl<R: Clock + Eprint> Watch for SolveProgress<'_, R> {
    fn looked(&self, children: u32, arrangements: u32) {
        self.children
            .fetch_add(u64::from(children), Ordering::Relaxed);
        self.met
            .fetch_add(u64::from(arrangements), Ordering::Relaxed);
        self.tell_in_turn();
    }

    fn searched(&self, waiting: u64) {
        self.lemmas.fetch_add(1, Ordering::Relaxed);
        self.waiting.store(waiting, Ordering::Relaxed);
        self.tell_in_turn();
    }

    fn gave_up(&self, pairs: usize) {
        if let Some(seconds) = self.turns.passed() {
            self.tell(seconds);
            let _ = eprintln!(self.turns.rt;
                "solve: the fuel of a lemma of {pairs} pairs is spent"
            );
        }
    }
}

impl<R: Clock + Eprint> SolveWatch for SolveProgress<'_, R> {
    fn expects_many(&self, advice: &str) {
        let _ = eprintln!(self.turns.rt; "solve: {advice}");
    }

    fn checks(&self) {
        if let Some(seconds) = self.turns.passed() {
            self.tell(seconds);
            let _ = eprintln!(self.turns.rt; "solve: checks what was found");
        }
    }

    fn refuses(&self, answer: &[u8]) {
        if let Ok(line) = str::from_utf8(answer) {
            let _ = eprint!(self.turns.rt; "{line}");
        }
    }

    fn made(&self, list: usize, certificate: usize) {
        let Some(seconds) = self.turns.passed() else {
            return;
        };
        self.tell(seconds);
        let nodes = self.nodes();
        let _ = eprintln!(self.turns.rt;
            "solve: a list of {list} bytes, a certificate of {nodes} nodes and {certificate} bytes"
        );
        if list > MOST_BYTES as usize || certificate > MOST_BYTES as usize {
            let _ = eprintln!(self.turns.rt; "solve: that is more than check reads");
        }
    }
}

/// Says how far a search for some arrangements is: how many passes its workers have begun, and the most arrangements
/// that one of them has found.
#[derive(Drop)]
pub struct FindProgress<'a, R: Clock + Eprint> {
    turns: Turns<'a, R>,
    passes: AtomicU64,
    arrangements: AtomicU64,
}

impl<'a, R: Clock + Eprint> FindProgress<'a, R> {
    /// Says how far it is if `asked`, otherwise nothing.
    pub fn new(rt: &'a R, asked: bool) -> FindProgress<'a, R> {
        FindProgress {
            turns: Turns::new(rt, asked),
            passes: AtomicU64::new(0),
            arrangements: AtomicU64::new(0),
        }
    }

    // Says how far it is, if it is the caller's turn.
    fn tell(&self) {
        if let Some(seconds) = self.turns.take() {
            let passes = self.passes.load(Ordering::Relaxed);
            let arrangements = self.arrangements.load(Ordering::Relaxed);
            let _ = eprintln!(self.turns.rt;
                "find: {seconds} s, {passes} passes, {arrangements} arrangements"
            );
        }
    }
}

impl<R: Clock + Eprint> FindWatch for FindProgress<'_, R> {
    fn begins(&self, _fuel: Option<u64>) {
        self.passes.fetch_add(1, Ordering::Relaxed);
        self.tell();
    }

    fn goes_on(&self) {
        self.tell();
    }

    fn found(&self, arrangements: usize) {
        let found = arrangements as u64;
        if found > self.arrangements.load(Ordering::Relaxed) {
            self.arrangements.store(found, Ordering::Relaxed);
        }
        self.tell();
    }
}

/// Says which of the puzzles that were drawn was the last that won't do, and why; and while the arrangements of one are
/// counted, how many subtrees of that search are done.
#[derive(Drop)]
pub struct GenerateProgress<'a, R: Clock + Eprint> {
    turns: Turns<'a, R>,
    tries: u32,
    // why the last puzzle won't do, if one won't
    flaw: Cell<Option<Flaw>>,
    // whether a count has begun; the first is told of at once, since it may be long
    has_counted: Cell<bool>,
    subtrees: Cell<u64>,
    done: Cell<u64>,
    arrangements: Cell<u64>,
}

impl<'a, R: Clock + Eprint> GenerateProgress<'a, R> {
    /// Says how far it is if `asked`, otherwise nothing. At most so many puzzles are drawn.
    pub fn new(rt: &'a R, tries: u32, asked: bool) -> GenerateProgress<'a, R> {
        GenerateProgress {
            turns: Turns::new(rt, asked),
            tries,
            flaw: Cell::new(None),
            has_counted: Cell::new(false),
            subtrees: Cell::new(0),
            done: Cell::new(0),
            arrangements: Cell::new(0),
        }
    }

    // Why the last puzzle that was drawn won't do; `None` where none was drawn.
    pub(crate) fn last_flaw(&self) -> Option<Flaw> {
        self.flaw.get()
    }

    // Says how far a count is after so many seconds, if it is to be said.
    fn tell_of_count(&self, seconds: Option<u64>) {
        let Some(seconds) = seconds else {
            return;
        };
        let done = self.done.get();
        let subtrees = self.subtrees.get();
        let arrangements = self.arrangements.get();
        let _ = eprintln!(self.turns.rt;
            "generate: {seconds} s, counts a puzzle's arrangements: {done} of {subtrees} subtrees, {arrangements} arrangements"
        );
    }
}

impl<R: Clock + Eprint> CensusWatch for GenerateProgress<'_, R> {
    fn begins(&self, branches: usize) {
        self.subtrees.set(branches as u64);
        self.done.set(0);
        self.arrangements.set(0);
        let seconds = if self.has_counted.get() {
            self.turns.take()
        } else {
            self.turns.passed()
        };
        self.has_counted.set(true);
        self.tell_of_count(seconds);
    }

    fn counted(&self, arrangements: u64) {
        self.done.set(self.done.get().saturating_add(1));
        self.arrangements
            .set(self.arrangements.get().saturating_add(arrangements));
        self.tell_of_count(self.turns.take());
    }
}

impl<R: Clock + Eprint> MakerWatch for GenerateProgress<'_, R> {
    fn failed(&self, number: u32, flaw: Flaw) {
        self.flaw.set(Some(flaw));
        if let Some(_) = self.turns.take() {
            let tries = self.tries;
            let _ = eprintln!(self.turns.rt; "generate: try {number} of {tries}, {flaw}");
        }
    }
}

/// Says how far a count by a search is: how many of its subtrees are done, how many arrangements they have, and about
/// how long the others will take, at the pace of those that are done.
#[derive(Drop)]
pub struct CensusProgress<'a, R: Clock + Eprint> {
    turns: Turns<'a, R>,
    subtrees: AtomicU64,
    done: AtomicU64,
    arrangements: AtomicU64,
}

impl<'a, R: Clock + Eprint> CensusProgress<'a, R> {
    /// Says how far it is if `asked`, otherwise nothing.
    pub fn new(rt: &'a R, asked: bool) -> CensusProgress<'a, R> {
        CensusProgress {
            turns: Turns::new(rt, asked),
            subtrees: AtomicU64::new(0),
            done: AtomicU64::new(0),
            arrangements: AtomicU64::new(0),
        }
    }

    // Says how far it is after this many seconds.
    fn tell(&self, seconds: u64) {
        let subtrees = self.subtrees.load(Ordering::Relaxed);
        let done = self.done.load(Ordering::Relaxed);
        let arrangements = self.arrangements.load(Ordering::Relaxed);
        let left = seconds_left(seconds, done, subtrees);
        let _ = eprintln!(self.turns.rt;
            "count: {seconds} s, {done} of {subtrees} subtrees, {arrangements} arrangements, about {left} s left"
        );
    }
}

// How many seconds it takes until all are done, given how many were done in how many seconds.
fn seconds_left(seconds: u64, done: u64, all: u64) -> u64
    ensures { result ≡ min (seconds * (all - done)) (2 ^ 64 - 1) / max done 1 }
{
    let left = all.saturating_sub(done);
    seconds.saturating_mul(left) / done.max(1)
}

impl<R: Clock + Eprint> CensusWatch for CensusProgress<'_, R> {
    fn begins(&self, branches: usize) {
        self.subtrees.store(branches as u64, Ordering::Relaxed);
    }

    fn counted(&self, arrangements: u64) {
        self.arrangements.fetch_add(arrangements, Ordering::Relaxed);
        let done = self.done.fetch_add(1, Ordering::Relaxed).saturating_add(1);
        let seconds = if done == self.subtrees.load(Ordering::Relaxed) {
            self.turns.passed()
        } else {
            self.turns.take()
        };
        if let Some(seconds) = seconds {
            self.tell(seconds);
        }
    }
}
