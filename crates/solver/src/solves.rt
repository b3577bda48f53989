//! Solves a puzzle.

ghost use Rattle.std.specs.Prelude.{◌≡◌, ◌≢◌, ◌≤◌, ◌<◌, ◌+◌, ◌^◌, ◌++◌, ◌∷◌, [], All, IfOk, IfErr, IsErrOf, OnOk};
ghost use Rattle.std.specs.Prelude.{length, vec_len};
ghost use Rattle.match_limits.specs.declared.TheConstants.{MOST_DEPTH, MOST_FUEL, MOST_SYMMETRIES, MOST_WORKERS};
ghost use Rattle.match_limits.specs.declared.ranges.TheConstants.{SECOND};
ghost use Rattle.match_puzzle.specs.Arrangement.{IsArrangement, AreArrangements};
ghost use Rattle.match_puzzle.specs.declared.placements.Placement.{Placement};
ghost use Rattle.puzzle_symmetry.specs.Symmetry.{IsSymmetry};
ghost use Rattle.match_text.specs.ListSpelling.{IsListWithin};
ghost use Rattle.cert_text.specs.CertificateSpelling.{IsCertificateWithin};
ghost use Rattle.cert_text.specs.Writing.{said_by};
ghost use Rattle.piece_desk.specs.FlatDesks.{IsOfFlat};
ghost use Rattle.xcc_form.specs.Options.{HasTooManyEntries};
ghost use Rattle.match_symmetry.specs.Suggestions.{IsAskedFor};
ghost use Rattle.solver.specs.Solving.{IsOutcomeOf, IsSearchedBy, IsSolvedBy};

use crate::branches::OpenBranch;
use crate::faults::SolveFault;
use crate::searches::{Searched, Searches};
use crate::shared::Shared;
use crate::strategy::items::ItemRule;
use crate::strategy::plans::{Plan, Planner};
use crate::strategy::roots::{depth_that_suits, plan_by_dives};
use cert_text::within_limits_with;
use cert_tree::{AssembleFault, Certificate};
use giving_crew::run_live;
use match_limits::{Depth, Fuel, MOST_ARRANGEMENTS, MOST_LEMMAS, Within, Workers};
use match_puzzle::{Arrangement, Puzzle};
use match_symmetry::{Suggested, suggest_of};
use match_text::list_within_limits;
use piece_desk::{FlatDesk, FlatReceipt};
use puzzle_symmetry::{Symmetry, SymmetryFault, SymmetryLine};
use std::alloc::{AllocError, Global};
use std::sync::Wait;
use std::sync::atomic::{AtomicBool, AtomicU64};
use std::thread::Threads;
use steal_crew::Crew;
use xcc_dance::{Unwatched, Watch};
use xcc_form::{Xcc, compile};

/// How a puzzle is searched.
#[derive(Clone, Copy)]
pub struct SearchPlan {
    /// How many levels of branches become lemmas before the search begins; `None`: as many as suit the puzzle, 1 or 3.
    pub depth: Option<Depth>,
    /// The most branch nodes that a lemma may have.
    pub fuel: Fuel,
    pub workers: Workers,
    /// The symmetries by which lemmas may be cited, where the depth isn't 0.
    pub symmetries: Suggested,
}

/// Arrangements of a puzzle, a certificate for them, and who searched which lemma: for each worker, the numbers of the
/// lemmas that it searched, as they were on the desk, where the root is 0.
#[derive(Drop)]
pub struct Solved {
    pub list: Vec<Arrangement>,
    pub certificate: Certificate,
    pub tally: Vec<Vec<u32>>,
}

// How many levels are asked for, if a number is.
fn levels_of(depth: Option<Depth>) -> Option<u8> {
    match depth {
        Some(depth) => Some(depth.get() as u8),
        None => None,
    }
}

// The symmetries by which lemmas may be cited.
fn lines_of(
    alloc: Global,
    puzzle: &Puzzle,
    levels: Option<u8>,
    asked: Suggested,
) -> Result<Vec<SymmetryLine>, AllocError>
    ensures symmetries { IfOk result (λ v. All (IsSymmetry puzzle.now) v.items) }
    ensures asked_for { IfOk result (λ v. All (IsAskedFor asked) v.items) }
    ensures few { IfOk result (λ v. vec_len v ≤ MOST_SYMMETRIES) }
{
    if levels == Some(0) {
        return Ok(Vec::new(alloc));
    }
    let lines = suggest_of(alloc, puzzle, asked)?;
    Ok(lines)
}

fn symmetries_of<'a>(
    alloc: Global,
    puzzle: &'a Puzzle,
    lines: &[SymmetryLine],
) -> Result<Vec<Symmetry<'a>>, AllocError>
    requires { All (IsSymmetry puzzle.now) lines.now }
{
    let mut symmetries = Vec::with_capacity(alloc, lines.len())?;
    for line in lines {
        match Symmetry::new(alloc, puzzle, line) {
            Ok(symmetry) => symmetries.push(symmetry)?,
            Err(SymmetryFault::Memory) => return Err(AllocError),
            Err(_) => unreachable!(),
        }
    }
    Ok(symmetries)
}

// The depth that suits the puzzle, as the rule says by which all searches choose their items.
fn suited_depth<'a, R: Threads + Sync>(
    rt: &R,
    alloc: Global,
    xcc: &'a Xcc<'a>,
    lines: &[SymmetryLine],
) -> Result<u8, AllocError>
    requires lines { All (IsSymmetry xcc.now.puzzle) lines.now }
{
    let symmetries = symmetries_of(alloc, xcc.puzzle(), lines)?;
    let item_rule = ItemRule::least(alloc, xcc, &symmetries)?;
    let planner = Planner {
        alloc,
        xcc,
        symmetries: &symmetries,
        item_rule,
    };
    depth_that_suits(rt, planner)
}

// The branches that become lemmas first, and the rule by which all searches choose their items.
fn plan_of<'a, R: Threads + Sync>(
    rt: &R,
    alloc: Global,
    xcc: &'a Xcc<'a>,
    lines: &[SymmetryLine],
    depth: u8,
    workers: u8,
) -> Result<Plan, AllocError>
    requires lines { All (IsSymmetry xcc.now.puzzle) lines.now }
    requires workers { (1 ≤ workers) × (workers ≤ MOST_WORKERS) }
{
    let symmetries = symmetries_of(alloc, xcc.puzzle(), lines)?;
    let item_rule = if depth == 0 && workers == 1 {
        ItemRule::fewest()
    } else {
        ItemRule::least(alloc, xcc, &symmetries)?
    };
    let planner = Planner {
        alloc,
        xcc,
        symmetries: &symmetries,
        item_rule,
    };
    plan_by_dives(rt, planner, depth, workers)
}

// Searches from the empty prefix, and each branch that is given away.
fn search_all<R: Threads + Wait + Sync, W: Watch + Sync>(
    rt: &R,
    xcc: &Xcc<'_>,
    desk: &FlatDesk,
    shared: &Shared<'_>,
    watch: &W,
) -> Result<Crew<Searched>, AllocError>
    requires { (1 ≤ shared.now.workers) × (shared.now.workers ≤ MOST_WORKERS) }
    ensures { IfOk result (λ c. IsSearchedBy xcc.now.puzzle desk.now shared.now.workers c.results.items c.tallies.items) }
{
    let (alloc, workers) = (shared.alloc, shared.workers);
    let searches = Searches {
        rt,
        xcc,
        desk,
        shared,
        watch,
        is_over: AtomicBool::new(false),
    };
    let root = OpenBranch {
        pairs: Vec::new(alloc),
    };
    let crew = run_live(rt, alloc, &searches, root, MOST_LEMMAS, workers)?;
    Ok(crew)
}

// What all jobs posted and found, in the order of their numbers.
#[derive(Drop)]
struct Collected {
    receipts: Vec<FlatReceipt>,
    // for each lemma, the number of the first arrangement that it found
    first: Vec<u32>,
    listed: Vec<Arrangement>,
}

// Adds what the next lemma found.
fn add(
    collected: &mut Collected,
    receipt: FlatReceipt,
    mut found: Vec<Arrangement>,
) -> Result<(), AllocError>
    requires few { vec_len collected.old.listed + vec_len found ≤ MOST_ARRANGEMENTS }
    ensures receipts { OnOk result (collected.new.receipts.items ≡ collected.old.receipts.items ++ receipt ∷ []) }
    ensures first { OnOk result (collected.new.first.items
        ≡ collected.old.first.items ++ vec_len collected.old.listed ∷ []) }
    ensures listed { OnOk result (collected.new.listed.items ≡ collected.old.listed.items ++ found.items) }
{
    collected.receipts.push(receipt)?;
    collected.first.push(collected.listed.len() as u32)?;
    collected.listed.append(&mut found)?;
    Ok(())
}

// The receipt of the next lemma, and what it found, if that may be listed with what was collected.
//
// The puzzle and the desk are there for the clauses alone. A receipt doesn't know its desk, and an arrangement doesn't
// know its puzzle: no other value here says of which they are.
fn receipt_of(
    _puzzle: &Puzzle,
    _desk: &FlatDesk,
    collected: &Collected,
    searched: Searched,
) -> Result<(FlatReceipt, Vec<Arrangement>), SolveFault>
    requires outcome { IsOutcomeOf _puzzle.now _desk.now searched }
    requires few { vec_len collected.now.listed ≤ MOST_ARRANGEMENTS }
    ensures receipt { IfOk result (λ r. IsOfFlat _desk.now r.0) }
    ensures found { IfOk result (λ r. AreArrangements _puzzle.now r.1.items) }
    ensures few { IfOk result (λ r. vec_len collected.now.listed + vec_len r.1 ≤ MOST_ARRANGEMENTS) }
    ensures fault { IfErr result (λ f. f ≢ SolveFault.TooMany) }
{
    match searched {
        Searched::Posted { receipt, found } => {
            if collected.listed.len() + found.len() > MOST_ARRANGEMENTS as usize {
                return Err(SolveFault::Full);
            }
            Ok((receipt, found))
        }
        Searched::GaveUp => Err(SolveFault::GaveUp),
        Searched::Full => Err(SolveFault::Full),
    }
}

// What all lemmas found, in the order of their numbers.
//
// The puzzle and the desk are there for the clauses alone: no other value here says of which puzzle the arrangements
// are, and of which desk the receipts.
fn collect(
    alloc: Global,
    _puzzle: &Puzzle,
    _desk: &FlatDesk,
    results: Vec<Searched>,
) -> Result<Collected, SolveFault>
    requires { All (IsOutcomeOf _puzzle.now _desk.now) results.items }
    ensures receipts { IfOk result (λ c. All (λ receipt. IsOfFlat _desk.now receipt) c.receipts.items) }
    ensures many { IfOk result (λ c. vec_len c.first ≡ vec_len results) }
    ensures first { IfOk result (λ c. All (λ n. n ≤ MOST_ARRANGEMENTS) c.first.items) }
    ensures listed { IfOk result (λ c. AreArrangements _puzzle.now c.listed.items) }
    ensures fault { IfErr result (λ f. f ≢ SolveFault.TooMany) }
{
    let mut collected = Collected {
        receipts: Vec::new(alloc),
        first: Vec::new(alloc),
        listed: Vec::new(alloc),
    };
    for searched in results {
        let (receipt, found) = receipt_of(_puzzle, _desk, &collected, searched)?;
        add(&mut collected, receipt, found)?;
    }
    Ok(collected)
}

// The certificate of what was posted, turned round: the root comes last.
fn certificate_of<R: Threads + Sync>(
    rt: &R,
    shared: &Shared<'_>,
    desk: &FlatDesk,
    collected: &Collected,
    lines: Vec<SymmetryLine>,
) -> Result<Certificate, SolveFault>
    requires workers { (1 ≤ shared.now.workers) × (shared.now.workers ≤ MOST_WORKERS) }
    requires receipts { All (λ receipt. IsOfFlat desk.now receipt) collected.now.receipts.items }
    requires count { vec_len collected.now.first ≤ MOST_LEMMAS }
    requires first { All (λ n. n ≤ MOST_ARRANGEMENTS) collected.now.first.items }
    requires lines { length lines.items < 2 ^ 32 }
    ensures symmetries { IfOk result (λ c. c.symmetries ≡ lines.items) }
    ensures within { IfOk result (λ c. IsCertificateWithin (said_by 2 c)) }
    ensures many { IfOk result (λ c. length c.lemmas ≡ vec_len collected.now.first) }
    ensures fault { IfErr result (λ f. f ≢ SolveFault.TooMany) }
{
    let Collected {
        receipts,
        first,
        ..
    } = collected;
    let (alloc, workers) = (shared.alloc, shared.workers);
    let count = first.len() as u32;
    let gathered = desk.gather(rt, alloc, receipts, lines, count, first, workers);
    let certificate = match gathered {
        Ok(certificate) => certificate,
        Err(AssembleFault::Memory) => return Err(SolveFault::Memory),
        Err(_) => return Err(SolveFault::GaveUp),
    };
    if !within_limits_with(rt, alloc, 2, &certificate, workers)? {
        return Err(SolveFault::Full);
    }
    Ok(certificate)
}

// The list of what all jobs found, and its certificate.
fn put_together<R: Threads + Sync>(
    rt: &R,
    puzzle: &Puzzle,
    shared: &Shared<'_>,
    desk: &FlatDesk,
    results: Vec<Searched>,
    lines: Vec<SymmetryLine>,
) -> Result<(Vec<Arrangement>, Certificate), SolveFault>
    requires workers { (1 ≤ shared.now.workers) × (shared.now.workers ≤ MOST_WORKERS) }
    requires outcomes { All (IsOutcomeOf puzzle.now desk.now) results.items }
    requires few { vec_len results ≤ MOST_LEMMAS }
    requires lines { vec_len lines ≤ MOST_SYMMETRIES }
    ensures arrangements { IfOk result (λ r. AreArrangements puzzle.now r.0.items) }
    ensures list { IfOk result (λ r. IsListWithin SECOND r.0.items) }
    ensures symmetries { IfOk result (λ r. r.1.symmetries ≡ lines.items) }
    ensures certificate { IfOk result (λ r. IsCertificateWithin (said_by 2 r.1)) }
    ensures many { IfOk result (λ r. length r.1.lemmas ≡ vec_len results) }
    ensures fault { IfErr result (λ f. f ≢ SolveFault.TooMany) }
{
    let collected = collect(shared.alloc, puzzle, desk, results)?;
    if !list_within_limits(&collected.listed) {
        return Err(SolveFault::Full);
    }
    let certificate = certificate_of(rt, shared, desk, &collected, lines)?;
    Ok((collected.listed, certificate))
}

// Searches by the plan, and puts together the outcomes of all jobs.
fn solve_by<R: Threads + Wait + Sync, W: Watch + Sync>(
    rt: &R,
    xcc: &Xcc<'_>,
    shared: &Shared<'_>,
    lines: Vec<SymmetryLine>,
    watch: &W,
) -> Result<Solved, SolveFault>
    requires workers { (1 ≤ shared.now.workers) × (shared.now.workers ≤ MOST_WORKERS) }
    requires lines { vec_len lines ≤ MOST_SYMMETRIES }
    ensures solved { IfOk result (λ s. IsSolvedBy xcc.now.puzzle shared.now.workers
        s.list.items s.tally.items s.certificate) }
    ensures symmetries { IfOk result (λ s. s.certificate.symmetries ≡ lines.items) }
    ensures fault { IfErr result (λ f. f ≢ SolveFault.TooMany) }
{
    let desk = FlatDesk::new(shared.alloc)?;
    let (results, tally) = search_all(rt, xcc, &desk, shared, watch)?.into_parts();
    let (list, certificate) = put_together(rt, xcc.puzzle(), shared, &desk, results, lines)?;
    Ok(Solved {
        list,
        certificate,
        tally,
    })
}

/// Searches for all arrangements of the puzzle with 1 to 64 workers, and makes a certificate for their list. Each lemma
/// (a numbered claim with a tree of cases) may have at most `fuel` branch nodes, 1 to 1,000,000. The list has what each
/// lemma found, in the order in which it found it; the lemmas come in the order of their numbers on the desk, where
/// they are put.
///
/// - With depth 0 and one worker there is one lemma, and no symmetry.
/// - With a depth from 1 to 3, up to 64 branches in the first `depth` levels become lemmas before the search begins. It
///   looks for symmetries first. A lemma is cited wherever its prefix, or an image of it under a symmetry, is part of
///   what is placed.
/// - Several workers give each other branches. With several workers or levels, a lemma also gives branches away when it
///   comes near the end of its fuel.
///
/// `GaveUp` comes where the fuel of a lemma is too little, `TooMany` where the puzzle's options have over 200,000 items
/// together, `Full` where over 1,000,000 arrangements were found.
pub fn solve_with<R: Threads + Wait + Sync>(
    rt: &R,
    alloc: Global,
    puzzle: &Puzzle,
    depth: u8,
    fuel: u32,
    workers: u8,
) -> Result<Solved, SolveFault>
    requires depth { depth ≤ MOST_DEPTH }
    requires fuel { (1 ≤ fuel) × (fuel ≤ MOST_FUEL) }
    requires workers { (1 ≤ workers) × (workers ≤ MOST_WORKERS) }
    ensures solved { IfOk result (λ s. IsSolvedBy puzzle.now workers s.list.items s.tally.items s.certificate) }
    ensures too_many { IsErrOf result SolveFault.TooMany → HasTooManyEntries puzzle.now }
{
    let search = SearchPlan {
        depth: Some(Within::new(u32::from(depth))),
        fuel: Within::new(fuel),
        workers: Within::new(u32::from(workers)),
        symmetries: Suggested::All,
    };
    solve_watched(rt, alloc, puzzle, search, &Unwatched)
}

/// Searches as [`solve_with`] does, by this plan; the watch is told of the search while it runs. Each symmetry of the
/// certificate is one of those that the plan asks for.
pub fn solve_watched<R: Threads + Wait + Sync, W: Watch + Sync>(
    rt: &R,
    alloc: Global,
    puzzle: &Puzzle,
    search: SearchPlan,
    watch: &W,
) -> Result<Solved, SolveFault>
    ensures solved { IfOk result (λ s. IsSolvedBy puzzle.now search.workers s.list.items s.tally.items s.certificate) }
    ensures asked_for { IfOk result (λ s. All (IsAskedFor search.symmetries) s.certificate.symmetries) }
    ensures too_many { IsErrOf result SolveFault.TooMany → HasTooManyEntries puzzle.now }
{
    let workers = search.workers.get() as u8;
    let xcc = compile(alloc, puzzle)?;
    let levels = levels_of(search.depth);
    let lines = lines_of(alloc, puzzle, levels, search.symmetries)?;
    let depth = match levels {
        Some(levels) => levels,
        None => suited_depth(rt, alloc, &xcc, &lines)?,
    };
    let plan = plan_of(rt, alloc, &xcc, &lines, depth, workers)?;
    let shared = Shared {
        alloc,
        plan: &plan,
        fuel: search.fuel.get(),
        workers,
        waiting: AtomicU64::new(0),
    };
    solve_by(rt, &xcc, &shared, lines, watch)
}
