//! A search for some arrangements, by several workers at once.

ghost use Rattle.std.specs.Prelude.{◌≡◌, ◌≤◌, None, Some, IfOk, IfSome, IsErrOf, Contains, map};
ghost use Rattle.match_limits.specs.declared.TheConstants.{MOST_WORKERS};
ghost use Rattle.match_puzzle.specs.Puzzle.{Task};
ghost use Rattle.puzzle_symmetry.specs.Motion.{AreOfPuzzle, line_of};
ghost use Rattle.symmetry_orbits.specs.Products.{AreSymmetriesOf};
ghost use Rattle.puzzle_symmetry.specs.Complete.{AreSymmetries};
ghost use Rattle.find_search.specs.Finding.{AreFirstFound, HasTooLargeOrbit};
ghost use Rattle.find_search.specs.Results.{IsAnswer};

use crate::faults::FindFault;
use crate::searches::Search;
use crate::watches::FindWatch;
use match_puzzle::Arrangement;
use puzzle_symmetry::Symmetry;
use std::alloc::{AllocError, Global};
use std::random::RandomSource;
use std::sync::atomic::{AtomicBool, Ordering};
use std::thread::Threads;
use steal_crew::{Work, run_crew};
use symmetry_orbits::RandomFold;
use xcc_form::Xcc;

/// Some arrangements that are to be found, and who is told meanwhile.
#[derive(Drop)]
pub struct Find<'a, 's, 'w, W: FindWatch> {
    /// The puzzle, compiled.
    pub xcc: &'a Xcc<'a>,
    /// Symmetries of the puzzle. Of arrangements that they take into each other only one is wanted.
    pub symmetries: &'s [Symmetry<'s>],
    /// How many are wanted at most.
    pub most: u32,
    /// With what the random numbers of the first worker begin. Each further worker's begin with one more.
    pub seed: u64,
    pub watch: &'w W,
}

impl<'a, 's, 'w, W: FindWatch> Work for Search<'a, 's, 'w, W> {
    // none where another worker was done before
    type R = Option<Result<Vec<Arrangement>, FindFault>>;

    ghost use Rattle.std.specs.Prelude.{IfSome, map};
    ghost use Rattle.puzzle_symmetry.specs.Motion.{line_of};
    ghost use Rattle.symmetry_orbits.specs.Products.{AreSymmetriesOf};
    ghost use Rattle.find_search.specs.Results.{IsAnswer};

    ghost accepts = { λ w _. AreSymmetriesOf w.find.xcc.now.puzzle w.find.symmetries.now };

    ghost gives = { λ w _ r. IfSome r (IsAnswer w.find.most w.find.xcc.now.puzzle
        (map line_of w.find.symmetries.now)) };

    fn one(&self, number: u32) -> Result<Option<Result<Vec<Arrangement>, FindFault>>, AllocError> {
        let seed = self.find.seed.wrapping_add(u64::from(number));
        let done = match self.found_by(seed) {
            Ok(Some(found)) => Ok(found),
            Ok(None) => return Ok(None),
            Err(fault) => Err(fault),
        };
        if let Some(is_over) = &self.is_over {
            is_over.store(true, Ordering::Relaxed);
        }
        Ok(Some(done))
    }
}

/// Returns arrangements of a puzzle, of which no symmetry takes one to another, at most as many as are wanted. If it
/// returns fewer, there is no other, but for what the symmetries reach from these.
///
/// Each of 1 to 64 workers searches by itself, with random numbers of its own, and what the first one finds that is done
/// is returned. One worker finds the same for one seed each time. It joins threads, one for each worker but the caller.
/// `TooMany` comes only where the symmetries take one arrangement to more than 1,000,000.
pub fn find_with_crew<R: Threads + Sync + RandomSource, W: FindWatch + Sync>(
    rt: &R,
    alloc: Global,
    find: Find<'_, '_, '_, W>,
    workers: u8,
) -> Result<Vec<Arrangement>, FindFault>
    requires symmetries { AreOfPuzzle find.xcc.now.puzzle find.symmetries.now }
    requires workers { (1 ≤ workers) × (workers ≤ MOST_WORKERS) }
    ensures found { let find = find.entry in IfOk result (λ v. AreFirstFound find.most find.xcc.now.puzzle
        (map line_of find.symmetries.now) v.items) }
    ensures too_many { let find = find.entry in IsErrOf result FindFault.TooMany
        → HasTooLargeOrbit find.xcc.now.puzzle (map line_of find.symmetries.now) }
{
    let _puzzle = find.xcc.cells();
    see_symmetries(find.symmetries);
    let mut search = Search {
        alloc,
        find,
        hasher: RandomFold::new(rt),
        is_over: Some(AtomicBool::new(false)),
    };
    let crew = run_crew(rt, alloc, &search, u32::from(workers), workers)?;
    let (results, _tallies) = crew.into_parts();
    match first_some(results) {
        Some(done) => done,
        None => {
            search.is_over = None;
            found_alone(&search)
        }
    }
}

// Each is a symmetry of its puzzle, as its type says.
fn see_symmetries(symmetries: &[Symmetry<'_>])
    ensures { (p : Task) → AreOfPuzzle p symmetries.now → AreSymmetries p (map line_of symmetries.now) }
{
    for symmetry in symmetries {
        let _puzzle = symmetry.puzzle();
    }
}

// The first that there is.
fn first_some<T: Drop>(options: Vec<Option<T>>) -> Option<T>
    ensures { IfSome result (λ x. Contains options.items (Some x)) }
{
    for option in options {
        if let Some(x) = option {
            return Some(x);
        }
    }
    None
}

// What the first worker finds where there is no other.
fn found_alone<W: FindWatch>(search: &Search<'_, '_, '_, W>) -> Result<Vec<Arrangement>, FindFault>
    requires alone { search.now.is_over ≡ None }
    requires symmetries { AreSymmetriesOf search.now.find.xcc.now.puzzle search.now.find.symmetries.now }
    ensures { let find = search.now.find in
        IsAnswer find.most find.xcc.now.puzzle (map line_of find.symmetries.now) result }
{
    match search.found_by(search.find.seed)? {
        Some(found) => Ok(found),
        None => unreachable!(),
    }
}
