//! The passes of one worker, until one is not spent.

ghost use Rattle.std.specs.Prelude.{◌≡◌, ◌≢◌, [], None, IfOk, IfSome, IsErrOf, IsSome, map};
ghost use Rattle.puzzle_symmetry.specs.Motion.{line_of};
ghost use Rattle.symmetry_orbits.specs.Products.{AreSymmetriesOf};
ghost use Rattle.find_search.specs.Finding.{AreFirstFound, HasTooLargeOrbit};

use crate::ends::Ended;
use crate::faults::FindFault;
use crate::listed::Listed;
use crate::searches::{Progress, Search};
use crate::walks::walk;
use crate::watches::FindWatch;
use count_search::BalancedSets;
use match_puzzle::Arrangement;
use rand_core::SeedableRng;
use rand_xoshiro::Xoshiro256PlusPlus;

// How many nodes the first pass may visit while it finds nothing. Each further one may visit 1.3 times as many.
const FIRST_FUEL: u64 = 1000;

// The number of passes with such a bound. The one after them has none.
const BOUNDED_PASSES: u32 = 64;

impl<'a, 's, 'w, W: FindWatch> Search<'a, 's, 'w, W> {
    /// Returns what the worker finds whose random numbers begin with this seed; `None` where another worker was done
    /// before.
    pub(crate) fn found_by(&self, seed: u64) -> Result<Option<Vec<Arrangement>>, FindFault>
        requires { AreSymmetriesOf self.now.find.xcc.now.puzzle self.now.find.symmetries.now }
        ensures found { let find = self.now.find in IfOk result (λ o. IfSome o (λ v.
            AreFirstFound find.most find.xcc.now.puzzle (map line_of find.symmetries.now) v.items)) }
        ensures alone { self.now.is_over ≡ None → IfOk result IsSome }
        ensures too_many { let find = self.now.find in IsErrOf result FindFault.TooMany
            → HasTooLargeOrbit find.xcc.now.puzzle (map line_of find.symmetries.now) }
    {
        let mut engine = BalancedSets::new(self.alloc, self.find.xcc)?;
        let mut progress = Progress {
            listed: Listed::new(self.alloc, self.hasher),
            random: Xoshiro256PlusPlus::seed_from_u64(seed),
            nodes: 0,
            fuel: None,
        };
        let ended = self.run_passes(&mut engine, &mut progress)?;
        if ended == Ended::Spent {
            return Ok(None);
        }
        Ok(Some(progress.listed.arrangements))
    }

    // Passes until one is not spent, or another worker is done. What the last one lists is listed then.
    fn run_passes(
        &self,
        engine: &mut BalancedSets<'_>,
        progress: &mut Progress,
    ) -> Result<Ended, FindFault>
        requires symmetries { AreSymmetriesOf self.now.find.xcc.now.puzzle self.now.find.symmetries.now }
        requires root { engine.old ≡ record { compiled = self.now.find.xcc.now; chosen = [] } }
        ensures found { let find = self.now.find in IfOk result (λ ended. ended ≢ Ended.Spent
            → AreFirstFound find.most find.xcc.now.puzzle (map line_of find.symmetries.now)
            progress.new.listed.arrangements.items) }
        ensures alone { self.now.is_over ≡ None → IfOk result (λ ended. ended ≢ Ended.Spent) }
        ensures too_many { let find = self.now.find in IsErrOf result FindFault.TooMany
            → HasTooLargeOrbit find.xcc.now.puzzle (map line_of find.symmetries.now) }
    {
        let mut fuel = FIRST_FUEL;
        for _ in 0..BOUNDED_PASSES {
            let ended = self.run_pass(engine, progress, Some(fuel))?;
            if ended != Ended::Spent || self.is_over() {
                return Ok(ended);
            }
            fuel = fuel.saturating_add(fuel.saturating_mul(3) / 10);
        }
        self.run_pass(engine, progress, None)
    }

    // A pass, which begins with nothing listed.
    fn run_pass(
        &self,
        engine: &mut BalancedSets<'_>,
        progress: &mut Progress,
        fuel: Option<u64>,
    ) -> Result<Ended, FindFault>
        requires symmetries { AreSymmetriesOf self.now.find.xcc.now.puzzle self.now.find.symmetries.now }
        requires root { engine.old ≡ record { compiled = self.now.find.xcc.now; chosen = [] } }
        ensures same { engine.new ≡ engine.old }
        ensures found { let find = self.now.find in IfOk result (λ ended. ended ≢ Ended.Spent
            → AreFirstFound find.most find.xcc.now.puzzle (map line_of find.symmetries.now)
            progress.new.listed.arrangements.items) }
        ensures unspent { fuel ≡ None → self.now.is_over ≡ None → IfOk result (λ ended. ended ≢ Ended.Spent) }
        ensures too_many { let find = self.now.find in IsErrOf result FindFault.TooMany
            → HasTooLargeOrbit find.xcc.now.puzzle (map line_of find.symmetries.now) }
    {
        self.find.watch.begins(fuel);
        progress.listed = Listed::new(self.alloc, self.hasher);
        progress.nodes = 0;
        progress.fuel = fuel;
        walk(engine, self, progress)
    }
}
