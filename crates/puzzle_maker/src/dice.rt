//! Random numbers.

ghost use Rattle.std.specs.Prelude.{◌≡◌, ◌<◌, ◌≤◌, length};
ghost use Rattle.match_limits.specs.declared.TheConstants.{MOST_TILES};

use rand_core::{Rng, SeedableRng};
use rand_xoshiro::Xoshiro256PlusPlus;

/// What random numbers are drawn from. One seed always gives the same.
#[derive(Drop)]
pub(crate) struct Dice {
    random: Xoshiro256PlusPlus,
}

impl Dice {
    /// Dice that begin with this seed.
    pub(crate) fn new(seed: u64) -> Dice {
        Dice {
            random: Xoshiro256PlusPlus::seed_from_u64(seed),
        }
    }

    /// A number below this one.
    pub(crate) fn below(&mut self, count: u16) -> u16
        requires { 0 < count }
        ensures { result < count }
    {
        (self.random.next_u32() % u32::from(count)) as u16
    }

    /// One of so many colours.
    pub(crate) fn colour(&mut self, colours: u8) -> u8
        requires { 0 < colours }
        ensures { result < colours }
    {
        self.below(u16::from(colours)) as u8
    }

    /// Puts up to 256 things in random order.
    pub(crate) fn shuffle<T>(&mut self, things: &mut [T])
        requires { length things.old ≤ MOST_TILES }
        ensures { length things.new ≡ length things.old }
    {
        let count = things.len();
        for place in 0..count {
            let left = (count - place) as u16;
            things.swap(place, place + usize::from(self.below(left)));
        }
    }
}
