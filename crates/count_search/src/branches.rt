//! Branches of a search.

ghost use Rattle.std.specs.Prelude.{◌≡◌, ◌≤◌};
ghost use Rattle.count_search.specs.Branches.{whole};

use std::alloc::Global;
use std::marker::Model;

/// A branch of a search: the chosen options, and a weight. The weight is how many branches with as many arrangements
/// this one stands for, itself among them.
#[derive(Drop)]
pub struct Branch {
    chosen: Vec<u32>,
    weight: u64,
}

impl Model for Branch {
    ghost use Rattle.std.specs.Prelude.{◌≤◌};
    ghost use Rattle.count_search.specs.Branches.{WeightedBranch};

    ghost Value = { WeightedBranch };

    ghost view = { λ b. record { chosen = b.chosen.items; weight = b.weight } };

    ghost invariant = { λ b. 1 ≤ b.weight };
}

impl Branch {
    /// Returns the whole search: nothing is chosen.
    pub fn whole(alloc: Global) -> Branch
        ensures { result ≡ whole }
    {
        Branch::new(Vec::new(alloc), 1)
    }

    /// Makes the branch that chooses these options in this order, and stands for `weight` branches, at least 1.
    pub fn new(chosen: Vec<u32>, weight: u64) -> Branch
        requires { 1 ≤ weight }
        ensures { result ≡ record { chosen = chosen.items; weight = weight } }
    {
        Branch { chosen, weight }
    }

    /// Sets how many branches it stands for, at least 1.
    pub fn weigh(&mut self, weight: u64)
        requires { 1 ≤ weight }
        ensures { self.new ≡ record self.old { weight = weight } }
    {
        self.weight = weight;
    }

    /// Returns the options, in the order of choosing.
    pub fn chosen(&self) -> &[u32]
        ensures { result.now ≡ self.now.chosen }
    {
        &self.chosen
    }

    /// Returns how many branches it stands for: at least 1.
    pub fn weight(&self) -> u64
        ensures value { result ≡ self.now.weight }
        ensures least { 1 ≤ result }
    {
        self.weight
    }
}
