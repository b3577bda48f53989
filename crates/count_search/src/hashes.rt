//! A hash of branches, by which splits are told apart.

ghost use Rattle.std.specs.Prelude.{◌≡◌};
ghost use Rattle.count_search.specs.Hash.{hash_branch, hash_of, hash_with};

use crate::branches::Branch;

// What the hash begins with, and what it multiplies by.
const FIRST: u64 = 14_695_981_039_346_656_037;

const PRIME: u64 = 1_099_511_628_211;

/// Returns a hash of these branches in their order, to see whether two calls made the same split. Different splits may
/// have the same hash. It is FNV-1a of 64 bits (Fowler, Noll and Vo), over numbers instead of bytes: for each branch
/// its weight, how many options it has chosen, and these options.
pub fn hash_of(branches: &[Branch]) -> u64
    ensures { result ≡ hash_of branches.now }
{
    let mut hash = FIRST;
    for branch in branches {
        hash = hash_branch(hash, branch);
    }
    hash
}

// The hash with one more branch.
fn hash_branch(before: u64, branch: &Branch) -> u64
    ensures { result ≡ hash_branch before branch.now }
{
    let chosen = branch.chosen();
    let mut hash = hash_with(hash_with(before, branch.weight()), chosen.len() as u64);
    for option in chosen {
        hash = hash_with(hash, u64::from(*option));
    }
    hash
}

// The hash with one more number.
fn hash_with(hash: u64, number: u64) -> u64
    ensures { result ≡ hash_with hash number }
{
    (hash ^ number).wrapping_mul(PRIME)
}
