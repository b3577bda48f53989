//! Parts of a split.

ghost use Rattle.std.specs.Prelude.{◌≡◌, ◌<◌, IfOk};
ghost use Rattle.count_search.specs.Branches.{every};

use crate::branches::Branch;
use std::alloc::{AllocError, Global};

/// Deals the branches in turn to `parts` parts, and returns copies of those of part `part`, from 0.
///
/// An error comes where memory is refused.
pub fn part_of(
    alloc: Global,
    branches: &[Branch],
    part: u32,
    parts: u32,
) -> Result<Vec<Branch>, AllocError>
    requires { part < parts }
    ensures { IfOk result (λ v. v.items ≡ every parts part branches.now) }
{
    let mut dealt = Vec::new(alloc);
    let mut next = part as usize;
    while next < branches.len() {
        dealt.push(copy_of(alloc, &branches[next])?)?;
        next += parts as usize;
    }
    Ok(dealt)
}

fn copy_of(alloc: Global, branch: &Branch) -> Result<Branch, AllocError>
    ensures { IfOk result (λ copy. copy ≡ branch.now) }
{
    let chosen = branch.chosen().to_vec(alloc)?;
    Ok(Branch::new(chosen, branch.weight()))
}
