//! The order in which branches are counted.

ghost use Rattle.std.specs.Prelude.{◌≡◌, IfOk, length};
ghost use Rattle.xcc_form.specs.Options.{Compiled};
ghost use Rattle.count_search.specs.Branches.{AllChoose, StandFor};
ghost use Rattle.xcc_form.specs.Chosen.{IsSelection};

use crate::branches::Branch;
use std::alloc::{AllocError, Global};
use std::mem::swap;

// This many branches or fewer stay next to each other.
const NEAR: usize = 64;

// Halving this often leaves few, even of the most branches.
const MOST_HALVINGS: u8 = 16;

// These branches in another order, so that those that are counted first come from all over the search. Neighbouring
// branches need about the same work, and distant ones don't. So the share of the branches that are counted shows the
// share of the work that is done.
//
// An error comes where memory is refused.
pub(crate) fn spread(alloc: Global, branches: Vec<Branch>) -> Result<Vec<Branch>, AllocError>
    ensures stand { IfOk result (λ v. (x : Compiled) → StandFor x v.items branches.items) }
    ensures selections { IfOk result (λ v. (x : Compiled) → AllChoose (IsSelection x) branches.items
        → AllChoose (IsSelection x) v.items) }
    ensures long { IfOk result (λ v. length v.items ≡ length branches.items) }
{
    let mut spread = branches;
    let mut near = spread.len();
    for _ in 0..MOST_HALVINGS {
        if near <= NEAR {
            break;
        }
        spread = halves(alloc, spread)?;
        near /= 2;
    }
    Ok(spread)
}

// Every second branch, and then the others.
fn halves(alloc: Global, branches: Vec<Branch>) -> Result<Vec<Branch>, AllocError>
    ensures stand { IfOk result (λ v. (x : Compiled) → StandFor x v.items branches.items) }
    ensures selections { IfOk result (λ v. (x : Compiled) → AllChoose (IsSelection x) branches.items
        → AllChoose (IsSelection x) v.items) }
    ensures long { IfOk result (λ v. length v.items ≡ length branches.items) }
{
    let mut these = Vec::new(alloc);
    let mut others = Vec::new(alloc);
    for branch in branches {
        these.push(branch)?;
        swap(&mut these, &mut others);
    }
    these.append(&mut others)?;
    Ok(these)
}
