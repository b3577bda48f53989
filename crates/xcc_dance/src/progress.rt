//! How far a search is.

ghost use Rattle.std.specs.Prelude.{◌≡◌, ◌<◌, ◌+◌, ◌^◌, ◌++◌, ◌∷◌, [], IfOk, OnErr, length};
ghost use Rattle.cert_tree.specs.Heads.{branch_head, heads_of};
ghost use Rattle.cert_tree.specs.Tree.{dead, found};

use cert_tree::Head;
use match_puzzle::{Arrangement, Item};
use std::alloc::AllocError;

// How many branch nodes may still be made, what was found, and the heads of the nodes that were made, in preorder.
#[derive(Drop)]
pub(crate) struct Progress {
    pub(crate) fuel: u32,
    pub(crate) found: Vec<Arrangement>,
    pub(crate) heads: Vec<Head>,
}

impl Progress {
    // Adds the node of a further arrangement.
    pub(crate) fn put_found(&mut self, arrangement: Arrangement) -> Result<(), AllocError>
        requires room { length self.old.found.items < 2 ^ 32 }
        ensures fuel { self.new.fuel ≡ self.old.fuel }
        ensures found { IfOk result (λ _. self.new.found.items ≡ self.old.found.items ++ arrangement ∷ []) }
        ensures head { IfOk result (λ _. self.new.heads.items
            ≡ self.old.heads.items ++ heads_of (found (length self.old.found.items))) }
        ensures refused { OnErr result (self.new.found.items ≡ self.old.found.items) }
    {
        let number = self.found.len() as u32;
        self.heads.push(Head::Found(number))?;
        self.found.push(arrangement)?;
        Ok(())
    }

    // Adds a dead end.
    pub(crate) fn put_dead_end(&mut self, about: Item) -> Result<(), AllocError>
        ensures fuel { self.new.fuel ≡ self.old.fuel }
        ensures found { self.new.found.items ≡ self.old.found.items }
        ensures head { IfOk result (λ _. self.new.heads.items ≡ self.old.heads.items ++ heads_of (dead about)) }
    {
        self.heads.push(Head::dead(about))?;
        Ok(())
    }

    // Adds a branch with this number of children, which are still to come. It costs one unit of fuel.
    pub(crate) fn put_branch(&mut self, about: Item, children: u32) -> Result<(), AllocError>
        requires fuel { 0 < self.old.fuel }
        ensures fuel { self.new.fuel + 1 ≡ self.old.fuel }
        ensures found { self.new.found.items ≡ self.old.found.items }
        ensures head { IfOk result (λ _. self.new.heads.items
            ≡ self.old.heads.items ++ branch_head about children ∷ []) }
    {
        self.fuel -= 1;
        self.heads.push(Head::branch(about, children))?;
        Ok(())
    }
}
