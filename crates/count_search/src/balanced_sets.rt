//! The engine of a count.

ghost use Rattle.std.specs.Prelude.{◌≡◌, [], IfOk};

use crate::balances::Balance;
use crate::ruling_out::RulesOut;
use std::alloc::{AllocError, Global};
use std::marker::Model;
use xcc_dance::OpenSets;
use xcc_form::{OpenOptions, Xcc};

/// An engine that counts what fits, and where tiles aren't turned also how their sides balance, by which it rules out
/// choices. Contracts see only the compiled puzzle and what is chosen. It borrows the compiled puzzle.
#[derive(Drop)]
pub struct BalancedSets<'a> {
    sets: OpenSets<'a>,
    // none where a balance says nothing
    balance: Option<Balance>,
}

impl<'a> Model for BalancedSets<'a> {
    ghost use Rattle.std.specs.Prelude.{IfSome};
    ghost use Rattle.xcc_form.specs.Chosen.{Selection};
    ghost use Rattle.count_search.specs.Balance.{IsBalance};

    ghost Value = { Selection };

    ghost view = { λ s. s.sets };

    ghost invariant = { λ s. IfSome s.balance (IsBalance s.sets.compiled s.sets.chosen) };
}

impl<'a> BalancedSets<'a> {
    /// Makes an engine in which nothing is chosen yet. An error comes where memory is refused.
    pub fn new(alloc: Global, xcc: &'a Xcc<'a>) -> Result<BalancedSets<'a>, AllocError>
        ensures { IfOk result (λ s. s ≡ record { compiled = xcc.now; chosen = [] }) }
    {
        let sets = OpenSets::new(alloc, xcc)?;
        let balance = Balance::of(alloc, xcc)?;
        Ok(BalancedSets { sets, balance })
    }
}

impl<'a> OpenOptions for BalancedSets<'a> {
    ghost use Rattle.std.specs.Prelude.{refl};
    ghost use Rattle.xcc_form.specs.Chosen.{without_last};

    ghost selection = { λ s. s };

    ghost taken_back = { without_last };

    ghost all_but_last = { λ s. refl };

    fn xcc(&self) -> &Xcc<'_> {
        self.sets.xcc()
    }

    fn chosen(&self) -> &[u32] {
        self.sets.chosen()
    }

    fn branch_item(&self) -> Option<u32> {
        self.sets.branch_item()
    }

    fn next_item(&self, after: Option<u32>) -> Option<u32> {
        self.sets.next_item(after)
    }

    fn size(&self, item: u32) -> u32 {
        self.sets.size(item)
    }

    fn next_option(&self, item: u32, after: Option<u32>) -> Option<u32> {
        self.sets.next_option(item, after)
    }

    fn choose(&mut self, option: u32) -> Result<(), AllocError> {
        self.sets.choose(option)?;
        if let Some(balance) = &mut self.balance {
            // For the clauses alone: no two chosen options clash.
            let _right = self.sets.chosen();
            balance.add(self.sets.xcc().puzzle(), self.sets.xcc().pair(option));
        }
        Ok(())
    }

    fn undo(&mut self) {
        if let Some(balance) = &mut self.balance {
            if let Some(option) = self.sets.chosen().last() {
                balance.take_back(self.sets.xcc().puzzle(), self.sets.xcc().pair(*option));
            }
        }
        self.sets.undo();
    }
}

impl<'a> RulesOut for BalancedSets<'a> {
    fn is_ruled_out(&self) -> bool {
        // For the clauses alone: no two chosen options clash.
        let _right = self.sets.chosen();
        match &self.balance {
            None => false,
            Some(balance) => balance.is_short(),
        }
    }
}
