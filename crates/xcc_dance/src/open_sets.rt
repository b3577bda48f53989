//! The engine of a search that counts what fits.

ghost use Rattle.std.specs.Prelude.{◌≡◌, ◌<◌, ◌+◌, [], IfOk, IfSome, MatchOption, length};
ghost use Rattle.xcc_form.specs.Options.{cover_of};
ghost use Rattle.xcc_form.specs.Chosen.{IsUncovered};
ghost use Rattle.xcc_dance.specs.Placing.{IsPairOfAny};

use fit_counts::FitCounts;
use match_puzzle::{Item, Pair};
use std::alloc::{AllocError, Global};
use std::marker::Model;
use xcc_form::{FromCompiled, OpenOptions, Xcc};

/// Chosen options of a compiled puzzle, no two of which clash, with the pairs that fit beside theirs. An option is open
/// exactly where its pair fits. Contracts see only the compiled puzzle and what is chosen. It borrows the compiled
/// puzzle.
#[derive(Drop)]
pub struct OpenSets<'a> {
    xcc: &'a Xcc<'a>,
    counts: FitCounts<'a>,
    chosen: Vec<u32>,
}

impl<'a> Model for OpenSets<'a> {
    ghost use Rattle.xcc_form.specs.Chosen.{Selection};
    ghost use Rattle.xcc_dance.specs.Placing.{IsPlacingOf};

    ghost Value = { Selection };

    ghost view = { λ s. record { compiled = s.xcc.now; chosen = s.chosen.items } };

    ghost invariant = { λ s. IsPlacingOf s.xcc.now s.chosen.items s.counts };
}

impl<'a> OpenSets<'a> {
    /// Makes an engine in which nothing is chosen yet. An error comes where memory is refused.
    pub fn new(alloc: Global, xcc: &'a Xcc<'a>) -> Result<OpenSets<'a>, AllocError>
        ensures { IfOk result (λ s. s ≡ record { compiled = xcc.now; chosen = [] }) }
    {
        Ok(OpenSets {
            xcc,
            counts: FitCounts::new(alloc, xcc.puzzle())?,
            chosen: Vec::new(alloc),
        })
    }

    // The number after that of an uncovered item; 0 without one.
    fn first_behind(&self, after: Option<u32>) -> u32
        requires { IfSome after (IsUncovered (cover_of self.now.compiled) self.now.chosen) }
        ensures { MatchOption after (result ≡ 0) (λ item. result ≡ item + 1) }
    {
        let _most = self.xcc.primaries();
        match after {
            None => 0,
            Some(item) => item + 1,
        }
    }

    // The pair of an option, if there is an option.
    fn pair_of(&self, option: Option<u32>) -> Option<Pair>
        requires { IfSome option (λ o. o < length self.now.compiled.options) }
        ensures { IsPairOfAny self.now.compiled option result }
    {
        match option {
            None => None,
            Some(option) => Some(self.xcc.pair(option)),
        }
    }
}

impl<'a> OpenOptions for OpenSets<'a> {
    ghost use Rattle.std.specs.Prelude.{refl};
    ghost use Rattle.xcc_form.specs.Chosen.{without_last};

    ghost selection = { λ s. s };

    ghost taken_back = { without_last };

    ghost all_but_last = { λ s. refl };

    fn xcc(&self) -> &Xcc<'_> {
        self.xcc
    }

    fn chosen(&self) -> &[u32] {
        &self.chosen
    }

    fn branch_item(&self) -> Option<u32> {
        let item = self.counts.fewest()?;
        Some(item.number(self.xcc.cells()))
    }

    fn next_item(&self, after: Option<u32>) -> Option<u32> {
        let cells = self.xcc.cells();
        for item in self.first_behind(after)..self.xcc.primaries() {
            if self.counts.is_open(Item::numbered(cells, item)) {
                return Some(item);
            }
        }
        None
    }

    fn size(&self, item: u32) -> u32 {
        self.counts.count(Item::numbered(self.xcc.cells(), item))
    }

    fn next_option(&self, item: u32, after: Option<u32>) -> Option<u32> {
        let item = Item::numbered(self.xcc.cells(), item);
        let pair = self.counts.next(item, self.pair_of(after))?;
        self.xcc.option_of(pair)
    }

    fn choose(&mut self, option: u32) -> Result<(), AllocError> {
        self.chosen.reserve(1)?;
        self.counts.place(self.xcc.pair(option))?;
        self.chosen.push_reserved(option);
        Ok(())
    }

    fn undo(&mut self) {
        self.counts.lift();
        self.chosen.pop();
    }
}

impl<'a> FromCompiled<'a> for OpenSets<'a> {
    fn from_compiled(alloc: Global, xcc: &'a Xcc<'a>) -> Result<OpenSets<'a>, AllocError> {
        OpenSets::new(alloc, xcc)
    }
}
