//! The way from the root of a search to a node: the options that are chosen on it, and their pairs.

ghost use Rattle.std.specs.Prelude.{◌≡◌, ◌<◌, ◌≤◌, ◌*◌, [], IfOk, IfSome, MatchOption, OnErr, length};
ghost use Rattle.match_board.specs.Board.{cell_count};
ghost use Rattle.match_puzzle.specs.Fitting.{IsNumberOf};
ghost use Rattle.xcc_form.specs.Options.{IsCompiled, IsOptionPair, cover_of};
ghost use Rattle.xcc_form.specs.Correspondence.{IsPairOf, IsSolutionOf};
ghost use Rattle.xcc_form.specs.Clashes.{IsOpen, IsOpenAt};
ghost use Rattle.xcc_form.specs.Chosen.{IsSelection, IsUncovered, AreAllCovered, IsLast, IsNext, with_option, before_any};
ghost use Rattle.fit_counts.specs.Placing.{FitInTurn};
ghost use Rattle.xcc_dance.specs.Placing.{ArePairsOf};
ghost use Rattle.xcc_dance.specs.Walking.{IsBranchAt};

use match_limits::MOST_CELLS;
use match_puzzle::{Arrangement, Item, Pair};
use std::alloc::{AllocError, Global};
use std::marker::Model;
use xcc_form::{Chooses, FormFault, OpenOptions};

// The item that a rule branches on, its number, and how many open options it has.
#[derive(Clone, Copy)]
pub(crate) struct Branch {
    pub(crate) number: u32,
    pub(crate) about: Item,
    pub(crate) size: u32,
}

// Chosen options with their pairs, in the order of choosing. Contracts see it as the engine that keeps the options.
#[derive(Drop)]
pub(crate) struct SearchPath<E: OpenOptions + Drop> {
    alloc: Global,
    engine: E,
    pairs: Vec<Pair>,
}

impl<E: OpenOptions + Drop> Model for SearchPath<E> {
    ghost use Rattle.xcc_dance.specs.Placing.{ArePairsOf};

    ghost Value = { E };

    ghost view = { λ p. p.engine };

    ghost invariant = { λ p. let s = E.selection p.engine in ArePairsOf s.compiled s.chosen p.pairs.items };
}

impl<E: OpenOptions + Drop> SearchPath<E> {
    // Nothing is chosen yet.
    pub(crate) fn new(alloc: Global, engine: E) -> Result<SearchPath<E>, AllocError>
        requires { (E.selection engine).chosen ≡ [] }
        ensures { IfOk result (λ p. p ≡ engine) }
    {
        let pairs = Vec::with_capacity(alloc, usize::from(engine.xcc().cells()))?;
        Ok(SearchPath {
            alloc,
            engine,
            pairs,
        })
    }

    // What is chosen, and what is open beside it.
    pub(crate) fn engine(&self) -> &E
        ensures same { result.now ≡ self.now }
        ensures right { let s = E.selection self.now in IsSelection s.compiled s.chosen }
    {
        let _right = self.engine.chosen();
        &self.engine
    }

    // The item with this number, which no chosen option has.
    pub(crate) fn item_numbered(&self, number: u32) -> Item
        requires { let s = E.selection self.now in IsUncovered (cover_of s.compiled) s.chosen number }
        ensures number { IsNumberOf (cell_count (E.selection self.now).compiled.puzzle.board) number result }
        ensures most { cell_count (E.selection self.now).compiled.puzzle.board ≤ MOST_CELLS }
        ensures few { number < 2 * cell_count (E.selection self.now).compiled.puzzle.board }
    {
        Item::numbered(self.engine.xcc().cells(), number)
    }

    // The pairs of the chosen options.
    pub(crate) fn pairs(&self) -> &[Pair]
        ensures pairs { let s = E.selection self.now in ArePairsOf s.compiled s.chosen result.now }
        ensures fit { FitInTurn (E.selection self.now).compiled.puzzle result.now }
    {
        let _right = self.engine.chosen();
        &self.pairs
    }

    // The item to branch on, by a rule.
    pub(crate) fn choose_item<R: Chooses>(&mut self, rule: &R) -> Result<Option<u32>, AllocError>
        ensures same { self.new ≡ self.old }
        ensures uncovered { let s = E.selection self.old in IfOk result (λ o. MatchOption o
            (AreAllCovered (cover_of s.compiled) s.chosen)
            (IsUncovered (cover_of s.compiled) s.chosen)) }
        ensures picked { IfOk result (λ o. IfSome o (R.picks rule.now (E.selection self.old))) }
    {
        rule.choose_item(&mut self.engine)
    }

    // The branch that a rule chooses; `None` where all primary items are covered.
    pub(crate) fn choose_branch<R: Chooses>(
        &mut self,
        rule: &R,
    ) -> Result<Option<Branch>, AllocError>
        ensures same { self.new ≡ self.old }
        ensures node { let s = E.selection self.old in IfOk result (λ o. MatchOption o
            (AreAllCovered (cover_of s.compiled) s.chosen)
            (IsBranchAt (R.picks rule.now) s)) }
    {
        let Some(number) = self.choose_item(rule)? else {
            return Ok(None);
        };
        let about = self.item_numbered(number);
        let size = self.engine().size(number);
        Ok(Some(Branch {
            number,
            about,
            size,
        }))
    }

    // The open option of an uncovered item that comes next after `after`, by number, or the first without one.
    pub(crate) fn next_option(&self, item: u32, after: Option<u32>) -> Option<u32>
        requires item { let s = E.selection self.now in IsUncovered (cover_of s.compiled) s.chosen item }
        requires after { let s = E.selection self.now in IfSome after (IsOpenAt (cover_of s.compiled) s.chosen item) }
        ensures next { let s = E.selection self.now in MatchOption result
            (IsLast (cover_of s.compiled) s.chosen item after)
            (IsNext (cover_of s.compiled) s.chosen item after) }
        ensures right { let s = E.selection self.now in IsSelection s.compiled s.chosen }
    {
        self.engine().next_option(item, after)
    }

    // Chooses an open option. Where memory is refused, nothing changes.
    pub(crate) fn choose(&mut self, option: u32) -> Result<(), AllocError>
        requires { let s = E.selection self.old in IsOpen (cover_of s.compiled) s.chosen option }
        ensures chosen { IfOk result (λ _. E.selection self.new ≡ with_option (E.selection self.old) option) }
        ensures before { IfOk result (λ _. E.taken_back self.new ≡ self.old) }
        ensures room { IfOk result
            (λ _. length (E.selection self.old).chosen < length (E.selection self.old).compiled.options) }
        ensures refused { OnErr result (self.new ≡ self.old) }
    {
        self.pairs.reserve(1)?;
        self.engine.choose(option)?;
        self.pairs.push_reserved(self.engine.xcc().pair(option));
        Ok(())
    }

    // Takes back the option that was chosen last. There has to be one.
    pub(crate) fn undo(&mut self)
        requires { 0 < length (E.selection self.old).chosen }
        ensures { self.new ≡ E.taken_back self.old }
    {
        self.engine.undo();
        self.pairs.pop();
    }

    // Chooses the options of these pairs, where nothing is chosen.
    pub(crate) fn choose_all(&mut self, pairs: &[Pair]) -> Result<(), AllocError>
        requires empty { (E.selection self.old).chosen ≡ [] }
        requires fit { FitInTurn (E.selection self.old).compiled.puzzle pairs.now }
        ensures compiled { (E.selection self.new).compiled ≡ (E.selection self.old).compiled }
        ensures pairs { let s = E.selection self.new in IfOk result (λ _. ArePairsOf s.compiled s.chosen pairs.now) }
        ensures before { IfOk result (λ _. before_any E.selection E.taken_back self.new ≡ self.old) }
    {
        for pair in pairs {
            let option = self.option_of(*pair);
            self.choose(option)?;
        }
        Ok(())
    }

    // Takes back all options.
    pub(crate) fn undo_all(&mut self)
        ensures { self.new ≡ before_any E.selection E.taken_back self.old }
    {
        while !self.pairs.is_empty() {
            self.undo();
        }
    }

    // The arrangement of the chosen options, which cover all primary items.
    pub(crate) fn arrangement(&self) -> Result<Arrangement, AllocError>
        requires { let s = E.selection self.now in AreAllCovered (cover_of s.compiled) s.chosen }
        ensures { let s = E.selection self.now in IfOk result (λ a. IsSolutionOf s.compiled a s.chosen) }
    {
        match self
            .engine
            .xcc()
            .arrangement_of(self.alloc, self.engine.chosen())
        {
            Ok(arrangement) => Ok(arrangement),
            // chosen options that cover all primary items are a solution
            Err(FormFault::NotASolution) => unreachable!(),
            Err(FormFault::Memory) => Err(AllocError),
        }
    }

    // The option of a pair that is legal and shows what the border and clues ask.
    fn option_of(&self, pair: Pair) -> u32
        requires { IsOptionPair (E.selection self.now).compiled.puzzle pair }
        ensures pair { IsPairOf (E.selection self.now).compiled result pair }
        ensures compiled { IsCompiled (E.selection self.now).compiled }
    {
        let _right = self.engine.chosen();
        match self.engine.xcc().option_of(pair) {
            Some(option) => option,
            // each such pair has one
            None => unreachable!(),
        }
    }
}
