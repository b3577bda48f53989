//! Searches of a compiled puzzle.

ghost use Rattle.std.specs.Prelude.{◌≡◌, ◌↔◌, ◌⊎◌, ◌≤◌, [], List, IfOk, IsErrOf, OnErr, true, false};
ghost use Rattle.match_limits.specs.declared.TheConstants.{MOST_LEVELS};
ghost use Rattle.cert_tree.specs.Limits.{HasLevels};
ghost use Rattle.cert_tree.specs.Tree.{tree_of};
ghost use Rattle.match_puzzle.specs.declared.placements.Pair.{Pair as Placed};
ghost use Rattle.fit_counts.specs.Placing.{FitInTurn};
ghost use Rattle.xcc_dance.specs.Outcome.{IsOutcome, IsPackedOutcome, IsPackedSearchOf, IsSearchOf};
ghost use Rattle.xcc_form.specs.Chosen.{picks_fewest};

use crate::cites::Cites;
use crate::faults::SearchFault;
use crate::paths::SearchPath;
use crate::progress::Progress;
use crate::searching::walk;
use cert_tree::{Node, PackedTree};
use match_limits::MOST_FUEL;
use match_puzzle::{Arrangement, Pair};
use std::alloc::{AllocError, Global};
use std::marker::Model;
use xcc_form::{Chooses, FewestOptions, FromCompiled, OpenOptions, Xcc};

/// The outcome of a run of a search.
#[derive(Drop)]
pub enum Outcome {
    /// All arrangements that extend the prefix were found, except those that a cited lemma covers. `Node::Found(i)` is
    /// arrangement i of `found`, from 0.
    Done { tree: Node, found: Vec<Arrangement> },
    /// The fuel was spent, and another branch node was needed.
    GaveUp,
}

/// The outcome of a run of a search, with a tree whose nodes lie one after the other.
#[derive(Drop)]
pub enum PackedOutcome {
    /// All arrangements that extend the prefix were found, except those that a cited lemma covers. `Head::Found(i)` is
    /// arrangement i of `found`, from 0.
    Done {
        tree: PackedTree,
        found: Vec<Arrangement>,
    },
    /// The fuel was spent, and another branch node was needed.
    GaveUp,
}

/// A search for all arrangements of a compiled puzzle. Its engine keeps what is chosen and what is open.
///
/// At each node a rule chooses an uncovered item, and the search tries its open options in the order of their numbers
/// (Knuth, TAOCP 4B, 7.2.2.1). Where it has none, the node is a dead end.
#[derive(Drop)]
pub struct SearchOver<E: OpenOptions + Drop> {
    alloc: Global,
    path: SearchPath<E>,
    branches: u32,
    failed: bool,
}

impl<E: OpenOptions + Drop> Model for SearchOver<E> {
    ghost use Rattle.std.specs.Prelude.{◌≡◌, [], false};
    ghost use Rattle.xcc_dance.specs.Outcome.{SearchState};

    ghost Value = { SearchState E };

    ghost view = { λ s. record { engine = s.path; branches = s.branches; failed = s.failed } };

    ghost invariant = { λ s. s.failed ≡ false → (E.selection s.path).chosen ≡ [] };
}

impl<'a, E: FromCompiled<'a> + Drop> SearchOver<E> {
    /// Makes a search, with a new engine, that has not run yet.
    ///
    /// An error comes where memory is refused, for the engine or for as many pairs as there are cells.
    pub fn new(alloc: Global, xcc: &'a Xcc<'a>) -> Result<SearchOver<E>, AllocError>
        ensures empty { IfOk result (λ s. E.selection s.engine ≡ record { compiled = xcc.now; chosen = [] }) }
        ensures ready { IfOk result (λ s. (s.branches ≡ 0) × (s.failed ≡ false)) }
    {
        SearchOver::over(alloc, E::from_compiled(alloc, xcc)?)
    }
}

impl<E: OpenOptions + Drop> SearchOver<E> {
    /// Makes a search, with this engine, that has not run yet. Nothing may be chosen in the engine.
    ///
    /// An error comes where memory is refused for as many pairs as there are cells.
    pub fn over(alloc: Global, engine: E) -> Result<SearchOver<E>, AllocError>
        requires { (E.selection engine).chosen ≡ [] }
        ensures { IfOk result (λ s. s ≡ record { engine = engine; branches = 0; failed = false }) }
    {
        Ok(SearchOver {
            alloc,
            path: SearchPath::new(alloc, engine)?,
            branches: 0,
            failed: false,
        })
    }

    /// Returns the engine. Nothing is chosen in it, unless the search failed.
    pub fn engine(&self) -> &E
        ensures same { result.now ≡ self.now.engine }
        ensures ready { self.now.failed ≡ false → (E.selection self.now.engine).chosen ≡ [] }
    {
        self.path.engine()
    }

    /// Returns how many branch nodes were made by the last run that did not return `Failed`; 0 before any run.
    pub fn branches(&self) -> u32
        ensures { result ≡ self.now.branches }
    {
        self.branches
    }

    /// Finds the arrangements that extend the prefix, with at most `fuel` branch nodes. Each pair of the prefix has to
    /// fit those before it, and `fuel` is at most 1,000,000.
    ///
    /// It branches on the uncovered item with the fewest open options, at a tie on that with the least number. Before
    /// it searches a child of a branch, it asks `cites` what may take the child's place, with all pairs that are placed
    /// there. After `Done` the search is ready for another run: its engine is as it was (one with link arrays, in each
    /// link and each size).
    ///
    /// `GaveUp` comes after exactly `fuel` branch nodes, where another was needed. `Failed` comes where an earlier run
    /// gave up or ran out of memory; then nothing changes. `Memory` comes where memory is refused, also to `cites`.
    pub fn run<C: Cites>(
        &mut self,
        prefix: &[Pair],
        fuel: u32,
        cites: &mut C,
    ) -> Result<Outcome, SearchFault>
        requires prefix { FitInTurn (E.selection self.old.engine).compiled.puzzle prefix.now }
        requires fuel { fuel ≤ MOST_FUEL }
        requires takes { (pairs : List Placed) → FitInTurn (E.selection self.old.engine).compiled.puzzle pairs
            → C.takes cites.old pairs }
        ensures compiled { (E.selection self.new.engine).compiled ≡ (E.selection self.old.engine).compiled }
        ensures outcome { IfOk result (IsOutcome E.selection self.old self.new prefix.now fuel) }
        ensures tree { IfOk result
            (IsSearchOf picks_fewest (C.answers cites.new) (E.selection self.new.engine).compiled prefix.now fuel) }
        ensures most { self.new.branches ≤ fuel ⊎ IsErrOf result SearchFault.Failed }
        ensures failed { IsErrOf result SearchFault.Failed ↔ (self.old.failed ≡ true) }
        ensures memory { IsErrOf result SearchFault.Memory → self.new.failed ≡ true }
        ensures unchanged { IsErrOf result SearchFault.Failed → self.new ≡ self.old }
        ensures moved { C.moves cites.old cites.new }
    {
        match self.run_by(prefix, fuel, &FewestOptions, cites)? {
            PackedOutcome::GaveUp => Ok(Outcome::GaveUp),
            PackedOutcome::Done { tree, found } => {
                let tree = self.nodes_of(&tree)?;
                Ok(Outcome::Done { tree, found })
            }
        }
    }

    // The tree of a run that is done, with nodes that own their children.
    fn nodes_of(&mut self, tree: &PackedTree) -> Result<Node, AllocError>
        requires ready { self.old.failed ≡ false }
        requires levels { HasLevels MOST_LEVELS tree.now }
        ensures engine { self.new.engine ≡ self.old.engine }
        ensures branches { self.new.branches ≡ self.old.branches }
        ensures node { IfOk result (λ node. (self.new.failed ≡ false) × (tree_of node ≡ tree.now)) }
        ensures memory { OnErr result (self.new.failed ≡ true) }
    {
        self.failed = true;
        let node = tree.to_node(self.alloc)?;
        self.failed = false;
        Ok(node)
    }

    /// Searches as `run` does, but branches on the items that the rule chooses, and returns a tree whose nodes lie one
    /// after the other. `Memory` also comes where memory is refused to the rule.
    pub fn run_by<R: Chooses, C: Cites>(
        &mut self,
        prefix: &[Pair],
        fuel: u32,
        rule: &R,
        cites: &mut C,
    ) -> Result<PackedOutcome, SearchFault>
        requires prefix { FitInTurn (E.selection self.old.engine).compiled.puzzle prefix.now }
        requires fuel { fuel ≤ MOST_FUEL }
        requires takes { (pairs : List Placed) → FitInTurn (E.selection self.old.engine).compiled.puzzle pairs
            → C.takes cites.old pairs }
        ensures compiled { (E.selection self.new.engine).compiled ≡ (E.selection self.old.engine).compiled }
        ensures outcome { IfOk result (IsPackedOutcome E.selection self.old self.new prefix.now fuel) }
        ensures tree { IfOk result
            (IsPackedSearchOf (R.picks rule.now) (C.answers cites.new) (E.selection self.new.engine).compiled prefix.now fuel) }
        ensures most { self.new.branches ≤ fuel ⊎ IsErrOf result SearchFault.Failed }
        ensures failed { IsErrOf result SearchFault.Failed ↔ (self.old.failed ≡ true) }
        ensures memory { IsErrOf result SearchFault.Memory → self.new.failed ≡ true }
        ensures unchanged { IsErrOf result SearchFault.Failed → self.new ≡ self.old }
        ensures moved { C.moves cites.old cites.new }
    {
        if self.failed {
            return Err(SearchFault::Failed);
        }
        self.failed = true;
        self.branches = 0;
        self.path.choose_all(prefix)?;
        let mut progress = Progress {
            fuel,
            found: Vec::new(self.alloc),
            heads: Vec::new(self.alloc),
        };
        let walked = walk(&mut self.path, rule, cites, &mut progress);
        self.branches = fuel - progress.fuel;
        if !walked? {
            return Ok(PackedOutcome::GaveUp);
        }
        self.path.undo_all();
        self.failed = false;
        let Progress { found, heads, .. } = progress;
        let tree = PackedTree::of(heads);
        Ok(PackedOutcome::Done { tree, found })
    }
}
