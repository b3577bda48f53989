//! The recursion of a search: a branch on the item that a rule chooses, and a child for each of its open options.

ghost use Rattle.std.specs.Prelude.{◌≡◌, ◌∷◌, []};
ghost use Rattle.xcc_form.specs.Options.{cover_of};
ghost use Rattle.cert_tree.specs.Heads.{heads_of};
ghost use Rattle.cert_tree.specs.Tree.{Tree};
ghost use Rattle.xcc_form.specs.Chosen.{IsUncovered};
ghost use Rattle.xcc_dance.specs.Found.{IsCitation};
ghost use Rattle.xcc_dance.specs.Walking.{MayWalk, WalksOn, EndsAsTree, EndsAsBranches, EndsAsChild};

use crate::cites::{Cite, Cites};
use crate::paths::SearchPath;
use crate::progress::Progress;
use cert_tree::Head;
use match_limits::MOST_CHILDREN;
use std::alloc::AllocError;
use xcc_form::{Chooses, OpenOptions};

// Appends the heads of the tree below what is chosen, and leaves the choices as they were; or returns false, where the
// fuel is not enough.
#[cycle(walk)]
pub(crate) fn walk<E: OpenOptions + Drop, R: Chooses, C: Cites>(
    path: &mut SearchPath<E>,
    rule: &R,
    cites: &mut C,
    progress: &mut Progress,
) -> Result<bool, AllocError>
    requires may { MayWalk (E.selection path.old) (C.takes cites.old) progress.old 1 }
    ensures on { WalksOn E.selection C.moves path.old path.new cites.old cites.new progress.old progress.new }
    ensures tree { EndsAsTree E.selection (R.picks rule.now) (C.answers cites.new) path.old path.new
        progress.old progress.new result }
{
    let Some(node) = path.choose_branch(rule)? else {
        progress.put_found(path.arrangement()?)?;
        return Ok(true);
    };
    if node.size == 0 {
        progress.put_dead_end(node.about)?;
        return Ok(true);
    }
    if progress.fuel == 0 {
        return Ok(false);
    }
    progress.put_branch(node.about, node.size)?;
    walk_options(path, node.number, rule, cites, progress)
}

// Appends the trees below what is chosen with each open option of an item, in the order of the options.
#[cycle(walk)]
fn walk_options<E: OpenOptions + Drop, R: Chooses, C: Cites>(
    path: &mut SearchPath<E>,
    item: u32,
    rule: &R,
    cites: &mut C,
    progress: &mut Progress,
) -> Result<bool, AllocError>
    requires uncovered { let s = E.selection path.old in IsUncovered (cover_of s.compiled) s.chosen item }
    requires may { MayWalk (E.selection path.old) (C.takes cites.old) progress.old MOST_CHILDREN }
    ensures on { WalksOn E.selection C.moves path.old path.new cites.old cites.new progress.old progress.new }
    ensures trees { EndsAsBranches E.selection (R.picks rule.now) (C.answers cites.new) item path.old path.new
        progress.old progress.new result }
{
    let mut next = path.next_option(item, None);
    while let Some(option) = next {
        path.choose(option)?;
        if !child(path, rule, cites, progress)? {
            return Ok(false);
        }
        path.undo();
        next = path.next_option(item, Some(option));
    }
    Ok(true)
}

// Appends a child: what is cited for the choices, or else the tree below them.
#[cycle(walk)]
fn child<E: OpenOptions + Drop, R: Chooses, C: Cites>(
    path: &mut SearchPath<E>,
    rule: &R,
    cites: &mut C,
    progress: &mut Progress,
) -> Result<bool, AllocError>
    requires may { MayWalk (E.selection path.old) (C.takes cites.old) progress.old 1 }
    ensures on { WalksOn E.selection C.moves path.old path.new cites.old cites.new progress.old progress.new }
    ensures child { EndsAsChild E.selection (R.picks rule.now) (C.answers cites.new) path.old path.new
        progress.old progress.new result }
{
    match cites.cite(path.pairs())? {
        Some(cite) => {
            progress.heads.push(citation(cite))?;
            Ok(true)
        }
        None => walk(path, rule, cites, progress),
    }
}

// The head of a node that cites a lemma.
fn citation(cite: Cite) -> Head
    ensures { (tree : Tree) × IsCitation cite tree × (heads_of tree ≡ result ∷ []) }
{
    match cite {
        Cite::Same(lemma) => Head::Same(lemma),
        Cite::Image(lemma, symmetry) => Head::Image { symmetry, lemma },
    }
}
