//! The turning triangle, worked out by hand: the sizes of its items, its tree, how many are found, and what is cited.

ghost use Rattle.xcc_form.specs.Options.{cover_of};
ghost use Rattle.xcc_form.specs.Chosen.{IsUncovered};

use cert_text::WithinLimits;
use cert_tree::Node;
use match_puzzle::{Pair, Puzzle};
use std::alloc::{AllocError, Global};
use std::test::Fail;
use test_samples::{is_lemma_line, lemma_without_prefix, turning_triangle};
use xcc_dance::{Cite, Cites, NoCites, OpenSets, Outcome, SearchFault, SearchOver};
use xcc_form::{OpenOptions, Xcc, compile};
use xcc_links::{Links, Search};

// Whether these are the uncovered items, and how many open options each has.
fn sizes_are(links: &Links<'_>, wanted: &[(u32, u32)]) -> bool {
    let mut next = links.next_item(None);
    for row in wanted {
        let Some(item) = next else {
            return false;
        };
        if (item, links.size(item)) != *row {
            return false;
        }
        next = links.next_item(Some(item));
    }
    next.is_none()
}

// The cells are the items 0 to 3, the tiles 4 to 7.
const FIRST: [(u32, u32); 8] = [
    (0, 3),
    (1, 3),
    (2, 12),
    (3, 3),
    (4, 3),
    (5, 6),
    (6, 6),
    (7, 6),
];

// The first option of cell 2 puts tile 0 there, which leaves each other cell and tile one option.
const CHOSEN: [(u32, u32); 6] = [(0, 1), (1, 1), (3, 1), (5, 1), (6, 1), (7, 1)];

// Whether nothing is chosen, and they are so.
fn is_at_first(links: &Links<'_>) -> bool {
    links.chosen().is_empty() && links.branch_item() == Some(0) && sizes_are(links, &FIRST)
}

// Whether they are so once that choice is made, which is then undone.
fn has_chosen(links: &mut Links<'_>) -> Result<bool, AllocError>
    requires { IsUncovered (cover_of links.old.compiled) links.old.chosen 2 }
{
    let Some(option) = links.next_option(2, None) else {
        return Ok(false);
    };
    links.choose(option)?;
    let then = sizes_are(links, &CHOSEN) && links.chosen() == [6].as_slice();
    links.undo();
    Ok(then)
}

// Whether they are so at first, once the choice is made, and after it is undone.
fn goes_back(mut links: Links<'_>) -> Result<bool, AllocError>
    requires { IsUncovered (cover_of links.compiled) links.chosen 2 }
{
    Ok(is_at_first(&links) && has_chosen(&mut links)? && is_at_first(&links))
}

// Whether items and sizes are right in new linked lists: at first, once the choice is made, and after it is undone.
fn has_sizes<'a>(alloc: Global, xcc: &'a Xcc<'a>) -> Result<bool, AllocError> {
    if xcc.primaries() != 8 {
        return Ok(false);
    }
    goes_back(Links::new(alloc, xcc)?)
}

// Whether this line is that of a lemma with the tree.
fn is_tree(alloc: Global, tree: Node, line: &[u8]) -> Result<bool, AllocError> {
    let lemma = lemma_without_prefix(alloc, 0, tree);
    if !lemma.within_limits() {
        return Ok(false);
    }
    is_lemma_line(alloc, &lemma, line)
}

// Whether a run found `count` arrangements, and its tree is this line of a lemma.
fn tells(alloc: Global, outcome: Outcome, count: usize, line: &[u8]) -> Result<bool, AllocError> {
    match outcome {
        Outcome::Done { tree, found } => Ok(is_tree(alloc, tree, line)? && found.len() == count),
        Outcome::GaveUp => Ok(false),
    }
}

// Whether it runs no more.
fn has_failed<E: OpenOptions + Drop>(search: &mut SearchOver<E>) -> bool {
    matches!(search.run(&[], 10, &mut NoCites), Err(SearchFault::Failed))
}

// What a run comes to. Where memory is refused, each further run is to fail; one that doesn't is a fault of its own.
fn outcome<E: OpenOptions + Drop>(
    search: &mut SearchOver<E>,
    fuel: u32,
) -> Result<Outcome, SearchFault> {
    match search.run(&[], fuel.min(1_000_000), &mut NoCites) {
        Err(SearchFault::Memory) if !has_failed(search) || !has_failed(search) => Err(
            SearchFault::Failed,
        ),
        outcome => outcome,
    }
}

// Its whole tree.
const WHOLE_TREE: &[u8] =
    b"lemma 0 prefix tree c 0 3 c 2 1 c 1 1 c 3 1 f 0 c 2 1 c 1 1 c 3 1 f 1 c 2 1 c 1 1 c 3 1 f 2\n";

// Whether it finds its whole tree.
fn finds_all<E: OpenOptions + Drop>(
    alloc: Global,
    search: &mut SearchOver<E>,
) -> Result<bool, SearchFault> {
    let outcome = outcome(search, 10)?;
    Ok(tells(alloc, outcome, 3, WHOLE_TREE)? && search.branches() == 10)
}

// Whether it gives up where it may make one branch node too few, and then fails.
fn gives_up<E: OpenOptions + Drop>(search: &mut SearchOver<E>) -> Result<bool, SearchFault> {
    let gave_up = matches!(outcome(search, 9)?, Outcome::GaveUp) && search.branches() == 9;
    Ok(gave_up && has_failed(search) && search.branches() == 9)
}

// Knows a lemma for each tile but 1 at cell 0.
#[derive(Clone, Copy)]
struct Known;

impl Cites for Known {
    ghost takes = { λ _ _. Unit {0} };

    ghost moves = { λ _ _. Unit {0} };

    ghost answers = { λ _ _ _. Unit {0} };

    ghost stays = { λ _. tt };

    ghost goes_on = { λ _ _ _ _ _. tt };

    ghost takes_still = { λ _ _ _ _ _. tt };

    ghost answers_still = { λ _ _ _ _ _ _. tt };

    fn cite(&mut self, prefix: &[Pair]) -> Result<Option<Cite>, AllocError> {
        if prefix.len() != 1 {
            return Ok(None);
        }
        Ok(match prefix[0].placement.tile {
            2 => Some(Cite::Same(7)),
            3 => Some(Cite::Image(8, 1)),
            _ => None,
        })
    }
}

// The tree that cites them.
const CITING_TREE: &[u8] = b"lemma 0 prefix tree c 0 3 c 2 1 c 1 1 c 3 1 f 0 s 7 i 8 1\n";

// Whether a run comes to it.
fn cites_known<E: OpenOptions + Drop>(
    alloc: Global,
    search: &mut SearchOver<E>,
) -> Result<bool, SearchFault> {
    let outcome = search.run(&[], 4, &mut Known)?;
    Ok(tells(alloc, outcome, 1, CITING_TREE)? && search.branches() == 4)
}

// Whether it finds all twice, cites what is known, and then gives up.
fn searches<E: OpenOptions + Drop>(
    alloc: Global,
    search: &mut SearchOver<E>,
) -> Result<bool, SearchFault> {
    let finds = search.branches() == 0 && finds_all(alloc, search)? && finds_all(alloc, search)?;
    Ok(finds && cites_known(alloc, search)? && gives_up(search)?)
}

// Whether a search finds all twice, cites what is known, and then gives up. It is let go then.
fn searches_once<E: OpenOptions + Drop>(
    alloc: Global,
    mut search: SearchOver<E>,
) -> Result<bool, SearchFault> {
    searches(alloc, &mut search)
}

// By linked lists.
fn searches_by_links<'a>(alloc: Global, xcc: &'a Xcc<'a>) -> Result<bool, SearchFault> {
    searches_once(alloc, Search::new(alloc, xcc)?)
}

// By counts of what fits.
fn searches_by_sets<'a>(alloc: Global, xcc: &'a Xcc<'a>) -> Result<bool, SearchFault> {
    searches_once(alloc, SearchOver::<OpenSets<'a>>::new(alloc, xcc)?)
}

// Whether all of it is so of what is compiled.
fn are_right<'a>(alloc: Global, xcc: &'a Xcc<'a>) -> Result<bool, SearchFault> {
    Ok(has_sizes(alloc, xcc)? && searches_by_links(alloc, xcc)? && searches_by_sets(alloc, xcc)?)
}

// Whether the sizes of the puzzle and the searches of it are right, once it is compiled.
fn is_searched(alloc: Global, puzzle: &Puzzle) -> Result<bool, Fail> {
    let xcc = compile(alloc, puzzle)?;
    Ok(are_right(alloc, &xcc)?)
}

#[test]
fn searches_the_turning_triangle(rt: HostRuntime) -> Result<(), Fail> {
    let puzzle = turning_triangle(rt.alloc())?;
    assert!(rt; is_searched(rt.alloc(), &puzzle)?);
    Ok(())
}
