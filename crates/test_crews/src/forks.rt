//! Trees in whose first levels the halves of a branch are walked at once.

ghost use Rattle.std.specs.Prelude.{◌<◌, ◌≤◌, length};

use crate::meetings::Meeting;
use cert_check::{Answer, NodeFault, Prepared, Question, TreeFault, forked_tree_fault};
use match_crew::{Gate, Solved, check_with, solve_with};
use match_limits::MOST_FORKS;
use match_puzzle::{Arrangement, Puzzle};
use std::alloc::{AllocError, Global};
use std::sync::Wait;
use std::sync::atomic::{AtomicU8, Ordering};
use std::test::Fail;
use std::thread::Threads;
use test_samples::{certificate_of, puzzle_of, turning_triangle, turning_triangle_list};

// Seven equal squares in a row, which stand there in each order: the tree of all has 13,700 nodes, more than are walked
// by one thread for being few.
const SEVEN_SQUARES: &[u8] =
    b"match 1\nboard rect 7 1\nturns no\nborder free\ntiles 7\ntile 0000\ntile 0000\ntile 0000\ntile 0000\ntile 0000\ntile 0000\ntile 0000\nend\n";

// The two halves of one branch look for each other.
#[derive(Drop)]
struct Halves {
    meeting: Meeting,
    met: AtomicU8,
}

impl Gate for Halves {
    fn enter(&self, _lemma: u32) {}

    fn enter_half(&self, _lemma: u32, first: u32) {
        if self.meeting.meets(first == 0) {
            self.met.fetch_add(1, Ordering::SeqCst);
        }
    }
}

// Whether a check of what was solved, by these halves, ends well.
fn holds_by<R: Threads + Sync>(
    rt: &R,
    alloc: Global,
    puzzle: &Puzzle,
    solved: &Solved,
    halves: &Halves,
) -> Result<bool, Fail> {
    let list = &solved.list;
    if list.len() != 5_040 {
        return Err(Fail::new("another list"));
    }
    let answer = check_with(rt, alloc, puzzle, list, &solved.certificate, 1, 1, halves)?;
    Ok(matches!(answer, Answer::Complete))
}

// Whether the puzzle is solved, and a check of what was solved, by these halves, ends well.
fn solves_and_holds<R: Threads + Wait + Sync>(
    rt: &R,
    alloc: Global,
    puzzle: &Puzzle,
    halves: &Halves,
) -> Result<bool, Fail> {
    let solved = solve_with(rt, alloc, puzzle, 0, 1_000_000, 1)?;
    holds_by(rt, alloc, puzzle, &solved, halves)
}

// Whether the seven squares are solved, and a check of what was solved, by these halves, ends well.
fn seven_squares_hold<R: Threads + Wait + Sync>(
    rt: &R,
    alloc: Global,
    halves: &Halves,
) -> Result<bool, Fail> {
    solves_and_holds(rt, alloc, &puzzle_of(alloc, SEVEN_SQUARES)?, halves)
}

#[test]
fn two_halves_of_a_tree_at_once(rt: HostRuntime) -> Result<(), Fail> {
    let halves = Halves {
        meeting: Meeting::new(),
        met: AtomicU8::new(0),
    };
    assert!(rt; seven_squares_hold(&rt, rt.alloc(), &halves)?);
    if halves.met.load(Ordering::SeqCst) != 2 {
        return Err(Fail::new("no other thread came"));
    }
    Ok(())
}

// The turning triangle's lemmas, but that the first two of the root's children cite another lemma than those that fit,
// and that the last has no fault.
const WRONG_CHILDREN: &[u8] =
    b"certificate 1\nsymmetries 1\nsymmetry 1 + cells 3 0 2 1 colours 0 1 2 3 tiles 0 1 2 3\nlemmas 3\nlemma 0 prefix 2:0.0 tree c 0 1 c 1 1 c 3 1 f 0\nlemma 1 prefix 2:0.2 tree i 0 0\nlemma 2 prefix tree t 0 3 s 1 s 1 s 1\nend\n";

// What is found of the lemma with this number.
fn fault_of<R: Threads + Sync>(
    rt: &R,
    alloc: Global,
    prepared: &Prepared<'_>,
    lemma: u32,
    forks: u8,
) -> Result<Option<TreeFault>, AllocError>
    requires lemma { lemma < length prepared.now.lemmas }
    requires forks { forks ≤ MOST_FORKS }
{
    let question = prepared.question();
    forked_tree_fault(
        rt,
        alloc,
        question.puzzle(),
        question.listed(),
        prepared.symmetries(),
        question.certificate(),
        lemma,
        forks,
    )
}

// Whether it is that of the root's first child.
fn is_first(found: Option<TreeFault>) -> bool {
    match found {
        Some(found) => {
            found.path.steps() == [0].as_slice() && found.fault == NodeFault::NotWithin
        }
        None => false,
    }
}

// Whether nothing is found of lemma 0, and of lemma 2 the first of its faults.
fn finds_first<R: Threads + Sync>(
    rt: &R,
    alloc: Global,
    prepared: &Prepared<'_>,
    forks: u8,
) -> Result<bool, AllocError>
    requires lemmas { 2 < length prepared.now.lemmas }
    requires forks { forks ≤ MOST_FORKS }
{
    let is_right = fault_of(rt, alloc, prepared, 0, forks)?.is_none();
    Ok(is_right && is_first(fault_of(rt, alloc, prepared, 2, forks)?))
}

// Whether nothing is found of lemma 0, and of lemma 2 the first of its faults, once the question is prepared.
fn finds_in<R: Threads + Sync>(
    rt: &R,
    alloc: Global,
    question: &Question<'_>,
    forks: u8,
) -> Result<bool, Fail>
    requires { forks ≤ MOST_FORKS }
{
    if question.lemmas().len() != 3 {
        return Err(Fail::new("another question"));
    }
    match question.prepare(alloc, question.list_fault())? {
        Ok(prepared) => Ok(finds_first(rt, alloc, &prepared, forks)?),
        Err(_) => Err(Fail::new("it is refused before the trees")),
    }
}

// Whether nothing is found of lemma 0, and of lemma 2 the first of its faults, by the lemmas with wrong children.
fn finds_in_lemmas<R: Threads + Sync>(
    rt: &R,
    alloc: Global,
    puzzle: &Puzzle,
    listed: &[Arrangement],
    forks: u8,
) -> Result<bool, Fail>
    requires { forks ≤ MOST_FORKS }
{
    if listed.len() != 1 {
        return Err(Fail::new("another list"));
    }
    let certificate = certificate_of(alloc, WRONG_CHILDREN)?;
    finds_in(
        rt,
        alloc,
        &Question::new(puzzle, listed, &certificate),
        forks,
    )
}

// Whether of the turning triangle, by the lemmas with wrong children, nothing is found of lemma 0, and of lemma 2 the
// first of its faults.
fn finds_in_triangle<R: Threads + Sync>(rt: &R, alloc: Global, forks: u8) -> Result<bool, Fail>
    requires { forks ≤ MOST_FORKS }
{
    let puzzle = turning_triangle(alloc)?;
    let listed = turning_triangle_list(alloc)?;
    finds_in_lemmas(rt, alloc, &puzzle, &listed, forks)
}

#[test]
fn the_first_of_several_faults(rt: HostRuntime) -> Result<(), Fail> {
    for forks in 0..7 {
        assert!(rt; finds_in_triangle(&rt, rt.alloc(), forks)?, "by {forks}");
    }
    Ok(())
}
