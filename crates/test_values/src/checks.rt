//! Certificates are checked by one call, and a tree alone, whatever is wrong with the trees before it.

use cert_check::{
    Answer, Fault, NodeFault, Prepared, Question, TreeFault, check, one_answer, tree_fault,
};
use std::alloc::Global;
use std::test::Fail;
use test_samples::{TURNING_TRIANGLE, TURNING_TRIANGLE_LIST, certificate_of, list_of, puzzle_of};

// Nothing is dead at cell 0, lemma 1 cites itself, and the prefix of lemma 0 isn't placed at the root's second child.
const WRONG_TREES: &[u8] =
    b"certificate 1\nsymmetries 1\nsymmetry 1 + cells 3 0 2 1 colours 0 1 2 3 tiles 0 1 2 3\nlemmas 3\nlemma 0 prefix 2:0.0 tree d 0\nlemma 1 prefix 2:0.2 tree i 1 0\nlemma 2 prefix tree t 0 3 s 0 s 0 s 1\nend\n";

// A row of five cells. Its tiles are two of one word, two of another, which go after those, and one that fits the last
// cell alone: so there are four arrangements, by which of two equal tiles comes first.
const FIVE_CELLS: &[u8] =
    b"match 1\nboard rect 5 1\nturns no\nborder each 0 - 0 0 - 0 - 0 - - - -\ntiles 5\ntile 0100\ntile 0100\ntile 0001\ntile 0001\ntile 1200\nend\n";

const FIVE_CELLS_LIST: &[u8] = b"list 1\narrangements 1\n0.0 2.0 1.0 3.0 4.0\nend\n";

const FIVE_CELLS_CERTIFICATE: &[u8] =
    b"certificate 1\nsymmetries 2\nsymmetry 0 + cells 0 1 2 3 4 colours 0 1 2 tiles 1 0 2 3 4\nsymmetry 0 + cells 0 1 2 3 4 colours 0 1 2 tiles 0 1 3 2 4\nlemmas 4\nlemma 0 prefix 0:0.0 1:2.0 tree c 2 1 c 3 1 c 4 1 f 0\nlemma 1 prefix 0:0.0 1:3.0 tree i 0 1\nlemma 2 prefix 0:0.0 tree c 1 2 s 0 s 1\nlemma 3 prefix tree c 0 2 s 2 i 2 0\nend\n";

// Whether the tree of the lemma with this number is refused; none: all is complete.
fn is_answer(alloc: Global, question: &Question<'_>, refused: Option<u32>) -> Result<bool, Fail> {
    let (puzzle, listed) = (question.puzzle(), question.listed());
    let answer = check(alloc, puzzle, listed, question.certificate())?;
    Ok(match &answer {
        Answer::Complete => refused.is_none(),
        Answer::Refused(Fault::Tree(lemma, _)) => refused == Some(*lemma),
        Answer::Refused(_) => false,
    })
}

// What is right but perhaps the trees.
fn prepared<'a>(alloc: Global, question: &'a Question<'_>) -> Result<Prepared<'a>, Fail> {
    match question.prepare(alloc, question.list_fault())? {
        Ok(prepared) => Ok(prepared),
        Err(_) => Err(Fail::from("it is refused before the trees")),
    }
}

// What is found of this lemma's tree alone.
fn fault_of(alloc: Global, prepared: &Prepared<'_>, lemma: u32) -> Result<Option<TreeFault>, Fail> {
    let question = prepared.question();
    if question.lemmas().len() <= lemma as usize {
        return Err(Fail::from("a number is out of range"));
    }
    Ok(tree_fault(
        alloc,
        question.puzzle(),
        question.listed(),
        prepared.symmetries(),
        question.certificate(),
        lemma,
    )?)
}

// Whether that is this fault, at the node to which these steps lead; none: it holds.
fn is_found(
    alloc: Global,
    prepared: &Prepared<'_>,
    lemma: u32,
    steps: &[u16],
    fault: Option<NodeFault>,
) -> Result<bool, Fail> {
    match fault_of(alloc, prepared, lemma)? {
        Some(found) => Ok(Some(found.fault) == fault && found.path.steps() == steps),
        None => Ok(fault.is_none()),
    }
}

// A lemma, and what is found of its tree alone, as above.
type Tree<'a> = (u32, &'a [u16], Option<NodeFault>);

fn are_found(alloc: Global, question: &Question<'_>, trees: &[Tree<'_>]) -> Result<bool, Fail> {
    let prepared = prepared(alloc, question)?;
    for (lemma, steps, fault) in trees {
        if !is_found(alloc, &prepared, *lemma, steps, *fault)? {
            return Ok(false);
        }
    }
    Ok(true)
}

// Whether this comes of a check, and this of the trees alone.
fn comes_of(
    alloc: Global,
    question: &Question<'_>,
    refused: Option<u32>,
    trees: &[Tree<'_>],
) -> Result<bool, Fail> {
    Ok(is_answer(alloc, question, refused)? && are_found(alloc, question, trees)?)
}

// Whether it comes of these texts.
fn comes_of_texts(
    alloc: Global,
    [puzzle, list, certificate]: [&[u8]; 3],
    refused: Option<u32>,
    trees: &[Tree<'_>],
) -> Result<bool, Fail> {
    let puzzle = puzzle_of(alloc, puzzle)?;
    let listed = list_of(alloc, list)?;
    let certificate = certificate_of(alloc, certificate)?;
    let question = Question::new(&puzzle, &listed, &certificate);
    comes_of(alloc, &question, refused, trees)
}

const RIGHT: [&[u8]; 3] = [FIVE_CELLS, FIVE_CELLS_LIST, FIVE_CELLS_CERTIFICATE];

const WRONG: [&[u8]; 3] = [TURNING_TRIANGLE, TURNING_TRIANGLE_LIST, WRONG_TREES];

const FAULTS: [Tree<'static>; 3] = [
    (0, &[], Some(NodeFault::NotDead { fits: 1 })),
    (1, &[], Some(NodeFault::NotEarlier)),
    (2, &[1], Some(NodeFault::NotWithin)),
];

#[test]
fn finds_the_fault_of_each_tree(rt: HostRuntime) -> Result<(), Fail> {
    assert!(rt; comes_of_texts(rt.alloc(), RIGHT, None, &[(3, &[], None)])?);
    assert!(rt; comes_of_texts(rt.alloc(), WRONG, Some(0), &FAULTS)?);
    one_answer();
    Ok(())
}
