//! Why a certificate is refused at a node of a tree.

ghost use Rattle.std.specs.Prelude.{◌≡◌, ◌≢◌, ◌++◌, ℕ, List, Option, IfOk, OnOk, length, map};
ghost use Rattle.match_board.specs.Board.{cell_count};
ghost use Rattle.match_puzzle.specs.Fitting.{IsItem};
ghost use Rattle.text_words.specs.Spelling.{spaced};
ghost use Rattle.cert_tree.specs.Heads.{first, put};
ghost use Rattle.cert_tree.specs.Tree.{Forest, none};
ghost use Rattle.cert_text.specs.CertificateSpelling.{pair_word};
ghost use Rattle.cert_check.specs.Answer.{IsAnswer};
ghost use Rattle.cert_check.specs.Setting.{Setting};
ghost use Rattle.cert_check.specs.TreeFaults.{IsNodeFault};
ghost use Rattle.cert_check.specs.declared.faults.Answer.TheVariants.{Refused};
ghost use Rattle.cert_check.specs.declared.faults.Fault.TheVariants as faults;
ghost use Rattle.show_text.specs.Drawing.{IsDrawing};
ghost use Rattle.show_refusals.specs.Explanation.{MarksNode, NamesFitting, NamesLemma, NamesWhatFits, TellsOfNode};
ghost use Rattle.show_refusals.specs.Explanation.{miscounted_item};

use crate::findings::finding_of;
use crate::node_sentences::Node;
use crate::places::{LemmaLine, WordPlace};
use cert_check::{NodeFault, Question, Scene, TreeFault};
use cert_text::put_pair;
use cert_tree::Head;
use match_puzzle::{FittingPairs, Item, Partial};
use show_text::write_drawing;
use std::alloc::{AllocError, Global};
use std::hash::BuildHasher;

// Why the tree of this lemma is refused.
pub(crate) fn explain_node<S: BuildHasher + Drop>(
    alloc: Global,
    question: &Question<'_>,
    at: LemmaLine,
    fault: &TreeFault,
    hasher: S,
) -> Result<Vec<u8>, AllocError>
    requires { IsAnswer question.now (Refused (faults.Tree at.number fault.now)) }
    ensures { IfOk result (λ text. TellsOfNode question.now at.number fault.now text.items) }
{
    let lemma = question.lemmas().at(at.number as usize);
    let None = question.puzzle().prefix_fault(lemma.prefix) else {
        unreachable!();
    };
    let scene = Scene::at(alloc, question.puzzle(), &lemma, fault.path.steps())?;
    let finding = finding_of(alloc, &*question, &scene.partial, hasher)?;
    let node = Node {
        question: &*question,
        lemma: at.number,
        head: scene.head(),
        partial: &scene.partial,
    };
    let word = scene
        .words
        .saturating_add(lemma.prefix.len())
        .saturating_add(5);
    let place = WordPlace {
        line: at.line,
        word,
    };
    let mut text = write_node(alloc, &node, place, &scene, fault.fault)?;
    text.extend_from_slice(finding.closing())?;
    Ok(text)
}

// What is told of the node of this scene: its words, the pairs that fit and the board.
fn write_node(
    alloc: Global,
    node: &Node<'_>,
    place: WordPlace,
    scene: &Scene<'_>,
    fault: NodeFault,
) -> Result<Vec<u8>, AllocError>
    requires some { scene.now.trees ≢ none }
    requires fault { (s : Setting) × (s.puzzle ≡ scene.now.partial.puzzle)
        × IsNodeFault s (first scene.now.trees) scene.now.partial.placed fault }
    requires long { length scene.now.partial.placed ≡ cell_count scene.now.partial.puzzle.board }
    ensures { IfOk result (λ text.
        (words : List ℕ) × (fitting : List ℕ) × (drawing : List ℕ) × (mark : Option ℕ)
        × NamesLemma node.now.lemma words
        × NamesWhatFits scene.now.partial.puzzle scene.now.partial.placed (first scene.now.trees) fault fitting
        × IsDrawing scene.now.partial mark drawing
        × ((rest : Forest) → MarksNode (first (put node.now.head rest)) mark)
        × (text.items ≡ (words ++ fitting) ++ drawing)) }
{
    let mut text = node_line(alloc, node, place, fault)?;
    put_what_fits(&mut text, scene, fault)?;
    put_drawing(alloc, &mut text, &scene.partial, node.cell())?;
    Ok(text)
}

// The line of words: where the node stands, of which lemma, what it is, and what is wrong with it.
fn node_line(
    alloc: Global,
    node: &Node<'_>,
    place: WordPlace,
    fault: NodeFault,
) -> Result<Vec<u8>, AllocError>
    ensures { IfOk result (λ words. NamesLemma node.now.lemma words.items) }
{
    let sentence = node.sentence(alloc, fault)?;
    let name = node.words(alloc)?;
    let lemma = node.lemma;
    let WordPlace { line, word } = place;
    let (name, sentence) = (name.as_str(), sentence.as_str());
    let words = format!(in alloc;
        "certificate line {line}, word {word}, lemma {lemma}: {name}: {sentence}\n"
    )?;
    Ok(Vec::from(words))
}

// Puts the board behind the text, drawn with the cell marked.
pub(crate) fn put_drawing(
    alloc: Global,
    text: &mut Vec<u8>,
    partial: &Partial<'_>,
    mark: Option<u16>,
) -> Result<(), AllocError>
    ensures { OnOk result ((drawing : List ℕ) × IsDrawing partial.now mark drawing
        × (text.new.items ≡ text.old.items ++ drawing)) }
{
    let drawing = write_drawing(alloc, partial, mark)?;
    text.extend_from_slice(&drawing)
}

// Puts the line of the pairs that fit behind the text, where the node says wrongly how many do; else nothing.
fn put_what_fits(text: &mut Vec<u8>, scene: &Scene<'_>, fault: NodeFault) -> Result<(), AllocError>
    requires some { scene.now.trees ≢ none }
    requires fault { (s : Setting) × (s.puzzle ≡ scene.now.partial.puzzle)
        × IsNodeFault s (first scene.now.trees) scene.now.partial.placed fault }
    requires long { length scene.now.partial.placed ≡ cell_count scene.now.partial.puzzle.board }
    ensures { OnOk result ((line : List ℕ)
        × NamesWhatFits scene.now.partial.puzzle scene.now.partial.placed (first scene.now.trees) fault line
        × (text.new.items ≡ text.old.items ++ line)) }
{
    match miscounted(scene.head(), fault) {
        Some(item) => put_fitting(text, &scene.partial, item),
        None => Ok(()),
    }
}

// The item of which the node says wrongly how many pairs fit, if that is its fault.
fn miscounted(head: Head, fault: NodeFault) -> Option<Item>
    ensures { (rest : Forest) → result ≡ miscounted_item (first (put head rest)) fault }
{
    match (head, fault) {
        (Head::Cell { cell, .. }, NodeFault::WrongCount { .. })
        | (Head::DeadCell(cell), NodeFault::NotDead { .. }) => Some(Item::Cell(cell)),
        (Head::Tile { tile, .. }, NodeFault::WrongCount { .. })
        | (Head::DeadTile(tile), NodeFault::NotDead { .. }) => Some(Item::Tile(tile)),
        _ => None,
    }
}

// Puts the line of the pairs that fit and settle the item behind the text.
fn put_fitting(text: &mut Vec<u8>, partial: &Partial<'_>, item: Item) -> Result<(), AllocError>
    requires { IsItem partial.now.puzzle item }
    ensures { OnOk result ((line : List ℕ) × NamesFitting partial.now.puzzle partial.now.placed item line
        × (text.new.items ≡ text.old.items ++ line)) }
{
    text.extend_from_slice(b"fitting:")?;
    put_pairs(text, partial.fitting(item))?;
    text.push(b'\n')?;
    Ok(())
}

// The pairs, each behind a space.
#[tactic(auto, unfolding(text_words::specs::Spelling::spaced))]
fn put_pairs(text: &mut Vec<u8>, mut pairs: FittingPairs) -> Result<(), AllocError>
    ensures { OnOk result (text.new.items ≡ text.old.items ++ spaced (map pair_word pairs)) }
{
    while let Some(pair) = pairs.take_first() {
        put_pair(text, pair)?;
    }
    Ok(())
}
