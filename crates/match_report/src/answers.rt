//! How an answer is printed.

ghost use Rattle.std.specs.Prelude.{◌≡◌, ◌++◌, [], ◌∷◌, decimal, IfOk, OnOk};
ghost use Rattle.text_words.specs.Spelling.{spaced};
ghost use Rattle.match_report.specs.AnswerText.{HasLine, HasWords, answer_line, fault_words, node_fault_words};
ghost use Rattle.match_report.specs.AnswerText.{symmetry_fault_words};

use crate::lines::Line;
use cert_check::{Answer, Fault, NodeFault};
use puzzle_symmetry::SymmetryFault;
use std::alloc::{AllocError, Global};
use text_words::character;

#[tactic(auto, using(crate::proofs::LineLemmas::line_laws))]
fn put_numbered(line: &mut Line, word: &[u8], number: u32) -> Result<(), AllocError>
    ensures { OnOk result (line.new ≡ line.old ++ spaced (word.now ∷ decimal number ∷ [])) }
{
    line.word(word)?;
    line.number(number)
}

#[tactic(auto, using(crate::proofs::LineLemmas::line_laws), unfolding(crate::specs::AnswerText::symmetry_fault_words))]
fn put_symmetry_fault(line: &mut Line, fault: &SymmetryFault) -> Result<(), AllocError>
    requires { HasWords fault.now }
    ensures { OnOk result (line.new ≡ line.old ++ spaced (symmetry_fault_words fault.now)) }
{
    match *fault {
        SymmetryFault::MatesBroken(colour) => {
            line.word(b"mates")?;
            line.word(&[character(colour as u8)])
        }
        _ => line.displayed(fault),
    }
}

#[tactic(auto, using(crate::proofs::LineLemmas::line_laws), unfolding(crate::specs::AnswerText::node_fault_words))]
fn put_node_fault(line: &mut Line, fault: &NodeFault) -> Result<(), AllocError>
    ensures { OnOk result (line.new ≡ line.old ++ spaced (node_fault_words fault.now)) }
{
    match *fault {
        NodeFault::CellRange => line.word(b"cell-range"),
        NodeFault::CellTaken => line.word(b"cell-taken"),
        NodeFault::TileSpare => line.word(b"tile-spare"),
        NodeFault::TileRange => line.word(b"tile-range"),
        NodeFault::TileTaken => line.word(b"tile-taken"),
        NodeFault::WrongCount { fits, children } => {
            put_numbered(line, b"wrong-count", fits)?;
            line.number(children)
        }
        NodeFault::NotDead { fits } => put_numbered(line, b"not-dead", fits),
        NodeFault::NotWhole => line.word(b"not-whole"),
        NodeFault::ListRange => line.word(b"list-range"),
        NodeFault::NotListed => line.word(b"not-listed"),
        NodeFault::NotEarlier => line.word(b"not-earlier"),
        NodeFault::SymmetryRange => line.word(b"symmetry-range"),
        NodeFault::NotWithin => line.word(b"not-within"),
    }
}

#[tactic(auto, using(crate::proofs::LineLemmas::line_laws), unfolding(crate::specs::AnswerText::fault_words))]
fn put_fault(line: &mut Line, fault: &Fault) -> Result<(), AllocError>
    requires { HasLine (Answer.Refused fault.now) }
    ensures { OnOk result (line.new ≡ line.old ++ spaced (fault_words fault.now)) }
{
    match fault {
        Fault::List(number, fault) => {
            put_numbered(line, b"list", *number)?;
            line.displayed(fault)
        }
        Fault::Repeated(number) => put_numbered(line, b"repeated", *number),
        Fault::Symmetry(number, fault) => {
            put_numbered(line, b"symmetry", *number)?;
            put_symmetry_fault(line, fault)
        }
        Fault::Prefix(lemma, fault) => {
            put_numbered(line, b"prefix", *lemma)?;
            line.displayed(fault)
        }
        Fault::Root => line.word(b"root"),
        Fault::Tree(lemma, fault) => {
            put_numbered(line, b"tree", *lemma)?;
            line.word(b"at")?;
            line.path(fault.path.steps())?;
            put_node_fault(line, &fault.fault)
        }
    }
}

/// Writes the line of an answer about a list of `listed` arrangements. An error comes where memory is refused.
#[tactic(auto, using(crate::proofs::LineLemmas::line_laws), unfolding(crate::specs::AnswerText::answer_line))]
pub fn write_answer(alloc: Global, answer: &Answer, listed: u32) -> Result<Vec<u8>, AllocError>
    requires { HasLine answer.now }
    ensures { IfOk result (λ text. text.items ≡ answer_line answer.now listed) }
{
    let line = match answer {
        Answer::Complete => {
            let mut line = Line::new(alloc, b"complete")?;
            line.number(listed)?;
            line
        }
        Answer::Refused(fault) => {
            let mut line = Line::new(alloc, b"refused")?;
            put_fault(&mut line, fault)?;
            line
        }
    };
    line.end()
}
