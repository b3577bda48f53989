//! Runs that check a list, and print all arrangements, or why the list is refused.

ghost use Rattle.std.specs.Prelude.{◌≡◌, IfErr, IfOk, length};
ghost use Rattle.puzzle_symmetry.specs.Complete.{IsCompleteList};
ghost use Rattle.cert_check.specs.Answer.{IsAnswer};
ghost use Rattle.cert_check.specs.declared.faults.Answer.TheVariants.{Complete, Refused};
ghost use Rattle.match_report.specs.AnswerText.{answer_line};
ghost use Rattle.byte_streams.specs.Moves.{reading_of, writing_of};
ghost use Rattle.byte_streams.specs.Origins.{three_sources};
ghost use Rattle.byte_streams.specs.Targets.{one_sink};
ghost use Rattle.command_runs.specs.Printing.{IsPrinted, PrintingFails, PrintingGives, Prints, QuestionFails};
ghost use Rattle.command_runs.specs.Runs.{IsOfTexts, MadeOf, Runs, unhinted};

use crate::faults::RunFault;
use crate::hints::{HintedFault, hint_of, with_hint, without_hint};
use crate::questions::{checked, read_question};
use crate::running::run_by;
use byte_streams::{
    Inputs, MadeText, OneSink, Outputs, OwnedDocuments, Sink, Source, ThreeSources,
};
use cert_check::{Answer, Fault, Prepared, Question};
use match_report::{
    Status, expand_complete, write_all, write_answer, write_counts, write_orbits, write_verdict,
};
use show_pictures::{PicturePlan, write_listed_picture};
use show_refusals::write_explanation;
use std::alloc::{AllocError, Global};
use std::random::RandomSource;
use symmetry_orbits::RandomFold;

/// What is printed about a puzzle, a list and a certificate.
#[derive(Clone, Copy)]
pub enum Printing {
    /// The list of all arrangements.
    All,
    /// The list of one arrangement of each orbit (arrangements that symmetries take into each other).
    Orbits,
    /// How many arrangements, pictures and orbits there are, and how many symmetries the certificate names.
    Count,
    /// A picture of arrangements, numbered as in the list of all.
    Picture(PicturePlan),
    /// The answer and, where it is a refusal, the reason.
    Explanation,
}

/// What is printed, and whether a hint is wanted beside the fault of a text.
#[derive(Clone, Copy)]
pub struct PrintingPlan {
    pub printing: Printing,
    pub hints: bool,
}

/// Reads a puzzle, a list and a certificate, each to its end and in this order, and checks them. Where the list is
/// complete, it writes the list of all arrangements of the puzzle, each once: the listed ones and then their images, in
/// the order in which the symmetries reach them. Where the list is refused, it writes the answer. The arrangements are
/// hashed with a secret, so that nobody can make a list that is slow to expand.
///
/// `Expand` comes where there are over 1,000,000 arrangements. The other faults are those of
/// [`run_check`](crate::check_runs::run_check). After a fault other than `Write` nothing was written.
pub fn run_expand<P: Source, L: Source, C: Source, W: Sink, R: RandomSource>(
    rt: &R,
    alloc: Global,
    puzzle: &mut P,
    list: &mut L,
    certificate: &mut C,
    writer: &mut W,
) -> Result<Status, RunFault>
    ensures { Runs (three_sources (reading_of P.Source puzzle.old puzzle.new) (reading_of L.Source list.old list.new)
        (reading_of C.Source certificate.old certificate.new)) (PrintingGives Printing.All)
        (PrintingFails Printing.All) (one_sink (writing_of W.Sink writer.old writer.new)) result }
{
    let mut inputs = ThreeSources {
        puzzle,
        list,
        certificate,
    };
    let plan = PrintingPlan {
        printing: Printing::All,
        hints: false,
    };
    let ended = run_printing(rt, alloc, plan, &mut inputs, &mut OneSink { sink: writer });
    without_hint(ended)
}

/// Reads a puzzle, a list and a certificate, and checks them, wherever the documents come from and the text goes to.
/// Then it prints what the plan asks for: the list of all arrangements; the first listed one of each orbit; how many
/// there are; a picture of some of all arrangements; or the answer with, where the list is refused, the reason. Where
/// the list is refused, the first four print the answer alone.
///
/// A count has four lines:
///
/// - `arrangements N`
/// - `pictures P`: how many, if those that show the same at each cell count once
/// - `orbits K`: how many, if those that the certificate's symmetries take into each other count once
/// - `symmetries S`: how many symmetries the certificate names
///
/// `Expand` comes where over 1,000,000 arrangements are to be listed or drawn of; for orbits and for a count, where over
/// 1,000,000 are in one orbit. `NoArrangement` comes where there is none with the number of the first that is to be
/// drawn. Where a hint is wanted and a text has a fault, the hint says what has to be changed there, unless memory is
/// refused to it.
pub fn run_printing<
    I: Inputs<Texts = OwnedDocuments>,
    O: Outputs<Made = MadeText>,
    R: RandomSource,
>(
    rt: &R,
    alloc: Global,
    plan: PrintingPlan,
    inputs: &mut I,
    outputs: &mut O,
) -> Result<Status, HintedFault>
    ensures same { I.same inputs.old inputs.new × O.same outputs.old outputs.new }
    ensures run { Runs (I.reads inputs.old inputs.new) (PrintingGives plan.printing) (PrintingFails plan.printing)
        (O.writes outputs.old outputs.new) (unhinted result) }
{
    let mut hint = None;
    let make = |texts: &OwnedDocuments| -> Result<(MadeText, Status), RunFault>
        ensures { MadeOf (PrintingGives plan.printing) (PrintingFails plan.printing) texts.now result }
    {
        let made = printing_of(rt, alloc, texts, plan.printing);
        if let (true, Err(fault)) = (plan.hints, &made) {
            hint = hint_of(alloc, &texts.lend(), fault);
        }
        made
    };
    let ended = run_by(alloc, inputs, make, outputs);
    with_hint(ended, hint)
}

// What to print about the documents.
fn printing_of<R: RandomSource>(
    rt: &R,
    alloc: Global,
    texts: &OwnedDocuments,
    printing: Printing,
) -> Result<(MadeText, Status), RunFault>
    ensures { MadeOf (PrintingGives printing) (PrintingFails printing) texts.now result }
{
    let documents = texts.lend();
    let owned = read_question(alloc, &documents)?;
    let explaining = Explaining {
        certificate: documents.certificate,
        hasher: RandomFold::new(rt),
    };
    question_text(alloc, &owned.question(), &explaining, printing)
}

// What to print about the question, and the status of its answer.
fn question_text(
    alloc: Global,
    question: &Question<'_>,
    explaining: &Explaining<'_>,
    printing: Printing,
) -> Result<(MadeText, Status), RunFault>
    ensures { MadeOf (IsPrinted printing) (QuestionFails printing) question.now result }
{
    match checked(alloc, question)? {
        Ok(prepared) => complete_text(alloc, prepared, explaining.hasher, printing),
        Err(fault) => {
            let text = refused_text(alloc, question, fault, explaining, printing)?;
            Ok((MadeText::new(text), Status::Refused))
        }
    }
}

// What to print where the list is complete.
fn complete_text(
    alloc: Global,
    prepared: Prepared<'_>,
    hasher: RandomFold,
    printing: Printing,
) -> Result<(MadeText, Status), RunFault>
    requires { IsAnswer prepared Complete × IsCompleteList prepared.puzzle prepared.symmetries prepared.listed }
    ensures { MadeOf (IsPrinted printing) (QuestionFails printing) prepared.entry result }
{
    let text = match printing {
        Printing::All => write_all(alloc, prepared, hasher)?,
        Printing::Orbits => write_orbits(alloc, &prepared, hasher)?,
        Printing::Count => write_counts(alloc, &prepared, hasher)?,
        Printing::Picture(plan) => picture_of_all(alloc, prepared, hasher, plan)?,
        Printing::Explanation => complete_line(alloc, &prepared)?,
    };
    Ok((MadeText::new(text), Status::Complete))
}

// A picture of some of all arrangements.
fn picture_of_all(
    alloc: Global,
    prepared: Prepared<'_>,
    hasher: RandomFold,
    plan: PicturePlan,
) -> Result<Vec<u8>, RunFault>
    requires { IsAnswer prepared Complete × IsCompleteList prepared.puzzle prepared.symmetries prepared.listed }
    ensures drawn { IfOk result (λ text. Prints prepared.entry Complete (Printing.Picture plan) text.items) }
    ensures fails { IfErr result (λ fault. QuestionFails (Printing.Picture plan) prepared.entry fault × IsOfTexts fault) }
{
    let puzzle = prepared.question().puzzle();
    let all = expand_complete(alloc, prepared, hasher)?;
    let picture = write_listed_picture(alloc, puzzle, all.as_slice(), &plan)?;
    Ok(picture)
}

// The answer that a list is complete.
fn complete_line(alloc: Global, prepared: &Prepared<'_>) -> Result<Vec<u8>, AllocError>
    ensures { IfOk result (λ text. text.items ≡ answer_line Complete (length prepared.now.listed)) }
{
    let listed = prepared.question().listed().len() as u32;
    write_answer(alloc, &Answer::Complete, listed)
}

// What the explanation of a fault needs: the certificate's text, and a hash for images of arrangements.
#[derive(Clone, Copy)]
struct Explaining<'a> {
    certificate: &'a [u8],
    hasher: RandomFold,
}

// What to print where the list is refused for this fault.
fn refused_text(
    alloc: Global,
    question: &Question<'_>,
    fault: Fault,
    explaining: &Explaining<'_>,
    printing: Printing,
) -> Result<Vec<u8>, AllocError>
    requires { IsAnswer question.now (Refused fault) }
    ensures { IfOk result (λ text. Prints question.now (Refused fault) printing text.items) }
{
    match printing {
        Printing::All | Printing::Orbits | Printing::Count | Printing::Picture(_) => {
            let verdict = write_verdict(alloc, question, &Answer::Refused(fault))?;
            Ok(verdict.line)
        }
        Printing::Explanation => {
            let Explaining {
                certificate,
                hasher,
            } = *explaining;
            let why = write_explanation(alloc, question, &fault, certificate, hasher)?;
            let verdict = write_verdict(alloc, question, &Answer::Refused(fault))?;
            let mut text = verdict.line;
            text.extend_from_slice(&why)?;
            Ok(text)
        }
    }
}
