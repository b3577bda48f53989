//! Runs that check a list, and print a page that publishes it.

ghost use Rattle.std.specs.Prelude.{◌≡◌, IfOk, IsErrOf, length};
ghost use Rattle.match_limits.specs.declared.TheConstants.{MOST_ARRANGEMENTS};
ghost use Rattle.puzzle_symmetry.specs.Complete.{IsCompleteList};
ghost use Rattle.symmetry_orbits.specs.Orbits.{AreMoreListedOrInOrbit};
ghost use Rattle.cert_check.specs.Answer.{IsAnswer};
ghost use Rattle.cert_check.specs.declared.faults.Answer.TheVariants.{Complete, Refused};
ghost use Rattle.match_report.specs.AnswerText.{answer_line};
ghost use Rattle.byte_streams.specs.LentTexts.{texts_of};
ghost use Rattle.command_runs.specs.Pages.{IsPage, IsPagePrinted, PageGives};
ghost use Rattle.command_runs.specs.Printing.{PrintingFails, QuestionFails};
ghost use Rattle.command_runs.specs.Runs.{MadeOf, Runs, unhinted};
ghost use Rattle.command_runs.specs.declared.printing_runs.Printing.TheVariants as printings;

use crate::faults::RunFault;
use crate::hints::{HintedFault, hint_of, with_hint};
use crate::questions::{checked, read_question};
use crate::running::run_by;
use byte_streams::{Documents, Inputs, MadeText, Outputs, OwnedDocuments};
use cert_check::{Answer, Fault, Prepared, Question};
use match_limits::Drawn;
use match_report::{ExpandFault, Status, count_complete, write_verdict};
use show_page::{ListTexts, PageCounts, draw_pictures, write_page};
use std::alloc::{AllocError, Global};
use std::random::RandomSource;
use symmetry_orbits::RandomFold;

/// A page that publishes a list, and whether a hint is wanted beside the fault of a text.
#[derive(Clone, Copy)]
pub struct PagePlan<'a> {
    /// The page's heading.
    pub title: &'a str,
    /// How many of the listed arrangements a sheet shows.
    pub first: Drawn,
    pub hints: bool,
}

/// Reads a puzzle, a list and a certificate, and checks them, wherever the documents come from and the page goes to.
/// Where the list is complete, it writes a page (HTML) under the plan's title. The page says how many arrangements,
/// pictures and orbits there are, and how many symmetries are named; it shows the first listed arrangement, and a sheet
/// of the first; and it has the three texts with their SHA-256. Where the list is refused, it writes the answer alone.
///
/// `Expand` comes where over 1,000,000 arrangements are in one orbit. Where a hint is wanted and a text has a fault,
/// the hint says what has to be changed there, unless memory is refused to it.
pub fn run_page<I: Inputs<Texts = OwnedDocuments>, O: Outputs<Made = MadeText>, R: RandomSource>(
    rt: &R,
    alloc: Global,
    plan: &PagePlan<'_>,
    inputs: &mut I,
    outputs: &mut O,
) -> Result<Status, HintedFault>
    ensures same { I.same inputs.old inputs.new × O.same outputs.old outputs.new }
    ensures run { Runs (I.reads inputs.old inputs.new) (PageGives plan.now) (PrintingFails printings.Count)
        (O.writes outputs.old outputs.new) (unhinted result) }
{
    let mut hint = None;
    let make = |texts: &OwnedDocuments| -> Result<(MadeText, Status), RunFault>
        ensures { MadeOf (PageGives plan.entry.now) (PrintingFails printings.Count) texts.now result }
    {
        let made = page_of(rt, alloc, texts, plan);
        if let (true, Err(fault)) = (plan.hints, &made) {
            hint = hint_of(alloc, &texts.lend(), fault);
        }
        made
    };
    let ended = run_by(alloc, inputs, make, outputs);
    with_hint(ended, hint)
}

// What to print of the documents.
fn page_of<R: RandomSource>(
    rt: &R,
    alloc: Global,
    texts: &OwnedDocuments,
    plan: &PagePlan<'_>,
) -> Result<(MadeText, Status), RunFault>
    ensures { MadeOf (PageGives plan.now) (PrintingFails printings.Count) texts.now result }
{
    let documents = texts.lend();
    let owned = read_question(alloc, &documents)?;
    let hasher = RandomFold::new(rt);
    question_page(alloc, &owned.question(), &documents, plan, hasher)
}

// What to print of the question that the documents ask, and the status of its answer.
fn question_page(
    alloc: Global,
    question: &Question<'_>,
    documents: &Documents<'_>,
    plan: &PagePlan<'_>,
    hasher: RandomFold,
) -> Result<(MadeText, Status), RunFault>
    ensures { MadeOf (IsPagePrinted (texts_of documents.now) plan.now) (QuestionFails printings.Count) question.now
        result }
{
    match checked(alloc, question)? {
        Ok(prepared) => {
            let text = complete_page(alloc, &prepared, documents, plan, hasher)?;
            Ok((MadeText::new(text), Status::Complete))
        }
        Err(fault) => {
            let text = refused_line(alloc, question, fault)?;
            Ok((MadeText::new(text), Status::Refused))
        }
    }
}

// The page of a complete list.
fn complete_page(
    alloc: Global,
    prepared: &Prepared<'_>,
    documents: &Documents<'_>,
    plan: &PagePlan<'_>,
    hasher: RandomFold,
) -> Result<Vec<u8>, ExpandFault>
    requires { IsCompleteList prepared.now.puzzle prepared.now.symmetries prepared.now.listed }
    ensures page { IfOk result (λ text. IsPage plan.now (texts_of documents.now) prepared.now text.items) }
    ensures too_many { IsErrOf result ExpandFault.TooMany
        → AreMoreListedOrInOrbit MOST_ARRANGEMENTS prepared.now.puzzle prepared.now.symmetries prepared.now.listed }
{
    let count = count_complete(alloc, prepared, hasher)?;
    let question = prepared.question();
    let listed = question.listed();
    let pictures = draw_pictures(alloc, question.puzzle(), listed, plan.first)?;
    let counts = PageCounts {
        count,
        symmetries: question.certificate().symmetries().len() as u64,
        listed: listed.len() as u64,
    };
    let texts = ListTexts {
        puzzle: documents.puzzle,
        list: documents.list,
        certificate: documents.certificate,
    };
    let page = write_page(alloc, plan.title, &texts, counts, &pictures)?;
    Ok(page)
}

// The answer that a list is refused for this fault.
fn refused_line(alloc: Global, question: &Question<'_>, fault: Fault) -> Result<Vec<u8>, AllocError>
    requires { IsAnswer question.now (Refused fault) }
    ensures { IfOk result (λ text. text.items ≡ answer_line (Refused fault) (length question.now.listed)) }
{
    let verdict = write_verdict(alloc, question, &Answer::Refused(fault))?;
    Ok(verdict.line)
}
