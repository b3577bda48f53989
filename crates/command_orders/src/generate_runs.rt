//! Runs the orders of puzzles that are to be made.

ghost use Rattle.std.specs.Prelude.{◌≡◌};
ghost use Rattle.byte_streams.specs.Moves.{reading_of, writing_of};
ghost use Rattle.byte_streams.specs.Origins.{one_source};
ghost use Rattle.byte_streams.specs.declared.faults.Document.TheVariants as documents;
ghost use Rattle.command_runs.specs.Runs.{unhinted};
ghost use Rattle.command_orders.specs.InputUse.{LeavesInput, are_rules_on_input, is_on_input};
ghost use Rattle.command_orders.specs.OrderRuns.{GenerateOf, LikeOf, PlainOf};
ghost use Rattle.command_orders.specs.PlaceOrigins.{one_place};

use crate::exits::Exit;
use crate::files::open;
use crate::progress::GenerateProgress;
use byte_streams::{Document, FileSystem, Sink, Source};
use command_runs::{HintedFault, RunFault, run_generate, run_generate_like};
use command_words::{GenerateOrder, Place, WantedRules};
use puzzle_drafts::{Misfit, PlainRules};
use puzzle_maker::{Flaw, MakeFault};
use std::alloc::Global;
use std::time::Clock;

// What may help where no puzzle that was drawn will do.
const ADVICE: &str = "more colours may help, clues, another --seed, or a greater --tries";

// What may help where the colours that are to be mates can't be paired.
const ODD_MATES: &str =
    "with --border frame, the default, or one, colour 0 has no mate: name an odd number of colours there, and an even one with free or each";

/// Makes a puzzle by the rules that are asked for, or by those of a puzzle, and prints its text.
pub(crate) fn generate<S: FileSystem, I: Source, W: Sink, R: Clock + Eprint>(
    rt: &R,
    alloc: Global,
    order: &GenerateOrder,
    system: &S,
    input: &mut I,
    output: &mut W,
) -> Result<Exit, HintedFault>
    ensures run { GenerateOf S.FileSystem S.Reader.Source I.Source system.now input.old input.new order.now.rules
        order.now.draft (writing_of W.Sink output.old output.new) (unhinted result) }
    ensures unread { LeavesInput (are_rules_on_input order.now.rules) input.old input.new }
{
    match &order.rules {
        WantedRules::Plain(rules) => generate_plain(rt, alloc, rules, order, output),
        WantedRules::Like(model) => generate_like(rt, alloc, order, model, system, input, output),
    }
}

// Makes a puzzle by these rules.
fn generate_plain<W: Sink, R: Clock + Eprint>(
    rt: &R,
    alloc: Global,
    rules: &PlainRules,
    order: &GenerateOrder,
    output: &mut W,
) -> Result<Exit, HintedFault>
    ensures { PlainOf rules.now order.now.draft (writing_of W.Sink output.old output.new) (unhinted result) }
{
    let draft = &order.draft;
    let progress = GenerateProgress::new(rt, draft.tries, order.progress);
    match run_generate(alloc, rules, draft, &progress, output) {
        Ok(()) => Ok(Exit::Done),
        Err(fault) => Err(with_advice(alloc, fault, progress.last_flaw())),
    }
}

// Makes a puzzle by the rules of the one that stands at this place.
fn generate_like<S: FileSystem, I: Source, W: Sink, R: Clock + Eprint>(
    rt: &R,
    alloc: Global,
    order: &GenerateOrder,
    model: &Place,
    system: &S,
    input: &mut I,
    output: &mut W,
) -> Result<Exit, HintedFault>
    ensures run { LikeOf order.now.draft
        (one_place S.FileSystem S.Reader.Source system.now I.Source input.old input.new model.now)
        (writing_of W.Sink output.old output.new) (unhinted result) }
    ensures unread { LeavesInput (is_on_input model.now) input.old input.new }
{
    match model {
        Place::File(file) => {
            let mut model = open(alloc, system, file, Document::Puzzle)?;
            generate_from(rt, alloc, order, &mut model, output)
        }
        Place::Input => generate_from(rt, alloc, order, input, output),
    }
}

// Makes a puzzle by the rules of the one that this source has.
fn generate_from<P: Source, W: Sink, R: Clock + Eprint>(
    rt: &R,
    alloc: Global,
    order: &GenerateOrder,
    model: &mut P,
    output: &mut W,
) -> Result<Exit, HintedFault>
    ensures { LikeOf order.now.draft (one_source documents.Puzzle (reading_of P.Source model.old model.new))
        (writing_of W.Sink output.old output.new) (unhinted result) }
{
    let draft = &order.draft;
    let progress = GenerateProgress::new(rt, draft.tries, order.progress);
    match run_generate_like(alloc, model, draft, &progress, output) {
        Ok(()) => Ok(Exit::Done),
        Err(hinted) => match hinted.hint {
            Some(_) => Err(hinted),
            None => Err(with_advice(alloc, hinted.fault, progress.last_flaw())),
        },
    }
}

// The fault, with what may help where the last puzzle that was drawn has this flaw.
fn with_advice(alloc: Global, fault: RunFault, flaw: Option<Flaw>) -> HintedFault
    ensures { result.fault ≡ fault }
{
    let hint = match fault {
        RunFault::Make(MakeFault::GaveUp) => advice(alloc, flaw),
        RunFault::Make(MakeFault::Misfit(Misfit::OddMates)) => {
            String::from_str(alloc, ODD_MATES).ok()
        }
        _ => None,
    };
    HintedFault { fault, hint }
}

// What may help where no puzzle that was drawn will do, and why the last one won't. `None` where memory is refused.
fn advice(alloc: Global, flaw: Option<Flaw>) -> Option<String> {
    let flaw = flaw?;
    format!(in alloc;
        "of the puzzles that were drawn none will do, the last for this: {flaw}; {ADVICE}"
    ).ok()
}
