//! Runs over documents, one of which may be on standard input. Where all are files, nothing is taken from there.

ghost use Rattle.std.specs.Prelude.{◌≡◌};
ghost use Rattle.byte_streams.specs.Moves.{reading_of, writing_of};
ghost use Rattle.byte_streams.specs.Origins.{one_source, two_sources};
ghost use Rattle.byte_streams.specs.declared.faults.Document.TheVariants as documents;
ghost use Rattle.command_orders.specs.InputUse.{LeavesInput, is_given_on_input, is_on_input};
ghost use Rattle.command_orders.specs.InputUse.{is_one_of_two_on_input};
ghost use Rattle.command_orders.specs.OrderRuns.{CensusOf, CheckOf, CutTilesOf, DescriptionOf, DocumentsOf, DrawingOf, FindOf};
ghost use Rattle.command_orders.specs.OrderRuns.{PageOf, PrintingOf};
ghost use Rattle.command_orders.specs.PlaceOrigins.{given_documents, one_place, two_places};
ghost use Rattle.command_runs.specs.Runs.{unhinted};

use crate::exits::Exit;
use crate::files::open;
use crate::given_inputs::{GivenInputs, open_given};
use crate::progress::{CensusProgress, CheckProgress, FindProgress};
use crate::workers::workers_of;
use byte_streams::{Document, FileSystem, Inputs, OneSink, OwnedDocuments, Sink, Source};
use command_runs::{
    CensusPlan, CheckPlan, CutPlan, Description, FindPlan, HintedFault, PagePlan, PicturePlan,
    PrintingPlan, Watched, run_census, run_check_watched, run_cut, run_cut_listed, run_description,
    run_find, run_listed, run_page, run_picture, run_printing,
};
use command_words::{CensusOrder, FindOrder, Given, Place, TwoPlaces};
use match_limits::ArrangementNumber;
use match_report::Status;
use std::alloc::Global;
use std::random::RandomSource;
use std::thread::Threads;
use std::time::Clock;

// ---- of a puzzle

// An order about a puzzle alone.
#[derive(Clone, Copy)]
pub(crate) struct DescriptionOrder<'a> {
    pub(crate) puzzle: &'a Place,
    pub(crate) description: Description,
}

impl<'a> DescriptionOrder<'a> {
    pub(crate) fn new(puzzle: &'a Place, description: Description) -> DescriptionOrder<'a>
        ensures puzzle { result.puzzle.now ≡ puzzle.now }
        ensures description { result.description ≡ description }
    {
        DescriptionOrder {
            puzzle,
            description,
        }
    }
}

pub(crate) fn describe<S: FileSystem, I: Source, W: Sink>(
    alloc: Global,
    order: &DescriptionOrder<'_>,
    system: &S,
    input: &mut I,
    output: &mut W,
) -> Result<Exit, HintedFault>
    ensures run { DescriptionOf order.now.description
        (one_place S.FileSystem S.Reader.Source system.now I.Source input.old input.new order.now.puzzle.now)
        (writing_of W.Sink output.old output.new) (unhinted result) }
    ensures unread { LeavesInput (is_on_input order.now.puzzle.now) input.old input.new }
{
    match order.puzzle {
        Place::File(name) => {
            let mut puzzle = open(alloc, system, name, Document::Puzzle)?;
            describe_from(alloc, &mut puzzle, order.description, output)
        }
        Place::Input => describe_from(alloc, input, order.description, output),
    }
}

// Describes the puzzle that this source has.
fn describe_from<P: Source, W: Sink>(
    alloc: Global,
    puzzle: &mut P,
    description: Description,
    output: &mut W,
) -> Result<Exit, HintedFault>
    ensures { DescriptionOf description (one_source documents.Puzzle (reading_of P.Source puzzle.old puzzle.new))
        (writing_of W.Sink output.old output.new) (unhinted result) }
{
    run_description(alloc, puzzle, description, output)?;
    Ok(Exit::Done)
}

// Draws the tiles of the puzzle on pages, to be cut out.
pub(crate) fn cut_tiles<S: FileSystem, I: Source, W: Sink>(
    alloc: Global,
    puzzle: &Place,
    plan: CutPlan,
    system: &S,
    input: &mut I,
    output: &mut W,
) -> Result<Exit, HintedFault>
    ensures run { CutTilesOf plan.size
        (one_place S.FileSystem S.Reader.Source system.now I.Source input.old input.new puzzle.now)
        (writing_of W.Sink output.old output.new) (unhinted result) }
    ensures unread { LeavesInput (is_on_input puzzle.now) input.old input.new }
{
    match puzzle {
        Place::File(file) => {
            let mut puzzle = open(alloc, system, file, Document::Puzzle)?;
            cut_tiles_from(alloc, &mut puzzle, plan, output)
        }
        Place::Input => cut_tiles_from(alloc, input, plan, output),
    }
}

// Draws the tiles of the puzzle that this source has.
fn cut_tiles_from<P: Source, W: Sink>(
    alloc: Global,
    puzzle: &mut P,
    plan: CutPlan,
    output: &mut W,
) -> Result<Exit, HintedFault>
    ensures { CutTilesOf plan.size (one_source documents.Puzzle (reading_of P.Source puzzle.old puzzle.new))
        (writing_of W.Sink output.old output.new) (unhinted result) }
{
    run_cut(alloc, puzzle, plan, output)?;
    Ok(Exit::Done)
}

// Counts arrangements of the puzzle by a search.
pub(crate) fn count<S: FileSystem, I: Source, W: Sink, R: Threads + Sync + Clock + Eprint>(
    rt: &R,
    alloc: Global,
    order: &CensusOrder,
    system: &S,
    input: &mut I,
    output: &mut W,
) -> Result<Exit, HintedFault>
    ensures run { CensusOf order.now.extent
        (one_place S.FileSystem S.Reader.Source system.now I.Source input.old input.new order.now.puzzle)
        (writing_of W.Sink output.old output.new) (unhinted result) }
    ensures unread { LeavesInput (is_on_input order.now.puzzle) input.old input.new }
{
    match &order.puzzle {
        Place::File(file) => {
            let mut puzzle = open(alloc, system, file, Document::Puzzle)?;
            count_from(rt, alloc, order, &mut puzzle, output)
        }
        Place::Input => count_from(rt, alloc, order, input, output),
    }
}

// Counts arrangements of the puzzle that this source has.
fn count_from<P: Source, W: Sink, R: Threads + Sync + Clock + Eprint>(
    rt: &R,
    alloc: Global,
    order: &CensusOrder,
    puzzle: &mut P,
    output: &mut W,
) -> Result<Exit, HintedFault>
    ensures { CensusOf order.now.extent (one_source documents.Puzzle (reading_of P.Source puzzle.old puzzle.new))
        (writing_of W.Sink output.old output.new) (unhinted result) }
{
    let plan = CensusPlan {
        extent: order.extent,
        workers: workers_of(rt, order.workers),
        watch: &CensusProgress::new(rt, order.progress),
    };
    run_census(rt, alloc, puzzle, &plan, output)?;
    Ok(Exit::Done)
}

// Finds some arrangements of the puzzle.
pub(crate) fn find<
    S: FileSystem,
    I: Source,
    W: Sink,
    R: Threads + Sync + RandomSource + Clock + Eprint,
>(
    rt: &R,
    alloc: Global,
    order: &FindOrder,
    system: &S,
    input: &mut I,
    output: &mut W,
) -> Result<Exit, HintedFault>
    ensures run { FindOf order.now.first order.now.orbits
        (one_place S.FileSystem S.Reader.Source system.now I.Source input.old input.new order.now.puzzle)
        (writing_of W.Sink output.old output.new) (unhinted result) }
    ensures unread { LeavesInput (is_on_input order.now.puzzle) input.old input.new }
{
    match &order.puzzle {
        Place::File(file) => {
            let mut puzzle = open(alloc, system, file, Document::Puzzle)?;
            find_from(rt, alloc, order, &mut puzzle, output)
        }
        Place::Input => find_from(rt, alloc, order, input, output),
    }
}

// Finds some arrangements of the puzzle that this source has.
fn find_from<P: Source, W: Sink, R: Threads + Sync + RandomSource + Clock + Eprint>(
    rt: &R,
    alloc: Global,
    order: &FindOrder,
    puzzle: &mut P,
    output: &mut W,
) -> Result<Exit, HintedFault>
    ensures { FindOf order.now.first order.now.orbits
        (one_source documents.Puzzle (reading_of P.Source puzzle.old puzzle.new))
        (writing_of W.Sink output.old output.new) (unhinted result) }
{
    let plan = FindPlan {
        first: order.first,
        orbits: order.orbits,
        seed: order.seed,
        workers: workers_of(rt, order.workers),
        watch: &FindProgress::new(rt, order.progress),
    };
    run_find(rt, alloc, puzzle, &plan, output)?;
    Ok(Exit::Done)
}

// ---- of a puzzle and a list

// What is drawn of a list.
#[derive(Clone, Copy)]
pub(crate) enum Drawing {
    // The arrangement with this number, as text.
    Arrangement(ArrangementNumber),
    // A picture of arrangements.
    Picture(PicturePlan),
    // Pages of the puzzle's tiles, to be cut out, and of the arrangement with this number.
    CutTiles {
        number: ArrangementNumber,
        plan: CutPlan,
    },
}

// A drawing that is ordered.
#[derive(Clone, Copy)]
pub(crate) struct DrawingOrder<'a> {
    pub(crate) places: &'a TwoPlaces,
    pub(crate) drawing: Drawing,
}

// Draws. Opens all files before anything is read.
pub(crate) fn draw<S: FileSystem, I: Source, W: Sink>(
    alloc: Global,
    order: &DrawingOrder<'_>,
    system: &S,
    input: &mut I,
    output: &mut W,
) -> Result<Exit, HintedFault>
    ensures run { DrawingOf order.now.drawing
        (two_places S.FileSystem S.Reader.Source system.now I.Source input.old input.new order.now.places.now)
        (writing_of W.Sink output.old output.new) (unhinted result) }
    ensures unread { LeavesInput (is_one_of_two_on_input order.now.places.now) input.old input.new }
{
    match (&order.places.puzzle, &order.places.list) {
        (Place::File(puzzle), Place::File(list)) => {
            let mut puzzle = open(alloc, system, puzzle, Document::Puzzle)?;
            let mut list = open(alloc, system, list, Document::List)?;
            draw_from(alloc, order.drawing, &mut puzzle, &mut list, output)
        }
        (Place::Input, Place::File(list)) => {
            let mut list = open(alloc, system, list, Document::List)?;
            draw_from(alloc, order.drawing, input, &mut list, output)
        }
        (Place::File(puzzle), Place::Input) => {
            let mut puzzle = open(alloc, system, puzzle, Document::Puzzle)?;
            draw_from(alloc, order.drawing, &mut puzzle, input, output)
        }
        (Place::Input, Place::Input) => unreachable!(),
    }
}

// Draws from the puzzle and the list that these sources have.
fn draw_from<P: Source, L: Source, W: Sink>(
    alloc: Global,
    drawing: Drawing,
    puzzle: &mut P,
    list: &mut L,
    output: &mut W,
) -> Result<Exit, HintedFault>
    ensures { DrawingOf drawing
        (two_sources (reading_of P.Source puzzle.old puzzle.new) (reading_of L.Source list.old list.new))
        (writing_of W.Sink output.old output.new) (unhinted result) }
{
    match drawing {
        Drawing::Arrangement(number) => {
            run_listed(alloc, puzzle, list, number.get(), output)?;
            Ok(Exit::Done)
        }
        Drawing::Picture(plan) => {
            run_picture(alloc, puzzle, list, plan, output)?;
            Ok(Exit::Done)
        }
        Drawing::CutTiles { number, plan } => {
            run_cut_listed(alloc, puzzle, list, number, plan, output)?;
            Ok(Exit::Done)
        }
    }
}

// ---- of three documents

// A check that prints its answer.
#[derive(Clone, Copy)]
pub(crate) struct AnswerPlan {
    pub(crate) check: CheckPlan,
    // Whether it says meanwhile how far it is.
    pub(crate) progress: bool,
    pub(crate) hints: bool,
    // Whether it says, where the list is complete, what the listed arrangements stand for.
    pub(crate) scope: bool,
}

// What a check prints.
#[derive(Clone, Copy)]
pub(crate) enum DocumentsPlan {
    // Its answer.
    Answer(AnswerPlan),
    // All arrangements, one of each orbit, how many there are, or why the list is refused.
    Printing(PrintingPlan),
}

// A check of three documents.
#[derive(Clone, Copy)]
pub(crate) struct DocumentsOrder<'a, R> {
    pub(crate) rt: &'a R,
    pub(crate) alloc: Global,
    pub(crate) plan: DocumentsPlan,
}

impl<'a, R: Threads + Sync + RandomSource + Clock + Eprint> DocumentsOrder<'a, R> {
    pub(crate) fn new(rt: &'a R, alloc: Global, plan: DocumentsPlan) -> DocumentsOrder<'a, R>
        ensures { result.plan ≡ plan }
    {
        DocumentsOrder { rt, alloc, plan }
    }

    // Checks the documents that are given in this way. Opens all files before anything is read.
    pub(crate) fn run<S: FileSystem, I: Source, W: Sink>(
        &self,
        given: &Given,
        system: &S,
        input: &mut I,
        output: &mut W,
    ) -> Result<Exit, HintedFault>
        ensures run { DocumentsOf self.now.plan
            (given_documents S.FileSystem S.Reader.Source system.now I.Source input.old input.new given.now)
            (writing_of W.Sink output.old output.new) (unhinted result) }
        ensures unread { LeavesInput (is_given_on_input given.now) input.old input.new }
    {
        let mut readers = open_given(self.alloc, system, given)?;
        let mut inputs = GivenInputs {
            input,
            readers: &mut readers,
        };
        self.check_inputs(&mut inputs, output)
    }

    // Checks the documents that these inputs have.
    fn check_inputs<N: Inputs<Texts = OwnedDocuments>, W: Sink>(
        &self,
        inputs: &mut N,
        output: &mut W,
    ) -> Result<Exit, HintedFault>
        ensures same { N.same inputs.old inputs.new }
        ensures run { DocumentsOf self.now.plan (N.reads inputs.old inputs.new)
            (writing_of W.Sink output.old output.new) (unhinted result) }
    {
        match self.plan {
            DocumentsPlan::Answer(plan) => self.answer(plan, inputs, output),
            DocumentsPlan::Printing(plan) => self.print(plan, inputs, output),
        }
    }

    // Prints the answer.
    fn answer<N: Inputs<Texts = OwnedDocuments>, W: Sink>(
        &self,
        plan: AnswerPlan,
        inputs: &mut N,
        output: &mut W,
    ) -> Result<Exit, HintedFault>
        ensures same { N.same inputs.old inputs.new }
        ensures run { CheckOf (N.reads inputs.old inputs.new) (writing_of W.Sink output.old output.new)
            (unhinted result) }
    {
        let progress = CheckProgress::new(self.rt, plan.progress);
        let check = Watched {
            plan: plan.check,
            watch: &progress,
            hints: plan.hints,
        };
        let mut outputs = OneSink { sink: output };
        let status = run_check_watched(self.rt, self.alloc, &check, inputs, &mut outputs)?;
        tell_scope(&progress, plan.scope, status);
        Ok(Exit::of_status(status))
    }

    // Prints more than the answer.
    fn print<N: Inputs<Texts = OwnedDocuments>, W: Sink>(
        &self,
        plan: PrintingPlan,
        inputs: &mut N,
        output: &mut W,
    ) -> Result<Exit, HintedFault>
        ensures same { N.same inputs.old inputs.new }
        ensures run { PrintingOf plan.printing (N.reads inputs.old inputs.new)
            (writing_of W.Sink output.old output.new) (unhinted result) }
    {
        let mut outputs = OneSink { sink: output };
        let status = run_printing(self.rt, self.alloc, plan, inputs, &mut outputs)?;
        Ok(Exit::of_status(status))
    }
}

// Checks the documents that are given in this way, and prints the page of a complete list. Opens all files before
// anything is read.
pub(crate) fn publish<S: FileSystem, I: Source, W: Sink, R: RandomSource>(
    rt: &R,
    alloc: Global,
    plan: &PagePlan<'_>,
    given: &Given,
    system: &S,
    input: &mut I,
    output: &mut W,
) -> Result<Exit, HintedFault>
    ensures run { PageOf plan.now
        (given_documents S.FileSystem S.Reader.Source system.now I.Source input.old input.new given.now)
        (writing_of W.Sink output.old output.new) (unhinted result) }
    ensures unread { LeavesInput (is_given_on_input given.now) input.old input.new }
{
    let mut readers = open_given(alloc, system, given)?;
    let mut inputs = GivenInputs {
        input,
        readers: &mut readers,
    };
    print_page(rt, alloc, plan, &mut inputs, output)
}

// Prints the page of the documents that these inputs have.
fn print_page<N: Inputs<Texts = OwnedDocuments>, W: Sink, R: RandomSource>(
    rt: &R,
    alloc: Global,
    plan: &PagePlan<'_>,
    inputs: &mut N,
    output: &mut W,
) -> Result<Exit, HintedFault>
    ensures same { N.same inputs.old inputs.new }
    ensures run { PageOf plan.now (N.reads inputs.old inputs.new) (writing_of W.Sink output.old output.new)
        (unhinted result) }
{
    let mut outputs = OneSink { sink: output };
    let status = run_page(rt, alloc, plan, inputs, &mut outputs)?;
    Ok(Exit::of_status(status))
}

// Where a list is complete and somebody watches on a terminal, says what the listed arrangements stand for.
fn tell_scope<R: Clock + Eprint>(
    progress: &CheckProgress<'_, R>,
    is_watched: bool,
    status: Status,
) {
    if let (true, Status::Complete) = (is_watched, status) {
        progress.tell_scope();
    }
}
