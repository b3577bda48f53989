//! Runs orders: over which files each runs, and with which exit status it ends.

ghost use Rattle.std.specs.Prelude.{◌≡◌, false, map, true};
ghost use Rattle.std.specs.String.{string_bytes};
ghost use Rattle.byte_streams.specs.Moves.{reading_of, writing_of};
ghost use Rattle.byte_streams.specs.Origins.{one_source};
ghost use Rattle.byte_streams.specs.declared.faults.Document.TheVariants as documents;
ghost use Rattle.command_orders.specs.InputUse.{LeavesInput, are_parts_on_input, is_on_input, is_subject_on_input};
ghost use Rattle.command_orders.specs.OrderRuns.{IsPlanOf, IsSolvePlanOf, PagesOf, PictureOf, RunOver, ShowOf, SolveOf, TilesOf};
ghost use Rattle.command_orders.specs.OrderRuns.{TotalOf, list_printed, picture_printed};
ghost use Rattle.command_orders.specs.PartFiles.{given_parts, part_files};
ghost use Rattle.command_orders.specs.PlaceOrigins.{one_place};
ghost use Rattle.command_runs.specs.Runs.{unhinted};
ghost use Rattle.command_orders.specs.SameStreams.{AreSameStreams};
ghost use Rattle.command_orders.specs.SolvedFiles.{PutsAll, solved_files};

use crate::exits::Exit;
use crate::files::{are_apart, hint_on, open};
use crate::generate_runs::generate;
use crate::made_files::{make_files, not_put, replaced};
use crate::part_files::PartFiles;
use crate::place_runs::{
    AnswerPlan, DescriptionOrder, DocumentsOrder, DocumentsPlan, Drawing, DrawingOrder, count,
    cut_tiles, describe, draw, find, publish,
};
use crate::progress::SolveProgress;
use crate::streams::Streams;
use crate::workers::workers_of;
use byte_streams::{
    Document, FileSystem, MadeFiles, OneSource, ProductNames, Sink, Source, ThreeSinks, Unsettled,
    settle,
};
use command_runs::{
    CheckPlan, CutPlan, Description, HintedFault, PagePlan, PicturePlan, Printing, PrintingPlan,
    RunFault, SearchPlan, SolvePlan, Watched, run_solve_watched, run_tile_lines, run_tiles,
    run_total,
};
use command_words::{
    CheckOrder, CutOrder, DrawAllOrder, DrawOrder, ExpandOrder, Files, Given, Order, PageOrder,
    PartPlaces, Place, SolveOrder, Subject, TilesOrder,
};
use match_limits::{Colours, Forks, Sides, Workers};
use std::alloc::Global;
use std::random::RandomSource;
use std::sync::Wait;
use std::thread::Threads;
use std::time::Clock;

/// Does what is ordered, and returns how the program ends where there was no fault: `Done`, or `Refused` where the list
/// that is given is not shown to be complete.
///
/// All files of an order are opened before one is read: the puzzle's, the list's, the certificate's. `Read` of the
/// first that can't be opened comes then. A document on standard input is read from there in its turn; where none is,
/// nothing is taken from standard input.
///
/// A solve makes its two files beside their names before it reads the puzzle. `Write` comes where two of the three are
/// one file, also the file that standard input is, or one can't be made. What it made is put under the names once
/// everything is written, the list first; after a fault it is removed. A solve that is checked has the fault `Refused`
/// where the certificate that it made does not show that its list is complete; then nothing is put under a name.
///
/// A hint says why a file is refused, or what has to be changed in a text that has a fault. There is none where memory
/// is refused to it. A check and a solve have no hint on a text where none is asked for and nobody reads it on a
/// terminal.
pub fn run_order<
    S: FileSystem,
    I: Source,
    W: Sink,
    E: Sink,
    R: Threads + Wait + Sync + RandomSource + Clock + Eprint,
>(
    rt: &R,
    alloc: Global,
    order: &Order,
    system: &mut S,
    streams: &mut Streams<'_, '_, '_, I, W, E>,
) -> Result<Exit, HintedFault>
    ensures same { AreSameStreams streams.old streams.new }
    ensures errors { streams.new.errors.now ≡ streams.old.errors.now }
    ensures run { RunOver S.FileSystem S.Reader.Source I.Source W.Sink system.old streams.old system.new streams.new
        order.now (unhinted result) }
{
    let is_watched = streams.terminal;
    match order {
        Order::Joined => {
            let check = DocumentsOrder::new(rt, alloc, DocumentsPlan::Answer(plain(is_watched)));
            check.run(&Given::Joined, system, streams.input, streams.output)
        }
        Order::Check(order) => {
            let plan = DocumentsPlan::Answer(answer_plan(rt, order, is_watched));
            let check = DocumentsOrder::new(rt, alloc, plan);
            check.run(&order.given, system, streams.input, streams.output)
        }
        Order::Solve(order) => {
            let ordered = OrderedSolve {
                plan: solve_plan(rt, order),
                progress: order.progress,
                hints: are_told(order.hints, is_watched),
            };
            let files = &order.files;
            solve(
                rt,
                alloc,
                files,
                ordered,
                system,
                streams.input,
                streams.output,
            )
        }
        Order::Explain(given) => {
            let order = DocumentsOrder::new(rt, alloc, DocumentsPlan::Printing(EXPLANATION));
            order.run(given, system, streams.input, streams.output)
        }
        Order::ExplainPuzzle(puzzle) => {
            let order = DescriptionOrder::new(puzzle, Description::NoFault);
            describe(alloc, &order, system, streams.input, streams.output)
        }
        Order::Expand(order) => {
            let plan = DocumentsPlan::Printing(expansion_plan(order, is_watched));
            let expansion = DocumentsOrder::new(rt, alloc, plan);
            expansion.run(&order.given, system, streams.input, streams.output)
        }
        Order::Count(given) => {
            let order = DocumentsOrder::new(rt, alloc, DocumentsPlan::Printing(COUNT));
            order.run(given, system, streams.input, streams.output)
        }
        Order::Page(order) => {
            let plan = page_plan(order, is_watched);
            let given = &order.given;
            publish(
                rt,
                alloc,
                &plan,
                given,
                system,
                streams.input,
                streams.output,
            )
        }
        Order::Census(order) => count(rt, alloc, order, system, streams.input, streams.output),
        Order::Find(order) => find(rt, alloc, order, system, streams.input, streams.output),
        Order::Generate(order) => generate(rt, alloc, order, system, streams.input, streams.output),
        Order::Total(parts) => add_up(alloc, parts, system, streams.input, streams.output),
        Order::Show(subject) => show(alloc, subject, system, streams.input, streams.output),
        Order::Draw(order) => picture(alloc, order, system, streams.input, streams.output),
        Order::DrawAll(order) => {
            let plan = DocumentsPlan::Printing(picture_of_all(order));
            let drawing = DocumentsOrder::new(rt, alloc, plan);
            drawing.run(&order.given, system, streams.input, streams.output)
        }
        Order::Cut(order) => pages(alloc, order, system, streams.input, streams.output),
        Order::Symmetries(puzzle) => {
            let order = DescriptionOrder::new(puzzle, Description::Symmetries);
            describe(alloc, &order, system, streams.input, streams.output)
        }
        Order::Tiles(order) => list_tiles(alloc, order, streams.output),
    }
}

// What `explain` prints of three documents.
const EXPLANATION: PrintingPlan = PrintingPlan {
    printing: Printing::Explanation,
    hints: true,
};

// What `count` prints of three documents.
const COUNT: PrintingPlan = PrintingPlan {
    printing: Printing::Count,
    hints: true,
};

// Whether hints are given: where they are asked for, or somebody reads them on a terminal.
fn are_told(hints: bool, terminal: bool) -> bool {
    hints || terminal
}

// A check without options. Where somebody watches on a terminal, it says there what has to be changed, and what the
// listed arrangements stand for.
fn plain(is_watched: bool) -> AnswerPlan {
    AnswerPlan {
        check: CheckPlan {
            workers: Workers::new(1),
            forks: Forks::new(0),
        },
        progress: false,
        hints: is_watched,
        scope: is_watched,
    }
}

// How an ordered check goes. Where somebody watches on a terminal, it says there what has to be changed, and what the
// listed arrangements stand for.
fn answer_plan<R: Threads>(rt: &R, order: &CheckOrder, is_watched: bool) -> AnswerPlan {
    AnswerPlan {
        check: CheckPlan {
            workers: workers_of(rt, order.workers),
            forks: order.forks,
        },
        progress: order.progress,
        hints: are_told(order.hints, is_watched),
        scope: is_watched,
    }
}

// The plan of a solve that is ordered.
fn solve_plan<R: Threads>(rt: &R, order: &SolveOrder) -> SolvePlan
    ensures { IsSolvePlanOf order.now result }
{
    let search = SearchPlan {
        depth: order.depth,
        fuel: order.fuel,
        workers: workers_of(rt, order.workers),
        symmetries: order.symmetries,
    };
    SolvePlan {
        search,
        check: order.check,
    }
}

// How a solve goes that is ordered.
#[derive(Clone, Copy)]
struct OrderedSolve {
    plan: SolvePlan,
    // Whether it says meanwhile how far it is.
    progress: bool,
    hints: bool,
}

// Solves the puzzle that stands at its place. Opens its file before the other two are made.
fn solve<S: FileSystem, I: Source, W: Sink, R: Threads + Wait + Sync + Clock + Eprint>(
    rt: &R,
    alloc: Global,
    files: &Files,
    ordered: OrderedSolve,
    system: &mut S,
    input: &mut I,
    output: &mut W,
) -> Result<Exit, HintedFault>
    ensures run { SolveOf ordered.plan
        (one_place S.FileSystem S.Reader.Source system.old I.Source input.old input.new files.now.puzzle)
        (solved_files files.now S.does S.leads system.old system.new (writing_of W.Sink output.old output.new))
        (PutsAll files.now S.does system.old system.new (writing_of W.Sink output.old output.new))
        (unhinted result) }
    ensures unread { LeavesInput (is_on_input files.now.puzzle) input.old input.new }
{
    match &files.puzzle {
        Place::File(name) => {
            let mut puzzle = open(alloc, system, name, Document::Puzzle)?;
            solve_from(rt, alloc, files, ordered, system, &mut puzzle, output)
        }
        Place::Input => solve_from(rt, alloc, files, ordered, system, input, output),
    }
}

// Solves the puzzle that this source has. Makes the list's file and the certificate's beside their names, before
// anything is read, and puts them there when everything is written. A file that is one of the others is not made.
fn solve_from<S: FileSystem, P: Source, W: Sink, R: Threads + Wait + Sync + Clock + Eprint>(
    rt: &R,
    alloc: Global,
    files: &Files,
    ordered: OrderedSolve,
    system: &mut S,
    puzzle: &mut P,
    output: &mut W,
) -> Result<Exit, HintedFault>
    ensures { SolveOf ordered.plan
        (one_source documents.Puzzle (reading_of P.Source puzzle.old puzzle.new))
        (solved_files files.now S.does S.leads system.old system.new (writing_of W.Sink output.old output.new))
        (PutsAll files.now S.does system.old system.new (writing_of W.Sink output.old output.new))
        (unhinted result) }
{
    if !are_apart(alloc, files, system)? {
        return Err(not_apart(alloc, files, system));
    }
    let names = ProductNames {
        list: &files.list,
        certificate: &files.certificate,
    };
    let mut made = make_files(alloc, &names, system)?;
    let progress = SolveProgress::new(rt, ordered.progress);
    let search = Watched {
        plan: ordered.plan,
        watch: &progress,
        hints: ordered.hints,
    };
    let solved = run_solve_watched(
        rt,
        alloc,
        &search,
        &mut OneSource {
            source: puzzle,
            document: Document::Puzzle,
        },
        &mut ThreeSinks {
            list: &mut made.list,
            certificate: &mut made.certificate,
            report: output,
        },
    );
    let refused = hint_on_writing(alloc, files, &made);
    let told = progress.told(alloc, solved, refused);
    match settle(made, &names, system, told) {
        Ok(()) => Ok(Exit::Done),
        Err(Unsettled::Stopped(hinted)) => Err(hinted),
        Err(Unsettled::NotPut(refused)) => Err(not_put(alloc, &refused)),
        Err(Unsettled::Replaced(name)) => Err(replaced(alloc, name)),
    }
}

// The fault where two of three names lead to one file, or it isn't known that they don't.
fn not_apart<S: FileSystem>(alloc: Global, files: &Files, system: &S) -> HintedFault
    ensures { result.fault ≡ RunFault.Write }
{
    HintedFault {
        fault: RunFault::Write,
        hint: hint_on_places(alloc, files, system),
    }
}

// The names under which no file can be made, and why, or that two of them lead to one file.
fn hint_on_places<S: FileSystem>(alloc: Global, files: &Files, system: &S) -> Option<String> {
    for name in [&files.list, &files.certificate] {
        if let Some(refusal) = system.refusal_at(alloc, name) {
            return hint_on(alloc, name, refusal);
        }
    }
    String::from_str(alloc, "two of the names lead to one file").ok()
}

// Which of the files could not be written, and why, if one couldn't.
fn hint_on_writing<F: Sink>(alloc: Global, files: &Files, made: &MadeFiles<F>) -> Option<String> {
    if let Some(refusal) = made.list.refusal() {
        return hint_on(alloc, &files.list, refusal);
    }
    let refusal = made.certificate.refusal()?;
    hint_on(alloc, &files.certificate, refusal)
}

// What an expansion prints.
fn expansion_plan(order: &ExpandOrder, is_watched: bool) -> PrintingPlan
    ensures { result.printing ≡ list_printed order.now.orbits }
{
    PrintingPlan {
        printing: listing_of(order.orbits),
        hints: are_told(order.hints, is_watched),
    }
}

// What a picture of all arrangements prints.
fn picture_of_all(order: &DrawAllOrder) -> PrintingPlan
    ensures { result.printing ≡ picture_printed order.now }
{
    let plan = PicturePlan {
        number: order.number,
        first: order.first,
        numbers: order.numbers,
    };
    PrintingPlan {
        printing: Printing::Picture(plan),
        hints: true,
    }
}

// The list of one arrangement of each orbit, or of all arrangements.
fn listing_of(orbits: bool) -> Printing
    ensures { result ≡ list_printed orbits }
{
    if orbits {
        Printing::Orbits
    } else {
        Printing::All
    }
}

// The page that is ordered.
fn page_plan(order: &PageOrder, is_watched: bool) -> PagePlan<'_>
    ensures { IsPlanOf order.now result }
{
    PagePlan {
        title: &order.title,
        first: order.first,
        hints: are_told(order.hints, is_watched),
    }
}

// The sum over all parts of a search, by the lines at these places.
fn add_up<S: FileSystem, I: Source, W: Sink>(
    alloc: Global,
    places: &PartPlaces,
    system: &S,
    input: &mut I,
    output: &mut W,
) -> Result<Exit, HintedFault>
    ensures total { TotalOf (given_parts S.FileSystem S.Reader.Source I.Source system.now input.old input.new places.now)
        (writing_of W.Sink output.old output.new) (unhinted result) }
    ensures unread { LeavesInput (are_parts_on_input places.now) input.old input.new }
{
    match places {
        PartPlaces::Input => add_up_input(alloc, input, output),
        PartPlaces::Files(names) => add_up_files(alloc, names, system, output),
    }
}

// The sum by the lines on standard input.
fn add_up_input<I: Source, W: Sink>(
    alloc: Global,
    input: &mut I,
    output: &mut W,
) -> Result<Exit, HintedFault>
    ensures { TotalOf (one_source documents.Parts (reading_of I.Source input.old input.new))
        (writing_of W.Sink output.old output.new) (unhinted result) }
{
    let mut parts = OneSource {
        source: input,
        document: Document::Parts,
    };
    run_total(alloc, &mut parts, output)?;
    Ok(Exit::Done)
}

// The sum by the lines in these files.
fn add_up_files<S: FileSystem, W: Sink>(
    alloc: Global,
    names: &[String],
    system: &S,
    output: &mut W,
) -> Result<Exit, HintedFault>
    ensures { TotalOf (part_files S.FileSystem S.Reader.Source system.now (map string_bytes names.now))
        (writing_of W.Sink output.old output.new) (unhinted result) }
{
    let mut files = PartFiles::new(alloc, system, names);
    if let Err(fault) = run_total(alloc, &mut files, output) {
        let hint = files.hint(alloc, &fault);
        return Err(HintedFault { fault, hint });
    }
    Ok(Exit::Done)
}

// Draws the board of the puzzle, or the listed arrangement.
fn show<S: FileSystem, I: Source, W: Sink>(
    alloc: Global,
    subject: &Subject,
    system: &S,
    input: &mut I,
    output: &mut W,
) -> Result<Exit, HintedFault>
    ensures run { ShowOf S.FileSystem S.Reader.Source I.Source system.now input.old input.new subject.now
        (writing_of W.Sink output.old output.new) (unhinted result) }
    ensures unread { LeavesInput (is_subject_on_input subject.now) input.old input.new }
{
    match subject {
        Subject::Board(puzzle) => {
            let order = DescriptionOrder::new(puzzle, Description::Board);
            describe(alloc, &order, system, input, output)
        }
        Subject::Listed { places, number } => {
            let order = DrawingOrder {
                places,
                drawing: Drawing::Arrangement(*number),
            };
            draw(alloc, &order, system, input, output)
        }
    }
}

// Draws a picture of the puzzle's empty board and its tiles, or of listed arrangements.
fn picture<S: FileSystem, I: Source, W: Sink>(
    alloc: Global,
    order: &DrawOrder,
    system: &S,
    input: &mut I,
    output: &mut W,
) -> Result<Exit, HintedFault>
    ensures run { PictureOf S.FileSystem S.Reader.Source I.Source system.now input.old input.new order.now.subject
        order.now.first (writing_of W.Sink output.old output.new) (unhinted result) }
    ensures unread { LeavesInput (is_subject_on_input order.now.subject) input.old input.new }
{
    match &order.subject {
        Subject::Board(puzzle) => {
            let order = DescriptionOrder::new(puzzle, Description::Picture);
            describe(alloc, &order, system, input, output)
        }
        Subject::Listed { places, number } => {
            let plan = PicturePlan {
                number: *number,
                first: order.first,
                numbers: order.numbers,
            };
            let order = DrawingOrder {
                places,
                drawing: Drawing::Picture(plan),
            };
            draw(alloc, &order, system, input, output)
        }
    }
}

// Draws pages of the puzzle's tiles, to be cut out, and with a list an arrangement of it.
fn pages<S: FileSystem, I: Source, W: Sink>(
    alloc: Global,
    order: &CutOrder,
    system: &S,
    input: &mut I,
    output: &mut W,
) -> Result<Exit, HintedFault>
    ensures run { PagesOf S.FileSystem S.Reader.Source I.Source system.now input.old input.new order.now.subject
        order.now.size (writing_of W.Sink output.old output.new) (unhinted result) }
    ensures unread { LeavesInput (is_subject_on_input order.now.subject) input.old input.new }
{
    let plan = CutPlan {
        size: order.size,
        numbers: order.numbers,
    };
    match &order.subject {
        Subject::Board(puzzle) => cut_tiles(alloc, puzzle, plan, system, input, output),
        Subject::Listed { places, number } => {
            let order = DrawingOrder {
                places,
                drawing: Drawing::CutTiles {
                    number: *number,
                    plan,
                },
            };
            draw(alloc, &order, system, input, output)
        }
    }
}

fn list_tiles<W: Sink>(
    alloc: Global,
    order: &TilesOrder,
    output: &mut W,
) -> Result<Exit, HintedFault>
    ensures { TilesOf order.now.sides order.now.colours order.now.lines (writing_of W.Sink output.old output.new)
        (unhinted result) }
{
    if order.lines {
        list_tile_lines(alloc, order.sides, order.colours, output)
    } else {
        list_tile_words(alloc, order.sides, order.colours, output)
    }
}

fn list_tile_lines<W: Sink>(
    alloc: Global,
    sides: Sides,
    colours: Colours,
    output: &mut W,
) -> Result<Exit, HintedFault>
    ensures { TilesOf sides colours true (writing_of W.Sink output.old output.new) (unhinted result) }
{
    run_tile_lines(alloc, sides, colours, output)?;
    Ok(Exit::Done)
}

fn list_tile_words<W: Sink>(
    alloc: Global,
    sides: Sides,
    colours: Colours,
    output: &mut W,
) -> Result<Exit, HintedFault>
    ensures { TilesOf sides colours false (writing_of W.Sink output.old output.new) (unhinted result) }
{
    run_tiles(alloc, sides, colours, output)?;
    Ok(Exit::Done)
}
