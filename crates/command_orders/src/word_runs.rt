//! Runs the words of a command line: does what they order, and says why where that fails.

ghost use Rattle.std.specs.Prelude.{◌≡◌, map};
ghost use Rattle.std.specs.String.{string_bytes};
ghost use Rattle.clap.specs.Words.{kind_of};
ghost use Rattle.byte_streams.specs.Moves.{writing_of};
ghost use Rattle.command_orders.specs.Exits.{fault_exit};
ghost use Rattle.command_orders.specs.OrderRuns.{RunOver};
ghost use Rattle.command_orders.specs.SameStreams.{AreSameStreams, errors_of, output_of};
ghost use Rattle.command_orders.specs.WordRuns.{CarriesOut, Explains, Refuses, Tells, TellsFault, WordsGive};

use crate::exits::Exit;
use crate::files::hint_on;
use crate::order_runs::run_order;
use crate::streams::Streams;
use byte_streams::{Document, FileSystem, Refusal, Sink, Source, write_whole};
use command_runs::{HintedFault, RunFault, fault_text};
use command_words::{
    CensusOrder, CheckOrder, CutOrder, DrawAllOrder, DrawOrder, ExpandOrder, Files, FindOrder,
    Given, Order, PageOrder, PartPlaces, Place, Subject, WantedRules, WordsFault, order,
};
use std::alloc::Global;
use std::random::RandomSource;
use std::sync::Wait;
use std::thread::Threads;
use std::time::Clock;

/// Does what the words after the program's name order, and returns how the program ends. `errors` gets the line of a
/// fault, or what is wrong with the words, and nothing else. How far a check or a solve is, what has to be changed in a
/// text that has a fault, and on a terminal why a file is refused, is said through `rt`.
///
/// Help and the version go to the output, and then all is done; where they can't be written, it ends as after `Write`.
pub fn run_words<
    S: FileSystem,
    I: Source,
    W: Sink,
    E: Sink,
    R: Threads + Wait + Sync + RandomSource + Clock + Eprint,
>(
    rt: &R,
    alloc: Global,
    words: &[String],
    system: &mut S,
    streams: &mut Streams<'_, '_, '_, I, W, E>,
) -> Exit
    ensures same { AreSameStreams streams.old streams.new }
    ensures run { WordsGive (map string_bytes words.now) (RunOver S.FileSystem S.Reader.Source I.Source W.Sink
        system.old streams.old system.new streams.new)
        ((system.new ≡ system.old) × (streams.new.input.now ≡ streams.old.input.now))
        (output_of W.Sink streams.old streams.new) (errors_of E.Sink streams.old streams.new) result }
{
    match order(alloc, words) {
        Ok(order) => carry_out(rt, alloc, &order, system, streams),
        Err(fault) => refuse(alloc, &fault, streams.output, streams.errors),
    }
}

// Does what is ordered, and reports a fault.
fn carry_out<
    S: FileSystem,
    I: Source,
    W: Sink,
    E: Sink,
    R: Threads + Wait + Sync + RandomSource + Clock + Eprint,
>(
    rt: &R,
    alloc: Global,
    order: &Order,
    system: &mut S,
    streams: &mut Streams<'_, '_, '_, I, W, E>,
) -> Exit
    ensures same { AreSameStreams streams.old streams.new }
    ensures run { CarriesOut (RunOver S.FileSystem S.Reader.Source I.Source W.Sink system.old streams.old system.new
        streams.new order.now) (errors_of E.Sink streams.old streams.new) result }
{
    if streams.terminal && streams.typed {
        tell_what_is_read(rt, order);
    }
    match run_order(rt, alloc, order, system, streams) {
        Ok(exit) => exit,
        Err(hinted) => {
            let exit = stopped(alloc, &hinted.fault, streams.errors);
            let seen = Seen {
                terminal: streams.terminal,
                input: streams.input.refusal(),
                output: streams.output.refusal(),
            };
            tell_hint(rt, alloc, order, &hinted, seen);
            exit
        }
    }
}

// Whether the hint beside the fault is given even where nobody reads it on a terminal: where hints are asked for;
// otherwise for a text that has a fault, with orders that people give. Scripts want the line alone.
fn is_always_told(order: &Order, fault: &RunFault) -> bool {
    match order {
        Order::Joined => false,
        Order::Check(order) => order.hints,
        Order::Solve(order) => order.hints,
        Order::Expand(order) => order.hints,
        Order::Page(order) => order.hints,
        Order::Explain(_) | Order::ExplainPuzzle(_) | Order::Count(_) => is_of_texts(fault),
        Order::Census(_) | Order::Find(_) | Order::Generate(_) => is_of_texts(fault),
        Order::Show(_) | Order::Draw(_) | Order::DrawAll(_) | Order::Cut(_) => is_of_texts(fault),
        Order::Symmetries(_) | Order::Tiles(_) => is_of_texts(fault),
        // which of many files it is has to be said everywhere
        Order::Total(_) => true,
    }
}

// Whether the fault is not about reading or writing.
fn is_of_texts(fault: &RunFault) -> bool {
    !matches!(
        fault,
        RunFault::Read(_) | RunFault::Write | RunFault::Replaced
    )
}

// What is known of the standard streams: whether somebody reads the errors on a terminal, and why the last read and the
// last write failed, if they did.
#[derive(Clone, Copy)]
struct Seen {
    terminal: bool,
    input: Option<Refusal>,
    output: Option<Refusal>,
}

// Says what is left to say beside a fault: its hint, or which stream or file failed while it was read or written.
fn tell_hint<R: Eprint>(rt: &R, alloc: Global, order: &Order, hinted: &HintedFault, seen: Seen) {
    if !seen.terminal && !is_always_told(order, &hinted.fault) {
        return;
    }
    if let Some(hint) = &hinted.hint {
        let _ = rt.eprintln(hint);
        return;
    }
    let told = match &hinted.fault {
        RunFault::Write => stream_hint(alloc, "standard output", seen.output),
        RunFault::Read(document) => match file_of(order, *document) {
            Some(name) => hint_on(alloc, name, Refusal::Other),
            None => stream_hint(alloc, "standard input", seen.input),
        },
        _ => None,
    };
    if let Some(told) = told {
        let _ = rt.eprintln(&told);
    }
}

// Why the stream failed, if it did.
fn stream_hint(alloc: Global, stream: &str, refusal: Option<Refusal>) -> Option<String> {
    hint_on(alloc, stream, refusal?)
}

// The name of the document's file, if the order reads it from one.
fn file_of<'a>(order: &'a Order, document: Document) -> Option<&'a str> {
    match order {
        Order::Joined => None,
        Order::Check(CheckOrder { given, .. })
        | Order::Expand(ExpandOrder { given, .. })
        | Order::Page(PageOrder { given, .. })
        | Order::DrawAll(DrawAllOrder { given, .. })
        | Order::Explain(given)
        | Order::Count(given) => file_of_given(given, document),
        Order::Solve(order) => file_of_solve(&order.files, document),
        Order::ExplainPuzzle(place)
        | Order::Census(CensusOrder { puzzle: place, .. })
        | Order::Find(FindOrder { puzzle: place, .. })
        | Order::Symmetries(place) => file_at(place),
        Order::Generate(order) => match &order.rules {
            WantedRules::Like(place) => file_at(place),
            WantedRules::Plain(_) => None,
        },
        Order::Show(subject)
        | Order::Draw(DrawOrder { subject, .. })
        | Order::Cut(CutOrder { subject, .. }) => file_of_subject(subject, document),
        Order::Total(_) | Order::Tiles(_) => None,
    }
}

fn file_of_solve<'a>(files: &'a Files, document: Document) -> Option<&'a str> {
    match document {
        Document::List => Some(&files.list),
        Document::Certificate => Some(&files.certificate),
        Document::Puzzle | Document::Parts | Document::Input => file_at(&files.puzzle),
    }
}

fn file_at<'a>(place: &'a Place) -> Option<&'a str> {
    match place {
        Place::Input => None,
        Place::File(name) => Some(name),
    }
}

fn file_of_subject<'a>(subject: &'a Subject, document: Document) -> Option<&'a str> {
    match (subject, document) {
        (Subject::Board(place), _) => file_at(place),
        (Subject::Listed { places, .. }, Document::List) => file_at(&places.list),
        (Subject::Listed { places, .. }, _) => file_at(&places.puzzle),
    }
}

fn file_of_given<'a>(given: &'a Given, document: Document) -> Option<&'a str> {
    match (given, document) {
        (Given::Joined, _) => None,
        (Given::Apart(places), Document::List) => file_at(&places.list),
        (Given::Apart(places), Document::Certificate) => file_at(&places.certificate),
        (Given::Apart(places), _) => file_at(&places.puzzle),
    }
}

// Tells a user who types on standard input what is read from there, if anything is.
fn tell_what_is_read<R: Eprint>(rt: &R, order: &Order) {
    if let Some(documents) = read_from_input(order) {
        let _ = eprintln!(rt;
            "edgematch reads {documents} from standard input, to Ctrl-D; edgematch --help tells more"
        );
    }
}

// Which documents of the order are read from standard input.
fn read_from_input(order: &Order) -> Option<&'static str> {
    match order {
        Order::Joined => Some(ALL_THREE),
        Order::Check(CheckOrder { given, .. })
        | Order::Expand(ExpandOrder { given, .. })
        | Order::Page(PageOrder { given, .. })
        | Order::DrawAll(DrawAllOrder { given, .. })
        | Order::Explain(given)
        | Order::Count(given) => given_on_input(given),
        Order::Solve(order) => puzzle_alone(&order.files.puzzle),
        Order::ExplainPuzzle(place)
        | Order::Census(CensusOrder { puzzle: place, .. })
        | Order::Find(FindOrder { puzzle: place, .. })
        | Order::Symmetries(place) => { puzzle_alone(place) }
        Order::Generate(order) => match &order.rules {
            WantedRules::Like(place) => puzzle_alone(place),
            WantedRules::Plain(_) => None,
        },
        Order::Total(PartPlaces::Input) => Some("lines of counted parts"),
        Order::Total(PartPlaces::Files(_)) => None,
        Order::Show(subject)
        | Order::Draw(DrawOrder { subject, .. })
        | Order::Cut(CutOrder { subject, .. }) => one_of_subject(subject),
        Order::Tiles(_) => None,
    }
}

const ALL_THREE: &str = "a puzzle, its list and its certificate, joined,";

const PUZZLE: &str = "a puzzle";

const LIST: &str = "a list";

fn puzzle_alone(place: &Place) -> Option<&'static str> {
    match place {
        Place::Input => Some(PUZZLE),
        Place::File(_) => None,
    }
}

fn one_of_subject(subject: &Subject) -> Option<&'static str> {
    match subject {
        Subject::Board(place) => puzzle_alone(place),
        Subject::Listed { places, .. } if places.list.is_input() => Some(LIST),
        Subject::Listed { places, .. } => puzzle_alone(&places.puzzle),
    }
}

fn given_on_input(given: &Given) -> Option<&'static str> {
    match given {
        Given::Joined => Some(ALL_THREE),
        Given::Apart(places) if places.list.is_input() => Some(LIST),
        Given::Apart(places) if places.certificate.is_input() => Some("a certificate"),
        Given::Apart(places) => puzzle_alone(&places.puzzle),
    }
}

// Says why words are no order.
fn refuse<W: Sink, E: Sink>(
    alloc: Global,
    fault: &WordsFault,
    output: &mut W,
    errors: &mut E,
) -> Exit
    ensures { Refuses (writing_of W.Sink output.old output.new) (writing_of E.Sink errors.old errors.new) result
        fault.now }
{
    match fault {
        WordsFault::Words(error) => explained(alloc, error, output, errors),
        WordsFault::Memory => stopped(alloc, &RunFault::Memory, errors),
    }
}

/// Writes a line that says why a run stopped, and returns how the program ends then. Where the line can't be written,
/// nothing can be said.
pub fn stopped<E: Sink>(alloc: Global, fault: &RunFault, errors: &mut E) -> Exit
    ensures exit { result ≡ fault_exit fault.now }
    ensures told { TellsFault (writing_of E.Sink errors.old errors.new) fault.now }
{
    tell(alloc, fault, errors);
    Exit::of_fault(fault)
}

// Writes the line; where memory is refused to it, says that.
fn tell<E: Sink>(alloc: Global, fault: &RunFault, errors: &mut E)
    ensures { TellsFault (writing_of E.Sink errors.old errors.new) fault.now }
{
    match fault_text(alloc, fault) {
        Ok(text) => put(errors, &text),
        Err(_) => put(errors, b"out of memory\n"),
    }
}

// Writes the text, or the beginning of it.
fn put<E: Sink>(errors: &mut E, text: &[u8])
    ensures { Tells (writing_of E.Sink errors.old errors.new) text.now }
{
    match write_whole(errors, text) {
        Ok(()) => {}
        // nothing can be said
        Err(_) => {}
    }
}

// Prints help or the version where it was asked for, otherwise what is wrong with the words.
fn explained<W: Sink, E: Sink>(
    alloc: Global,
    error: &clap::Error,
    output: &mut W,
    errors: &mut E,
) -> Exit
    ensures { Explains (writing_of W.Sink output.old output.new) (writing_of E.Sink errors.old errors.new) result
        (kind_of error.now) }
{
    let Ok(text) = format!(in alloc; "{error}") else {
        return stopped(alloc, &RunFault::Memory, errors);
    };
    if error.use_stderr() {
        put(errors, text.as_bytes());
        return Exit::Failed;
    }
    match write_whole(output, text.as_bytes()) {
        Ok(()) => Exit::Done,
        Err(_) => stopped(alloc, &RunFault::Write, errors),
    }
}
