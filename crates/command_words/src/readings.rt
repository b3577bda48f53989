//! Reads words as orders.

ghost use Rattle.std.specs.Prelude.{◌≡◌, ◌↔◌, ◌<◌, ◌≤◌, ◌^◌, ℕ, List, Option, Contains, Some, codes, map, None, IfOk, IfErr, IsFalse, IsTrue, MatchOption};
ghost use Rattle.std.specs.String.{string_bytes};
ghost use Rattle.std.specs.Str.Parse.{digits_value, without_leading_plus};
ghost use Rattle.clap.specs.Words.{IsUnsignedIn, Row, first_of, found_of, kind_of, rows_of};
ghost use Rattle.clap.specs.declared.error.kind.ErrorKind.TheVariants.{ArgumentConflict};
ghost use Rattle.command_words.specs.Places.{input_name};
ghost use Rattle.command_words.specs.Orders.{AreMatchesOf, AreNamedParts, AreWritable, AsksForNoSearch, AskFor, AskForDepth, AskForOrbits, AskForWorkers, HasFiles, HasFlag, HasNumber, HasText, HasWorkers, IsExtent, IsFlagged};
ghost use Rattle.command_words.specs.Orders.{IsGiven, IsMisfit, IsOrder, IsOrderOf, IsPlace, IsRefused};
ghost use Rattle.command_words.specs.Orders.{IsSubject, MayHaveNumber, NameFiles, TellsOfMisfit, number_of};
ghost use Rattle.command_words.specs.Asked.{AreAskedFor, IsAsked, IsOfThree, MayStandAt};
ghost use Rattle.command_words.specs.Parts.{IsPartsText, SpellsNumber, SpellsRange};
ghost use Rattle.command_words.specs.declared.orders.Extent.{Extent};
ghost use Rattle.command_words.specs.declared.orders.Parts.{Parts};
ghost use Rattle.command_words.specs.declared.orders.Subject.{Subject};
ghost use Rattle.command_words.specs.declared.orders.WantedWorkers.{WantedWorkers};
ghost use Rattle.command_words.specs.declared.places.Given.{Given};
ghost use Rattle.command_words.specs.declared.places.PartPlaces.{PartPlaces};
ghost use Rattle.match_symmetry.specs.declared.choices.Suggested.{Suggested};

use crate::commands::{
    check as check_command, count as count_command, expand as expand_command,
    explain as explain_command, find as find_command, page as page_command, program,
    show as show_command, solve as solve_command, total as total_command,
};
use crate::draft_words::generate;
use crate::drawing_words::draw;
use crate::faults::WordsFault;
use crate::orders::{
    CensusOrder, CheckOrder, ExpandOrder, Extent, FindOrder, Order, PageOrder, Parts, SolveOrder,
    Subject, TilesOrder, WantedWorkers,
};
use crate::places::{Files, Given, PartPlaces, Place, Places, TwoPlaces};
use clap::error::ErrorKind;
use clap::{ArgMatches, Command};
use match_limits::{Depth, Within};
use match_symmetry::Suggested;
use std::alloc::{AllocError, Global};

// The message for words that name standard input twice.
pub(crate) const READ_TWICE: &str =
    "- is standard input, and is read once: name other documents by their files";

// The message for words that name standard input together with files of counted parts.
const READ_ALONE: &str = "- is standard input, and stands alone: name files, or - and nothing else";

// The message for a list without a certificate.
const NO_CERTIFICATE: &str = "a list stands with its certificate: PUZZLE LIST CERTIFICATE";

// The message for a puzzle alone, where all three documents are wanted.
const NO_LIST: &str =
    "a puzzle stands with its list and certificate: PUZZLE LIST CERTIFICATE, or none of them where standard input has them joined";

// The message for a solve whose list or certificate is named like standard input.
const NOT_WRITTEN: &str =
    "a solve writes no list or certificate to -: ./- is a file of that name, and /dev/stdout is standard output";

// The message for another word for the symmetries.
const NOT_SUGGESTED: &str = "--symmetries is all, or board: those that leave each colour as it is";

// The message for symmetries where no orbits are asked for.
const NO_ORBITS: &str =
    "--symmetries stands with --orbits, and says which arrangements are images of each other";

// The message for another word for the workers.
const NOT_WORKERS: &str =
    "--workers is a number from 1 to 64, or all: as many as there are processors";

// The message for another word for the depth.
const NOT_DEPTH: &str = "--depth is a number from 0 to 3, or auto: as suits the puzzle";

// The text with this id.
fn text(alloc: Global, matches: &ArgMatches<'_>, id: &str) -> Result<String, AllocError>
    requires { HasText id.now (rows_of (found_of matches.now)) }
    ensures { IfOk result (λ text. first_of id.now (rows_of (found_of matches.now)) ≡ Some (string_bytes text)) }
{
    let Some(text) = matches.get_str(id) else {
        unreachable!();
    };
    String::from_str(alloc, text)
}

// The number with this id.
pub(crate) fn number<const LEAST: u32, const MOST: u32>(
    matches: &ArgMatches<'_>,
    id: &str,
) -> Within<LEAST, MOST>
    requires { HasNumber id.now LEAST MOST (rows_of (found_of matches.now)) }
    ensures { number_of id.now (rows_of (found_of matches.now)) ≡ Some result }
{
    let Some(text) = matches.get_str(id) else {
        unreachable!();
    };
    let Ok(number) = text.parse::<u32>() else {
        unreachable!();
    };
    Within::new(number)
}

// The text with this id, if there is one.
pub(crate) fn word<'m>(matches: &'m ArgMatches<'_>, id: &str) -> Option<&'m str>
    ensures { MatchOption result (first_of id.now (rows_of (found_of matches.now)) ≡ None)
        (λ word. first_of id.now (rows_of (found_of matches.now)) ≡ Some word.now) }
{
    matches.get_str(id)
}

// The number with this id, if there is one.
pub(crate) fn number_if_given<const LEAST: u32, const MOST: u32>(
    matches: &ArgMatches<'_>,
    id: &str,
) -> Option<Within<LEAST, MOST>>
    requires { MayHaveNumber id.now LEAST MOST (rows_of (found_of matches.now)) }
    ensures { MatchOption result (first_of id.now (rows_of (found_of matches.now)) ≡ None)
        (λ given. number_of id.now (rows_of (found_of matches.now)) ≡ Some given) }
{
    match word(matches, id) {
        Some(_) => Some(number(matches, id)),
        None => None,
    }
}

// The number that the text spells, if it is in the range.
fn number_in<const LEAST: u32, const MOST: u32>(text: &str) -> Option<Within<LEAST, MOST>>
    ensures { MatchOption result ((number : ℕ) → SpellsNumber text.now number → LEAST ≤ number → number ≤ MOST → ⊥)
        (λ number. SpellsNumber text.now number × (LEAST ≤ number) × (number ≤ MOST)) }
{
    let Ok(number) = text.parse::<u32>() else {
        return None;
    };
    if LEAST <= number && number <= MOST {
        Some(Within::new(number))
    } else {
        None
    }
}

// How many workers the matches of a command ask for; an `Err` says why their word asks for none.
fn workers(matches: &ArgMatches<'_>) -> Result<WantedWorkers, &'static str>
    ensures asked { IfOk result (AskForWorkers (rows_of (found_of matches.now))) }
    ensures refused { IfErr result (λ _. HasWorkers (rows_of (found_of matches.now)) → ⊥) }
{
    let Some(word) = matches.get_str("workers") else {
        return Err(NOT_WORKERS);
    };
    if word == "all" {
        return Ok(WantedWorkers::All);
    }
    match number_in(word) {
        Some(number) => Ok(WantedWorkers::Number(number)),
        None => Err(NOT_WORKERS),
    }
}

// How many levels the matches of `solve` ask for, `None` where the solver is to choose; an `Err` says why their word asks
// for none.
fn depth(matches: &ArgMatches<'_>) -> Result<Option<Depth>, &'static str>
    ensures asked { IfOk result (AskForDepth (rows_of (found_of matches.now))) }
    ensures refused { IfErr result (λ _. (depth : Option ℕ) → AskForDepth (rows_of (found_of matches.now)) depth → ⊥) }
{
    let Some(word) = matches.get_str("depth") else {
        return Err(NOT_DEPTH);
    };
    if word == "auto" {
        return Ok(None);
    }
    match number_in(word) {
        Some(number) => Ok(Some(number)),
        None => Err(NOT_DEPTH),
    }
}

// Whether there is a text with this id.
pub(crate) fn is_given(matches: &ArgMatches<'_>, id: &str) -> bool
    ensures given { IsTrue result → first_of id.now (rows_of (found_of matches.now)) ≡ None → ⊥ }
    ensures left_out { IsFalse result → first_of id.now (rows_of (found_of matches.now)) ≡ None }
{
    match word(matches, id) {
        Some(_) => true,
        None => false,
    }
}

// What the random numbers of a search or of a drawing begin with.
pub(crate) fn seed(matches: &ArgMatches<'_>) -> u64
    requires { HasNumber (codes "seed") 0 18446744073709551615 (rows_of (found_of matches.now)) }
    ensures { number_of (codes "seed") (rows_of (found_of matches.now)) ≡ Some result }
{
    let Some(text) = matches.get_str("seed") else {
        unreachable!();
    };
    long_number(text)
}

// Whether the flag with this id is given.
pub(crate) fn flag(matches: &ArgMatches<'_>, id: &str) -> bool
    requires { HasFlag id.now (rows_of (found_of matches.now)) }
    ensures { IsFlagged id.now (rows_of (found_of matches.now)) result }
{
    matches.get_flag(id)
}

// Where the puzzle of a solve is, and the names of its files.
fn files(alloc: Global, matches: &ArgMatches<'_>) -> Result<Files, AllocError>
    requires { HasFiles (rows_of (found_of matches.now)) }
    ensures { IfOk result (NameFiles (rows_of (found_of matches.now))) }
{
    let puzzle = puzzle_place(alloc, matches)?;
    let list = text(alloc, matches, "LIST")?;
    let certificate = text(alloc, matches, "CERTIFICATE")?;
    Ok(Files {
        puzzle,
        list,
        certificate,
    })
}

// Whether neither the list nor the certificate is named like standard input.
fn are_writable(files: &Files) -> bool
    ensures { IsTrue result ↔ AreWritable files.now }
{
    let list: &str = &files.list;
    let certificate: &str = &files.certificate;
    list != "-" && certificate != "-"
}

// Where the document is that this id names, if it names one.
pub(crate) fn place_if_named(
    alloc: Global,
    matches: &ArgMatches<'_>,
    id: &str,
) -> Result<Option<Place>, AllocError>
    ensures { IfOk result (MayStandAt id.now (rows_of (found_of matches.now))) }
{
    let Some(name) = matches.get_str(id) else {
        return Ok(None);
    };
    if name == "-" {
        return Ok(Some(Place::Input));
    }
    let file = String::from_str(alloc, name)?;
    Ok(Some(Place::File(file)))
}

// Where the named puzzle is.
pub(crate) fn puzzle_place(alloc: Global, matches: &ArgMatches<'_>) -> Result<Place, AllocError>
    requires { HasText (codes "PUZZLE") (rows_of (found_of matches.now)) }
    ensures { IfOk result (IsPlace (codes "PUZZLE") (rows_of (found_of matches.now))) }
{
    let Some(place) = place_if_named(alloc, matches, "PUZZLE")? else {
        unreachable!();
    };
    Ok(place)
}

// What the words of a command about documents ask for.
#[derive(Drop)]
enum Asked {
    // Something of three documents.
    Given(Given),
    // Something of a puzzle alone.
    Puzzle(Place),
    // Nothing, for this reason.
    Nothing(&'static str),
}

// What the matches of a command about documents ask for.
fn read_asked(alloc: Global, matches: &ArgMatches<'_>) -> Result<Asked, AllocError>
    ensures { IfOk result (IsAsked (rows_of (found_of matches.now))) }
{
    let puzzle = place_if_named(alloc, matches, "PUZZLE")?;
    let list = place_if_named(alloc, matches, "LIST")?;
    let certificate = place_if_named(alloc, matches, "CERTIFICATE")?;
    Ok(asked_for(puzzle, list, certificate))
}

// What is asked for, given which documents are named, and where they are.
fn asked_for(puzzle: Option<Place>, list: Option<Place>, certificate: Option<Place>) -> Asked
    ensures { AreAskedFor puzzle list certificate result }
{
    match (puzzle, list, certificate) {
        (None, None, None) => Asked::Given(Given::Joined),
        (Some(puzzle), None, None) => Asked::Puzzle(puzzle),
        (Some(puzzle), Some(list), Some(certificate)) => {
            match Places::new(puzzle, list, certificate) {
                Some(places) => Asked::Given(Given::Apart(places)),
                None => Asked::Nothing(READ_TWICE),
            }
        }
        (_, Some(_), None) => Asked::Nothing(NO_CERTIFICATE),
        (_, _, Some(_)) => Asked::Nothing("a certificate stands behind a puzzle and a list"),
    }
}

// Three documents, joined where none is named; an `Err` says why the words name others.
fn three_documents(
    alloc: Global,
    matches: &ArgMatches<'_>,
) -> Result<Result<Given, &'static str>, AllocError>
    ensures { IfOk result (IsOfThree (rows_of (found_of matches.now))) }
{
    match read_asked(alloc, matches)? {
        Asked::Given(given) => Ok(Ok(given)),
        Asked::Puzzle(_) => Ok(Err(NO_LIST)),
        Asked::Nothing(reason) => Ok(Err(reason)),
    }
}

// A puzzle alone, or a listed arrangement; `None` where both the puzzle and the list are standard input.
pub(crate) fn read_subject(
    alloc: Global,
    matches: &ArgMatches<'_>,
) -> Result<Option<Subject>, AllocError>
    requires puzzle { HasText (codes "PUZZLE") (rows_of (found_of matches.now)) }
    requires number { HasNumber (codes "N") 0 999999 (rows_of (found_of matches.now)) }
    ensures { IfOk result (λ subject. MatchOption subject
        ((any : Subject) → IsSubject (rows_of (found_of matches.now)) any → ⊥)
        (IsSubject (rows_of (found_of matches.now)))) }
{
    let puzzle = puzzle_place(alloc, matches)?;
    let Some(list) = place_if_named(alloc, matches, "LIST")? else {
        return Ok(Some(Subject::Board(puzzle)));
    };
    let Some(places) = TwoPlaces::new(puzzle, list) else {
        return Ok(None);
    };
    let number = number(matches, "N");
    Ok(Some(Subject::Listed { places, number }))
}

// The error for words of this command that don't go together.
pub(crate) fn misfit(
    command: Result<Command<'_>, AllocError>,
    name: &str,
    reason: &str,
) -> WordsFault
    ensures { TellsOfMisfit result }
{
    match misfit_error(command, name, reason) {
        Ok(error) => WordsFault::Words(error),
        Err(_) => WordsFault::Memory,
    }
}

fn misfit_error(
    command: Result<Command<'_>, AllocError>,
    name: &str,
    reason: &str,
) -> Result<clap::Error, AllocError>
    ensures { IfOk result (λ error. kind_of error ≡ ArgumentConflict) }
{
    let mut command = command?.bin_name(name)?;
    command.error(ErrorKind::ArgumentConflict, reason)
}

fn check(alloc: Global, matches: &ArgMatches<'_>) -> Result<Order, WordsFault>
    requires { AreMatchesOf (codes "check") (rows_of (found_of matches.now)) }
    ensures order { IfOk result (IsOrderOf (Some (codes "check", rows_of (found_of matches.now)))) }
    ensures refused { IfErr result (IsMisfit (Some (codes "check", rows_of (found_of matches.now)))) }
{
    let given = match three_documents(alloc, matches)? {
        Ok(given) => given,
        Err(reason) => return Err(misfit(check_command(alloc), "edgematch check", reason)),
    };
    let workers = match workers(matches) {
        Ok(workers) => workers,
        Err(reason) => return Err(misfit(check_command(alloc), "edgematch check", reason)),
    };
    let forks = number(matches, "forks");
    let progress = flag(matches, "progress");
    let hints = flag(matches, "hints");
    Ok(Order::Check(CheckOrder {
        given,
        workers,
        forks,
        progress,
        hints,
    }))
}

// Which symmetries the matches of a command name.
fn suggested(matches: &ArgMatches<'_>) -> Option<Suggested>
    ensures { MatchOption result ((symmetries : Suggested) → AskFor (rows_of (found_of matches.now)) symmetries → ⊥)
        (AskFor (rows_of (found_of matches.now))) }
{
    let Some(word) = matches.get_str("symmetries") else {
        return None;
    };
    match word {
        "all" => Some(Suggested::All),
        "board" => Some(Suggested::OfBoard),
        _ => None,
    }
}

// The symmetries by whose orbits the matches of `find` go, if they go by orbits. An `Err` says why the words don't go
// together.
fn orbits(matches: &ArgMatches<'_>) -> Result<Option<Suggested>, &'static str>
    requires { HasFlag (codes "orbits") (rows_of (found_of matches.now)) }
    ensures asked { IfOk result (AskForOrbits (rows_of (found_of matches.now))) }
    ensures refused { IfErr result (λ reason. (asked : Option Suggested)
        → AskForOrbits (rows_of (found_of matches.now)) asked → ⊥) }
{
    let word = matches.get_str("symmetries");
    match (flag(matches, "orbits"), word) {
        (false, None) => Ok(None),
        (false, Some(_)) => Err(NO_ORBITS),
        (true, None) => Ok(Some(Suggested::OfBoard)),
        (true, Some(_)) => match suggested(matches) {
            Some(symmetries) => Ok(Some(symmetries)),
            None => Err(NOT_SUGGESTED),
        },
    }
}

fn find(alloc: Global, matches: &ArgMatches<'_>) -> Result<Order, WordsFault>
    requires { AreMatchesOf (codes "find") (rows_of (found_of matches.now)) }
    ensures order { IfOk result (IsOrderOf (Some (codes "find", rows_of (found_of matches.now)))) }
    ensures refused { IfErr result (IsMisfit (Some (codes "find", rows_of (found_of matches.now)))) }
{
    let orbits = match orbits(matches) {
        Ok(orbits) => orbits,
        Err(reason) => return Err(misfit(find_command(alloc), "edgematch find", reason)),
    };
    let workers = match workers(matches) {
        Ok(workers) => workers,
        Err(reason) => return Err(misfit(find_command(alloc), "edgematch find", reason)),
    };
    let puzzle = puzzle_place(alloc, matches)?;
    let first = number(matches, "first");
    let seed = seed(matches);
    let progress = flag(matches, "progress");
    Ok(Order::Find(FindOrder {
        puzzle,
        first,
        orbits,
        seed,
        workers,
        progress,
    }))
}

// How the matches of `solve` ask for a search.
#[derive(Clone, Copy)]
struct AskedSearch {
    depth: Option<Depth>,
    workers: WantedWorkers,
    symmetries: Suggested,
}

// How the matches of `solve` ask for a search; an `Err` says which word asks for none.
fn asked_search(matches: &ArgMatches<'_>) -> Result<AskedSearch, &'static str>
    ensures depth { IfOk result (λ search. AskForDepth (rows_of (found_of matches.now)) search.depth) }
    ensures workers { IfOk result (λ search. AskForWorkers (rows_of (found_of matches.now)) search.workers) }
    ensures symmetries { IfOk result (λ search. AskFor (rows_of (found_of matches.now)) search.symmetries) }
    ensures refused { IfErr result (λ _. AsksForNoSearch (rows_of (found_of matches.now))) }
{
    let depth = depth(matches)?;
    let workers = workers(matches)?;
    let Some(symmetries) = suggested(matches) else {
        return Err(NOT_SUGGESTED);
    };
    Ok(AskedSearch {
        depth,
        workers,
        symmetries,
    })
}

fn solve(alloc: Global, matches: &ArgMatches<'_>) -> Result<Order, WordsFault>
    requires { AreMatchesOf (codes "solve") (rows_of (found_of matches.now)) }
    ensures order { IfOk result (IsOrderOf (Some (codes "solve", rows_of (found_of matches.now)))) }
    ensures refused { IfErr result (IsMisfit (Some (codes "solve", rows_of (found_of matches.now)))) }
{
    let files = files(alloc, matches)?;
    if !are_writable(&files) {
        return Err(misfit(solve_command(alloc), "edgematch solve", NOT_WRITTEN));
    }
    let search = match asked_search(matches) {
        Ok(search) => search,
        Err(reason) => return Err(misfit(solve_command(alloc), "edgematch solve", reason)),
    };
    let fuel = number(matches, "fuel");
    let check = flag(matches, "check");
    let progress = flag(matches, "progress");
    let hints = flag(matches, "hints");
    Ok(Order::Solve(SolveOrder {
        files,
        depth: search.depth,
        fuel,
        workers: search.workers,
        symmetries: search.symmetries,
        check,
        progress,
        hints,
    }))
}

fn expand(alloc: Global, matches: &ArgMatches<'_>) -> Result<Order, WordsFault>
    requires { AreMatchesOf (codes "expand") (rows_of (found_of matches.now)) }
    ensures order { IfOk result (IsOrderOf (Some (codes "expand", rows_of (found_of matches.now)))) }
    ensures refused { IfErr result (IsMisfit (Some (codes "expand", rows_of (found_of matches.now)))) }
{
    let given = match three_documents(alloc, matches)? {
        Ok(given) => given,
        Err(reason) => return Err(misfit(expand_command(alloc), "edgematch expand", reason)),
    };
    let orbits = flag(matches, "orbits");
    let hints = flag(matches, "hints");
    Ok(Order::Expand(ExpandOrder {
        given,
        orbits,
        hints,
    }))
}

fn page(alloc: Global, matches: &ArgMatches<'_>) -> Result<Order, WordsFault>
    requires { AreMatchesOf (codes "page") (rows_of (found_of matches.now)) }
    ensures order { IfOk result (IsOrderOf (Some (codes "page", rows_of (found_of matches.now)))) }
    ensures refused { IfErr result (IsMisfit (Some (codes "page", rows_of (found_of matches.now)))) }
{
    let given = match three_documents(alloc, matches)? {
        Ok(given) => given,
        Err(reason) => return Err(misfit(page_command(alloc), "edgematch page", reason)),
    };
    let title = text(alloc, matches, "title")?;
    let first = number(matches, "first");
    let hints = flag(matches, "hints");
    Ok(Order::Page(PageOrder {
        given,
        title,
        first,
        hints,
    }))
}

// Explains three documents, or a puzzle where it is alone.
fn explain(alloc: Global, matches: &ArgMatches<'_>) -> Result<Order, WordsFault>
    ensures order { IfOk result (IsOrderOf (Some (codes "explain", rows_of (found_of matches.now)))) }
    ensures refused { IfErr result (IsMisfit (Some (codes "explain", rows_of (found_of matches.now)))) }
{
    match read_asked(alloc, matches)? {
        Asked::Given(given) => Ok(Order::Explain(given)),
        Asked::Puzzle(puzzle) => Ok(Order::ExplainPuzzle(puzzle)),
        Asked::Nothing(reason) => {
            Err(misfit(explain_command(alloc), "edgematch explain", reason))
        }
    }
}

// The numbers from the first to the last.
#[derive(Clone, Copy)]
struct Numbers {
    first: u32,
    last: u32,
}

// The numbers that the text spells: `3-5`, or `3` for one number that is both; `None` where one of them is 2^32 or
// more.
fn first_and_last(text: &str) -> Option<Numbers>
    ensures { MatchOption result
        ((first last : ℕ) → first < 2 ^ 32 → last < 2 ^ 32 → SpellsRange text.now first last → ⊥)
        (λ numbers. SpellsRange text.now numbers.first numbers.last) }
{
    let Some((first, last)) = text.split_once('-') else {
        let number = text.parse::<u32>().ok()?;
        return Some(Numbers {
            first: number,
            last: number,
        });
    };
    let first = first.parse::<u32>().ok()?;
    let last = last.parse::<u32>().ok()?;
    Some(Numbers { first, last })
}

// The parts of a search that the text names: `3-5/8`, or `3/8`.
fn parts(text: &str) -> Option<Parts>
    ensures { MatchOption result ((parts : Parts) → IsPartsText text.now parts → ⊥) (IsPartsText text.now) }
{
    let Some((numbers, count)) = text.split_once('/') else {
        return None;
    };
    let Some(Numbers { first, last }) = first_and_last(numbers) else {
        return None;
    };
    let Ok(count) = count.parse::<u32>() else {
        return None;
    };
    if first == 0 || first > last || last > count || count > 1_000_000 {
        return None;
    }
    Some(Parts {
        before: Within::new(first - 1),
        more: Within::new(last - first),
        behind: Within::new(count - last),
    })
}

// Which arrangements the matches of `count` ask to count.
fn extent(matches: &ArgMatches<'_>) -> Option<Extent>
    requires { MayHaveNumber (codes "most") 0 18446744073709551615 (rows_of (found_of matches.now)) }
    ensures { MatchOption result ((extent : Extent) → IsExtent (rows_of (found_of matches.now)) extent → ⊥)
        (IsExtent (rows_of (found_of matches.now))) }
{
    let most = matches.get_str("most");
    let text = matches.get_str("part");
    match (most, text) {
        (None, None) => Some(Extent::All),
        (Some(most), None) => Some(Extent::Most(long_number(most))),
        (None, Some(text)) => Some(Extent::Parts(parts(text)?)),
        (Some(_), Some(_)) => None,
    }
}

// The number that the text spells.
fn long_number(text: &str) -> u64
    requires { IsUnsignedIn 0 18446744073709551615 text.now }
    ensures { result ≡ digits_value 10 (without_leading_plus text.now) }
{
    let Ok(number) = text.parse::<u64>() else {
        unreachable!();
    };
    number
}

// Counts by a list and its certificate, or by a search where a puzzle is alone.
fn count(alloc: Global, matches: &ArgMatches<'_>) -> Result<Order, WordsFault>
    requires { AreMatchesOf (codes "count") (rows_of (found_of matches.now)) }
    ensures order { IfOk result (IsOrderOf (Some (codes "count", rows_of (found_of matches.now)))) }
    ensures refused { IfErr result (IsMisfit (Some (codes "count", rows_of (found_of matches.now)))) }
{
    let Some(extent) = extent(matches) else {
        return Err(misfit(
            count_command(alloc),
            "edgematch count",
            "--part is K/N or A-B/N, of parts 1 to N, N at most 1000000, and stands without --most",
        ));
    };
    let workers = match workers(matches) {
        Ok(workers) => workers,
        Err(reason) => return Err(misfit(count_command(alloc), "edgematch count", reason)),
    };
    match read_asked(alloc, matches)? {
        Asked::Given(given) => count_given(alloc, given, extent),
        Asked::Puzzle(puzzle) => {
            let progress = flag(matches, "progress");
            Ok(Order::Census(CensusOrder {
                puzzle,
                extent,
                workers,
                progress,
            }))
        }
        Asked::Nothing(reason) => Err(misfit(count_command(alloc), "edgematch count", reason)),
    }
}

// Counts by these documents.
fn count_given(alloc: Global, given: Given, extent: Extent) -> Result<Order, WordsFault>
    ensures { (rows : List Row) → IsGiven rows given → IsExtent rows extent → HasWorkers rows
        → IfOk result (IsOrderOf (Some (codes "count", rows)))
        × IfErr result (IsMisfit (Some (codes "count", rows))) }
{
    let Extent::All = extent else {
        return Err(misfit(
            count_command(alloc),
            "edgematch count",
            "--most and --part are of a search: they stand with PUZZLE alone",
        ));
    };
    Ok(Order::Count(given))
}

// Whether standard input is named.
fn name_input(names: &[&str]) -> bool
    ensures { IsTrue result ↔ Contains (map (λ name. name.now) names.now) input_name }
{
    names.contains(&"-")
}

// Copies of the texts.
fn owned(alloc: Global, texts: &[&str]) -> Result<Vec<String>, AllocError>
    ensures { IfOk result (λ owned. map string_bytes owned.items ≡ map (λ text. text.now) texts.now) }
{
    let mut owned = Vec::new(alloc);
    for text in texts {
        owned.push(String::from_str(alloc, text)?)?;
    }
    Ok(owned)
}

// Where the named lines of counted parts are; `None` where standard input is named together with others.
fn part_places(alloc: Global, names: &[&str]) -> Result<Option<PartPlaces>, AllocError>
    ensures { IfOk result (λ places. MatchOption places
        ((any : PartPlaces) → AreNamedParts (map (λ name. name.now) names.now) any → ⊥)
        (AreNamedParts (map (λ name. name.now) names.now))) }
{
    if !name_input(names) {
        return Ok(Some(PartPlaces::Files(owned(alloc, names)?)));
    }
    if names.len() == 1 {
        Ok(Some(PartPlaces::Input))
    } else {
        Ok(None)
    }
}

fn total(alloc: Global, matches: &ArgMatches<'_>) -> Result<Order, WordsFault>
    requires { AreMatchesOf (codes "total") (rows_of (found_of matches.now)) }
    ensures order { IfOk result (IsOrderOf (Some (codes "total", rows_of (found_of matches.now)))) }
    ensures refused { IfErr result (IsMisfit (Some (codes "total", rows_of (found_of matches.now)))) }
{
    let Some(names) = matches.get_strs("FILE") else {
        unreachable!();
    };
    let Some(places) = part_places(alloc, names)? else {
        return Err(misfit(total_command(alloc), "edgematch total", READ_ALONE));
    };
    Ok(Order::Total(places))
}

fn show(alloc: Global, matches: &ArgMatches<'_>) -> Result<Order, WordsFault>
    requires { AreMatchesOf (codes "show") (rows_of (found_of matches.now)) }
    ensures order { IfOk result (IsOrderOf (Some (codes "show", rows_of (found_of matches.now)))) }
    ensures refused { IfErr result (IsMisfit (Some (codes "show", rows_of (found_of matches.now)))) }
{
    let Some(subject) = read_subject(alloc, matches)? else {
        return Err(misfit(show_command(alloc), "edgematch show", READ_TWICE));
    };
    Ok(Order::Show(subject))
}

fn symmetries(alloc: Global, matches: &ArgMatches<'_>) -> Result<Order, WordsFault>
    requires { AreMatchesOf (codes "symmetries") (rows_of (found_of matches.now)) }
    ensures order { IfOk result (IsOrderOf (Some (codes "symmetries", rows_of (found_of matches.now)))) }
    ensures refused { IfErr result (IsMisfit (Some (codes "symmetries", rows_of (found_of matches.now)))) }
{
    Ok(Order::Symmetries(puzzle_place(alloc, matches)?))
}

fn tiles(matches: &ArgMatches<'_>) -> Order
    requires { AreMatchesOf (codes "tiles") (rows_of (found_of matches.now)) }
    ensures { IsOrderOf (Some (codes "tiles", rows_of (found_of matches.now))) result }
{
    let sides = number(matches, "SIDES");
    let colours = number(matches, "COLOURS");
    let lines = flag(matches, "lines");
    Order::Tiles(TilesOrder {
        sides,
        colours,
        lines,
    })
}

/// Reads the words after the program's name as an order.
///
/// Words that name no command order the same as no words. `Words` comes where they are wrong or ask for help, as `clap`
/// reads them by the program's commands, or where they don't go together. Then the error says why:
///
/// - only some of three documents are named
/// - `count` has three documents together with options of a search
/// - `solve` or `find` asks for symmetries by a word other than the two
/// - `find` asks for symmetries and not for orbits
/// - `generate` names no board, both a board and a puzzle to take it from, or is asked to choose of what needn't be unique
/// - `draw` has a certificate and no list, a size and no `--cut`, or `--cut` with a certificate or a sheet
/// - two documents are to be read from standard input
pub fn order(alloc: Global, words: &[String]) -> Result<Order, WordsFault>
    ensures order { IfOk result (IsOrder (map string_bytes words.now)) }

    // Words that `clap` takes are refused where memory is refused or they don't go together; other words are refused
    // with the kind of fault that `clap` has for them.
    ensures refused { IfErr result (IsRefused (map string_bytes words.now)) }
{
    let matches = program(alloc)?.try_get_matches_from(words)?;
    let Some((name, matches)) = matches.subcommand() else {
        return Ok(Order::Joined);
    };
    order_of(alloc, name, matches)
}

// The order of the matches of the command with this name.
fn order_of(alloc: Global, name: &str, matches: &ArgMatches<'_>) -> Result<Order, WordsFault>
    requires { AreMatchesOf name.now (rows_of (found_of matches.now)) }
    ensures order { IfOk result (IsOrderOf (Some (name.now, rows_of (found_of matches.now)))) }
    ensures refused { IfErr result (IsMisfit (Some (name.now, rows_of (found_of matches.now)))) }
{
    match name {
        "check" => check(alloc, matches),
        "explain" => explain(alloc, matches),
        "find" => find(alloc, matches),
        "solve" => solve(alloc, matches),
        "expand" => expand(alloc, matches),
        "page" => page(alloc, matches),
        "count" => count(alloc, matches),
        "total" => total(alloc, matches),
        "generate" => generate(alloc, matches),
        "show" => show(alloc, matches),
        "draw" => draw(alloc, matches),
        "symmetries" => symmetries(alloc, matches),
        "tiles" => Ok(tiles(matches)),
        // `clap` answers the words of `help` itself, by an error.
        _ => unreachable!(),
    }
}
