//! The program's commands, with their help.

ghost use Rattle.std.specs.Prelude.{◌≡◌, ◌∷◌, [], IfOk};
ghost use Rattle.clap.specs.Words.{App, app_of, with_subcommand};
ghost use Rattle.command_words.specs.Commands.{bare_app, check_app, count_app, draw_app, expand_app, explain_app, find_app, generate_app};
ghost use Rattle.command_words.specs.Commands.{page_app, show_app, solve_app, symmetries_app, tiles_app, total_app};
ghost use Rattle.command_words.specs.Commands.{whole_app, with_commands};
ghost use Rattle.command_words.specs.Tables.{IsArgOf, IsCommandAs, IsNumbered, IsOfKind, app_by};

use crate::helps;
use clap::builder::ValueParser;
use clap::{Arg, ArgAction, Command};
use match_limits::{
    LAST_ARRANGEMENT, MOST_ARRANGEMENTS, MOST_COLOURS, MOST_DRAWN, MOST_FORKS, MOST_FUEL,
    MOST_LENGTH, MOST_SIDES, MOST_TILES,
};
use std::alloc::{AllocError, Global};

const NAME: &str = "edgematch";

// The program's version, and the toolchain that it is proved with (the line of `rt version`).
const VERSION: &str = "0.1.0 (proved with rattle-kit-13f logic dac8208d650f15bf)";

// How an argument is given.
#[derive(Clone, Copy)]
enum Kind {
    // By a word at its place, which is required or optional.
    Word {
        is_wanted: bool,
    },
    // By one word or more at its place, each of which is a value.
    Words,
    // By an option with its name, followed by one value, that the command needs. Help names the value in this way.
    WantedOption {
        value: &'static str,
    },
    // By an option with its name, followed by the value. Help names the value in this way.
    Option {
        value: &'static str,
    },
    // By an option with its name, followed by a text; without the option it is the default. Help names the text in
    // this way.
    TextOption {
        value: &'static str,
        default: &'static str,
    },
    // By a flag with its name.
    Flag,
}

// The range of a value that is a number, and its default, if it has one.
#[derive(Clone, Copy)]
struct Number {
    least: u64,
    most: u64,
    default: Option<&'static str>,
}

// An argument of a command.
struct Argument {
    id: &'static str,
    kind: Kind,
    // Without this the value is a text.
    number: Option<Number>,
    help: &'static str,
}

// A command with its arguments.
struct CommandTable {
    name: &'static str,
    about: &'static str,
    arguments: &'static [Argument],
    // What its help says after the arguments.
    help: &'static str,
}

const PUZZLE: Argument = Argument {
    id: "PUZZLE",
    kind: Kind::Word { is_wanted: true },
    number: None,
    help: "File of the puzzle",
};

const LIST: Argument = Argument {
    id: "LIST",
    kind: Kind::Word { is_wanted: true },
    number: None,
    help: "File of the list of arrangements",
};

const CERTIFICATE: Argument = Argument {
    id: "CERTIFICATE",
    kind: Kind::Word { is_wanted: true },
    number: None,
    help: "File of the certificate",
};

// A document that a command needs only together with others.
const ANY_PUZZLE: Argument = Argument {
    id: "PUZZLE",
    kind: Kind::Word { is_wanted: false },
    number: None,
    help: "File of the puzzle",
};

const ANY_LIST: Argument = Argument {
    id: "LIST",
    kind: Kind::Word { is_wanted: false },
    number: None,
    help: "File of the list of arrangements",
};

const ANY_CERTIFICATE: Argument = Argument {
    id: "CERTIFICATE",
    kind: Kind::Word { is_wanted: false },
    number: None,
    help: "File of the certificate",
};

// A number of workers, or the word for as many as there are processors.
const WORKERS: Kind = Kind::TextOption {
    value: "WORKERS",
    default: "1",
};

const CHECKING_WORKERS: Argument = Argument {
    id: "workers",
    kind: WORKERS,
    number: None,
    help: "How many workers check the lemmas at once, 1 to 64; all: as many as there are processors",
};

const SEARCHING_WORKERS: Argument = Argument {
    id: "workers",
    kind: WORKERS,
    number: None,
    help: "How many workers search at once, 1 to 64; all: as many as there are processors",
};

const FORKS: Argument = Argument {
    id: "forks",
    kind: Kind::Option { value: "N" },
    number: Some(Number {
        least: 0,
        most: MOST_FORKS as u64,
        default: Some("0"),
    }),
    help: "In how many levels of a tree the two halves of a branch are checked at once, 0 to 6",
};

const PROGRESS: Argument = Argument {
    id: "progress",
    kind: Kind::Flag,
    number: None,
    help: "Says on standard error how far it is, at most once a second",
};

const HINTS: Argument = Argument {
    id: "hints",
    kind: Kind::Flag,
    number: None,
    help: "Says below a fault what is wrong and what may help, whether on a terminal or not",
};

const DEPTH: Argument = Argument {
    id: "depth",
    kind: Kind::TextOption {
        value: "DEPTH",
        default: "1",
    },
    number: None,
    help: "How many levels of branches become lemmas before the search, 0 to 3; auto: as suits the puzzle",
};

const FUEL: Argument = Argument {
    id: "fuel",
    kind: Kind::Option { value: "N" },
    number: Some(Number {
        least: 1,
        most: MOST_FUEL as u64,
        default: Some("1000000"),
    }),
    help: "The most branch nodes that a lemma may have, 1 to 1000000",
};

const SUGGESTED: Argument = Argument {
    id: "symmetries",
    kind: Kind::TextOption {
        value: "WHICH",
        default: "all",
    },
    number: None,
    help: "Which symmetries the certificate names: all, or board for those that leave each colour as it is",
};

const CHECKED: Argument = Argument {
    id: "check",
    kind: Kind::Flag,
    number: None,
    help: "Checks what was found, as check does, before the two files are put under their names",
};

const ORBITS: Argument = Argument {
    id: "orbits",
    kind: Kind::Flag,
    number: None,
    help: "Prints only one arrangement of each orbit",
};

const FOUND: Argument = Argument {
    id: "first",
    kind: Kind::Option { value: "K" },
    number: Some(Number {
        least: 1,
        most: MOST_ARRANGEMENTS as u64,
        default: Some("1"),
    }),
    help: "How many arrangements are printed at most, 1 to 1000000",
};

const FOUND_ORBITS: Argument = Argument {
    id: "orbits",
    kind: Kind::Flag,
    number: None,
    help: "Prints no arrangement that is an image of another",
};

const ORBIT_SYMMETRIES: Argument = Argument {
    id: "symmetries",
    kind: Kind::Option { value: "WHICH" },
    number: None,
    help: "Which symmetries --orbits goes by: board, the default, or all, which may exchange colours too",
};

const SEED: Argument = Argument {
    id: "seed",
    kind: Kind::Option { value: "N" },
    number: Some(Number {
        least: 0,
        most: u64::MAX,
        default: Some("1975"),
    }),
    help: "What the random numbers begin with, a number below 2^64",
};

const KIND: Argument = Argument {
    id: "KIND",
    kind: Kind::Word { is_wanted: false },
    number: None,
    help: "The board: rect, triangle or hexagon",
};

const LENGTH: Number = Number {
    least: 1,
    most: MOST_LENGTH as u64,
    default: None,
};

const SIZE: Argument = Argument {
    id: "SIZE",
    kind: Kind::Word { is_wanted: false },
    number: Some(LENGTH),
    help: "The width of a rectangle, or how many cells stand at each side of a triangle or a hexagon",
};

const HEIGHT: Argument = Argument {
    id: "HEIGHT",
    kind: Kind::Word { is_wanted: false },
    number: Some(LENGTH),
    help: "The height of a rectangle",
};

const LIKE: Argument = Argument {
    id: "like",
    kind: Kind::Option { value: "PUZZLE" },
    number: None,
    help: "Takes the board, the border, turns and mates from the file of this puzzle",
};

const DRAWN_COLOURS: Argument = Argument {
    id: "colours",
    kind: Kind::WantedOption { value: "Q" },
    number: Some(Number {
        least: 1,
        most: MOST_COLOURS as u64,
        default: None,
    }),
    help: "How many colours there are, 1 to 36; that of a frame is one of them",
};

const BORDER: Argument = Argument {
    id: "border",
    kind: Kind::Option { value: "BORDER" },
    number: None,
    help: "What outer sides show: frame, the default, one, free or each",
};

const TURNS: Argument = Argument {
    id: "turns",
    kind: Kind::Option { value: "ANSWER" },
    number: None,
    help: "Whether tiles may be turned: yes, the default, or no",
};

const MATES: Argument = Argument {
    id: "mates",
    kind: Kind::Flag,
    number: None,
    help: "Colours meet in pairs, as heads and tails do",
};

const MORE_TILES: Number = Number {
    least: 0,
    most: MOST_TILES as u64,
    default: Some("0"),
};

const SPARE: Argument = Argument {
    id: "spare",
    kind: Kind::Option { value: "K" },
    number: Some(MORE_TILES),
    help: "How many tiles are left over, 0 to 256",
};

const CLUES: Argument = Argument {
    id: "clues",
    kind: Kind::Option { value: "K" },
    number: Some(MORE_TILES),
    help: "How many cells have a clue, 0 to 256",
};

const DIFFERENT: Argument = Argument {
    id: "different",
    kind: Kind::Flag,
    number: None,
    help: "No two tiles are equal, and each looks different after every turn",
};

const UNIQUE: Argument = Argument {
    id: "unique",
    kind: Kind::Flag,
    number: None,
    help: "There is just one arrangement, up to turns of the whole board",
};

const TRIES: Argument = Argument {
    id: "tries",
    kind: Kind::Option { value: "T" },
    number: Some(Number {
        least: 1,
        most: 1_000_000,
        default: Some("100"),
    }),
    help: "How many puzzles are drawn at most until one will do, 1 to 1000000",
};

const CHOSEN: Number = Number {
    least: 1,
    most: 1_000,
    default: None,
};

const HARDEST: Argument = Argument {
    id: "hardest",
    kind: Kind::Option { value: "T" },
    number: Some(CHOSEN),
    help: "Takes of T puzzles with just one arrangement the one with the most work, 1 to 1000",
};

const EASIEST: Argument = Argument {
    id: "easiest",
    kind: Kind::Option { value: "T" },
    number: Some(CHOSEN),
    help: "Takes of T puzzles with just one arrangement the one with the least work, 1 to 1000",
};

const WANTED_SEED: Argument = Argument {
    id: "seed",
    kind: Kind::WantedOption { value: "N" },
    number: Some(Number {
        least: 0,
        most: u64::MAX,
        default: None,
    }),
    help: "What the random numbers begin with, a number below 2^64",
};

const DRAWING_PROGRESS: Argument = Argument {
    id: "progress",
    kind: Kind::Flag,
    number: None,
    help: "Says on standard error, at most once a second, which puzzle won't do and why, or how far a count is",
};

const TITLE: Argument = Argument {
    id: "title",
    kind: Kind::TextOption {
        value: "T",
        default: "An edge-matching puzzle",
    },
    number: None,
    help: "The heading of the page",
};

const SHEET: Argument = Argument {
    id: "first",
    kind: Kind::Option { value: "N" },
    number: Some(Number {
        least: 0,
        most: MOST_DRAWN as u64,
        default: Some("24"),
    }),
    help: "How many of the listed arrangements a sheet shows, 0 to 100; 0 or 1 for no sheet",
};

const MOST: Argument = Argument {
    id: "most",
    kind: Kind::Option { value: "M" },
    number: Some(Number {
        least: 0,
        most: u64::MAX,
        default: None,
    }),
    help: "Ends as soon as more than M are found, and says so; with --most only one worker searches",
};

const PART: Argument = Argument {
    id: "part",
    kind: Kind::Option { value: "K/N" },
    number: None,
    help: "Counts in part K of N of the search, or with A-B/N in parts A to B; N is at most 1000000",
};

const PARTS: Argument = Argument {
    id: "FILE",
    kind: Kind::Words,
    number: None,
    help: "Files with the lines that count --part printed, or - alone, which is standard input",
};

const SHOWN_LIST: Argument = Argument {
    id: "LIST",
    kind: Kind::Word { is_wanted: false },
    number: None,
    help: "File of a list of arrangements, one of which is drawn",
};

const DRAWN_LIST: Argument = Argument {
    id: "LIST",
    kind: Kind::Word { is_wanted: false },
    number: None,
    help: "File of a list of arrangements, one or several of which are drawn",
};

const NUMBER: Argument = Argument {
    id: "N",
    kind: Kind::Word { is_wanted: false },
    number: Some(Number {
        least: 0,
        most: LAST_ARRANGEMENT as u64,
        default: Some("0"),
    }),
    help: "Which arrangement of the list is drawn, 0 to 999999",
};

const FIRST: Argument = Argument {
    id: "first",
    kind: Kind::Option { value: "K" },
    number: Some(Number {
        least: 0,
        most: MOST_DRAWN as u64,
        default: Some("0"),
    }),
    help: "Draws a sheet of K arrangements from N on, 0 to 100; 0 draws N alone, large",
};

const NUMBERS: Argument = Argument {
    id: "numbers",
    kind: Kind::Flag,
    number: None,
    help: "Writes on each cell the number of its tile",
};

const ALL: Argument = Argument {
    id: "all",
    kind: Kind::Option {
        value: "CERTIFICATE",
    },
    number: None,
    help: "Checks the list with this certificate, and draws of all arrangements, in the order of expand",
};

const CUT: Argument = Argument {
    id: "cut",
    kind: Kind::Flag,
    number: None,
    help: "Prints pages (HTML) with the tiles, to be printed on paper and cut out",
};

const TILE_SIZE: Argument = Argument {
    id: "size",
    kind: Kind::Option { value: "MM" },
    number: Some(Number {
        least: 10,
        most: 100,
        default: None,
    }),
    help: "How long the side of a tile is with --cut, in millimetres, 10 to 100; 40 is the default",
};

const SIDES: Argument = Argument {
    id: "SIDES",
    kind: Kind::Word { is_wanted: true },
    number: Some(Number {
        least: 3,
        most: MOST_SIDES as u64,
        default: None,
    }),
    help: "How many sides a tile has, 3 or 4",
};

const COLOURS: Argument = Argument {
    id: "COLOURS",
    kind: Kind::Word { is_wanted: true },
    number: Some(Number {
        least: 1,
        most: MOST_COLOURS as u64,
        default: None,
    }),
    help: "How many colours there are, 1 to 36",
};

const LINES: Argument = Argument {
    id: "lines",
    kind: Kind::Flag,
    number: None,
    help: "Prints the tiles as lines of a puzzle's text: tile WORD",
};

const CHECK: CommandTable = CommandTable {
    name: "check",
    about: "Checks that a list has every arrangement of a puzzle",
    arguments: &[
        ANY_PUZZLE,
        ANY_LIST,
        ANY_CERTIFICATE,
        CHECKING_WORKERS,
        FORKS,
        PROGRESS,
        HINTS,
    ],
    help: helps::CHECK,
};

const EXPLAIN: CommandTable = CommandTable {
    name: "explain",
    about: "Checks a list, and says why it is refused, or what is wrong with a puzzle",
    arguments: &[ANY_PUZZLE, ANY_LIST, ANY_CERTIFICATE],
    help: helps::EXPLAIN,
};

const FIND: CommandTable = CommandTable {
    name: "find",
    about: "Finds one arrangement of a puzzle, or several, and prints their list",
    arguments: &[
        PUZZLE,
        FOUND,
        FOUND_ORBITS,
        ORBIT_SYMMETRIES,
        SEED,
        SEARCHING_WORKERS,
        PROGRESS,
    ],
    help: helps::FIND,
};

const SOLVE: CommandTable = CommandTable {
    name: "solve",
    about: "Searches for every arrangement of a puzzle, and writes their list and a certificate",
    arguments: &[
        PUZZLE,
        LIST,
        CERTIFICATE,
        DEPTH,
        FUEL,
        SEARCHING_WORKERS,
        SUGGESTED,
        CHECKED,
        PROGRESS,
        HINTS,
    ],
    help: helps::SOLVE,
};

const EXPAND: CommandTable = CommandTable {
    name: "expand",
    about: "Checks a list, and prints every arrangement of the puzzle",
    arguments: &[ANY_PUZZLE, ANY_LIST, ANY_CERTIFICATE, ORBITS, HINTS],
    help: helps::EXPAND,
};

const PAGE: CommandTable = CommandTable {
    name: "page",
    about: "Checks a list, and prints a page (HTML) that publishes it",
    arguments: &[ANY_PUZZLE, ANY_LIST, ANY_CERTIFICATE, TITLE, SHEET, HINTS],
    help: helps::PAGE,
};

const COUNT: CommandTable = CommandTable {
    name: "count",
    about: "Counts the arrangements of a puzzle, by a search or by a list that is checked",
    arguments: &[
        ANY_PUZZLE,
        ANY_LIST,
        ANY_CERTIFICATE,
        SEARCHING_WORKERS,
        MOST,
        PART,
        PROGRESS,
    ],
    help: helps::COUNT,
};

const TOTAL: CommandTable = CommandTable {
    name: "total",
    about: "Adds up the counts of all parts of a search",
    arguments: &[PARTS],
    help: helps::TOTAL,
};

const GENERATE: CommandTable = CommandTable {
    name: "generate",
    about: "Makes a puzzle that has an arrangement, or just one, and prints its text",
    arguments: &[
        KIND,
        SIZE,
        HEIGHT,
        LIKE,
        DRAWN_COLOURS,
        BORDER,
        TURNS,
        MATES,
        SPARE,
        CLUES,
        DIFFERENT,
        UNIQUE,
        TRIES,
        HARDEST,
        EASIEST,
        WANTED_SEED,
        DRAWING_PROGRESS,
    ],
    help: helps::GENERATE,
};

const SHOW: CommandTable = CommandTable {
    name: "show",
    about: "Draws a puzzle's board, and counts its colours",
    arguments: &[PUZZLE, SHOWN_LIST, NUMBER],
    help: helps::SHOW,
};

const DRAW: CommandTable = CommandTable {
    name: "draw",
    about: "Draws a puzzle, or arrangements of a list, as a picture",
    arguments: &[
        PUZZLE, DRAWN_LIST, NUMBER, FIRST, ALL, NUMBERS, CUT, TILE_SIZE,
    ],
    help: helps::DRAW,
};

const SYMMETRIES: CommandTable = CommandTable {
    name: "symmetries",
    about: "Finds symmetries of a puzzle",
    arguments: &[PUZZLE],
    help: helps::SYMMETRIES,
};

const TILES: CommandTable = CommandTable {
    name: "tiles",
    about: "Lists the tiles with so many sides and colours, each in one of its turns",
    arguments: &[SIDES, COLOURS, LINES],
    help: helps::TILES,
};

// The argument, given in this way.
fn with_kind<'a>(arg: Arg<'a>, id: &'a str, kind: Kind) -> Arg<'a>
    ensures { IsOfKind kind id.entry.now arg.entry result }
{
    match kind {
        Kind::Word { is_wanted } => arg.required(is_wanted),
        Kind::Words => arg.required(true).action(ArgAction::Append),
        Kind::WantedOption { value } => arg.required(true).long(id).value_name(value),
        Kind::Option { value } => arg.long(id).value_name(value),
        Kind::TextOption { value, default } => {
            arg.long(id).value_name(value).default_value(default)
        }
        Kind::Flag => arg.long(id).action(ArgAction::SetTrue),
    }
}

// The argument, with a value that is such a number.
fn with_number<'a>(arg: Arg<'a>, number: Number) -> Arg<'a>
    ensures { IsNumbered number arg.entry result }
{
    let arg = arg.value_parser(ValueParser::unsigned(number.least, number.most));
    match number.default {
        Some(default) => arg.default_value(default),
        None => arg,
    }
}

// The argument as `clap` takes it.
fn arg_of<'a>(alloc: Global, argument: &Argument) -> Arg<'a>
    ensures { IsArgOf argument.now result }
{
    let arg = Arg::new(alloc, argument.id).help(argument.help);
    let arg = with_kind(arg, argument.id, argument.kind);
    match argument.number {
        Some(number) => with_number(arg, number),
        None => arg,
    }
}

// The command as `clap` takes it.
fn command_of<'a>(alloc: Global, table: &CommandTable) -> Result<Command<'a>, AllocError>
    ensures { IfOk result (IsCommandAs (app_by table.now)) }
{
    let mut command = Command::new(alloc, table.name)
        .about(table.about)
        .after_help(table.help);
    for argument in table.arguments {
        command = command.arg(arg_of(alloc, argument))?;
    }
    Ok(command)
}

// The program without its commands.
fn bare_program<'a>(alloc: Global) -> Result<Command<'a>, AllocError>
    ensures { IfOk result (λ c. app_of c ≡ bare_app) }
{
    Command::new(alloc, NAME)
        .about(
            "Finds the arrangements of edge-matching puzzles, and checks that lists of them are complete",
        )
        .after_help(helps::WITHOUT_COMMAND)
        .version(VERSION)
        .no_binary_name(true)
        .bin_name(NAME)
}

pub(crate) fn check<'a>(alloc: Global) -> Result<Command<'a>, AllocError>
    ensures { IfOk result (IsCommandAs check_app) }
{
    command_of(alloc, &CHECK)
}

pub(crate) fn explain<'a>(alloc: Global) -> Result<Command<'a>, AllocError>
    ensures { IfOk result (IsCommandAs explain_app) }
{
    command_of(alloc, &EXPLAIN)
}

pub(crate) fn find<'a>(alloc: Global) -> Result<Command<'a>, AllocError>
    ensures { IfOk result (IsCommandAs find_app) }
{
    command_of(alloc, &FIND)
}

pub(crate) fn solve<'a>(alloc: Global) -> Result<Command<'a>, AllocError>
    ensures { IfOk result (IsCommandAs solve_app) }
{
    command_of(alloc, &SOLVE)
}

pub(crate) fn expand<'a>(alloc: Global) -> Result<Command<'a>, AllocError>
    ensures { IfOk result (IsCommandAs expand_app) }
{
    command_of(alloc, &EXPAND)
}

pub(crate) fn page<'a>(alloc: Global) -> Result<Command<'a>, AllocError>
    ensures { IfOk result (IsCommandAs page_app) }
{
    command_of(alloc, &PAGE)
}

pub(crate) fn count<'a>(alloc: Global) -> Result<Command<'a>, AllocError>
    ensures { IfOk result (IsCommandAs count_app) }
{
    command_of(alloc, &COUNT)
}

pub(crate) fn total<'a>(alloc: Global) -> Result<Command<'a>, AllocError>
    ensures { IfOk result (IsCommandAs total_app) }
{
    command_of(alloc, &TOTAL)
}

pub(crate) fn generate<'a>(alloc: Global) -> Result<Command<'a>, AllocError>
    ensures { IfOk result (IsCommandAs generate_app) }
{
    command_of(alloc, &GENERATE)
}

pub(crate) fn show<'a>(alloc: Global) -> Result<Command<'a>, AllocError>
    ensures { IfOk result (IsCommandAs show_app) }
{
    command_of(alloc, &SHOW)
}

pub(crate) fn draw<'a>(alloc: Global) -> Result<Command<'a>, AllocError>
    ensures { IfOk result (IsCommandAs draw_app) }
{
    command_of(alloc, &DRAW)
}

fn symmetries<'a>(alloc: Global) -> Result<Command<'a>, AllocError>
    ensures { IfOk result (IsCommandAs symmetries_app) }
{
    command_of(alloc, &SYMMETRIES)
}

fn tiles<'a>(alloc: Global) -> Result<Command<'a>, AllocError>
    ensures { IfOk result (IsCommandAs tiles_app) }
{
    command_of(alloc, &TILES)
}

// The program with one more command, if both could be made.
fn with_command<'a>(
    program: Result<Command<'a>, AllocError>,
    command: Result<Command<'a>, AllocError>,
) -> Result<Command<'a>, AllocError>
    ensures { (before : App) (app : App) → IfOk program.entry (λ c. app_of c ≡ before)
        → IfOk command.entry (IsCommandAs app)
        → IfOk result (λ c. app_of c ≡ with_subcommand before app.top) }
{
    program?.subcommand(command?)
}

// The program with the commands that make a list, that read a list with its certificate, or that count by a search.
fn with_list_commands<'a>(
    alloc: Global,
    program: Result<Command<'a>, AllocError>,
) -> Result<Command<'a>, AllocError>
    ensures { (before : App) → IfOk program.entry (λ c. app_of c ≡ before)
        → IfOk result (λ c. app_of c
        ≡ with_commands before
        (check_app ∷ explain_app ∷ find_app ∷ solve_app ∷ expand_app ∷ page_app ∷ count_app ∷ total_app ∷ [])) }
{
    let program = with_command(program, check(alloc));
    let program = with_command(program, explain(alloc));
    let program = with_command(program, find(alloc));
    let program = with_command(program, solve(alloc));
    let program = with_command(program, expand(alloc));
    let program = with_command(program, page(alloc));
    let program = with_command(program, count(alloc));
    with_command(program, total(alloc))
}

// The program with the other commands.
fn with_puzzle_commands<'a>(
    alloc: Global,
    program: Result<Command<'a>, AllocError>,
) -> Result<Command<'a>, AllocError>
    ensures { (before : App) → IfOk program.entry (λ c. app_of c ≡ before)
        → IfOk result (λ c. app_of c ≡ with_commands before (generate_app ∷ show_app ∷ draw_app ∷ symmetries_app ∷ tiles_app ∷ [])) }
{
    let program = with_command(program, generate(alloc));
    let program = with_command(program, show(alloc));
    let program = with_command(program, draw(alloc));
    let program = with_command(program, symmetries(alloc));
    with_command(program, tiles(alloc))
}

/// Returns the program's commands. They read the words after the program's name. An error comes where memory is
/// refused.
pub fn program<'a>(alloc: Global) -> Result<Command<'a>, AllocError>
    ensures { IfOk result (λ c. app_of c ≡ whole_app) }
{
    let program = with_list_commands(alloc, bare_program(alloc));
    with_puzzle_commands(alloc, program)
}
