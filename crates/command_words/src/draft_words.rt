//! Reads the words of `generate`.

ghost use Rattle.std.specs.Prelude.{◌≡◌, ◌∷◌, List, Some, None, codes, true, false, IfOk, IfErr, MatchOption};
ghost use Rattle.clap.specs.Words.{Row, first_of, found_of, rows_of};
ghost use Rattle.command_words.specs.Orders.{AreMatchesOf, ArePlainRules, AreTurnsAsked, AreWantedRules, AskForNoRules, HasFlag};
ghost use Rattle.command_words.specs.Orders.{IsBoardAsked, IsBorderAsked, IsChoice, IsDraft, IsFlagged, IsMisfit, IsOrderOf};
ghost use Rattle.command_words.specs.Orders.{MayHaveNumber, TellsOfMisfit, number_of};
ghost use Rattle.command_words.specs.declared.orders.WantedRules.{WantedRules as Wanted};
ghost use Rattle.puzzle_drafts.specs.declared.drafts.BorderKind.{BorderKind as Kind};
ghost use Rattle.puzzle_drafts.specs.declared.drafts.Choice.{Choice as Chosen};
ghost use Rattle.puzzle_drafts.specs.declared.drafts.Draft.{Draft as Drafted};
ghost use Rattle.puzzle_drafts.specs.declared.drafts.PlainBoard.{PlainBoard as Plain};
ghost use Rattle.puzzle_drafts.specs.declared.drafts.PlainRules.{PlainRules as Ruled};
ghost use Rattle.std.specs.Prelude.{Bool, IsTrue, IsFalse};

use crate::commands::generate as generate_command;
use crate::faults::WordsFault;
use crate::orders::{ChosenFrom, GenerateOrder, Order, Tries, WantedRules};
use crate::readings::{
    flag, is_given, misfit, number, number_if_given, place_if_named, seed, word,
};
use clap::ArgMatches;
use match_limits::{Colours, Within};
use puzzle_drafts::{BorderKind, Choice, Draft, PlainBoard, PlainRules};
use std::alloc::{AllocError, Global};

// The message for words that name no board.
const NO_BOARD: &str =
    "name a board: rect WIDTH HEIGHT, triangle SIZE or hexagon SIZE; or --like PUZZLE";

// The message for another word for the board.
const NO_KIND: &str = "KIND is rect, triangle or hexagon";

// The message for a rectangle of which but one length is named.
const NO_HEIGHT: &str = "a rectangle has a width and a height: rect WIDTH HEIGHT";

// The message for a triangle or a hexagon with two lengths.
const TWO_LENGTHS: &str = "a triangle or a hexagon has one size: triangle SIZE, hexagon SIZE";

// The message for another word for the border.
const NO_BORDER: &str = "--border is frame, one, free or each";

// The message for another word for turns.
const NO_TURNS: &str = "--turns is yes or no";

// The message for rules beside those of a puzzle.
const RULES_TWICE: &str =
    "--like takes the board, the border, turns and mates from a puzzle, and stands without KIND, --border, --turns and --mates";

// The message for both choices.
const CHOSEN_TWICE: &str = "--hardest and --easiest don't go together";

// The message for a choice among puzzles that may have more arrangements.
const CHOSEN_OF_ANY: &str = "--hardest and --easiest stand with --unique";

// The length with this id, if there is one.
fn length(matches: &ArgMatches<'_>, id: &str) -> Option<u16>
    requires { MayHaveNumber id.now 1 100 (rows_of (found_of matches.now)) }
    ensures { MatchOption result (first_of id.now (rows_of (found_of matches.now)) ≡ None)
        (λ given. number_of id.now (rows_of (found_of matches.now)) ≡ Some given) }
{
    let given: Option<Within<1, 100>> = number_if_given(matches, id);
    match given {
        Some(given) => Some(given.get() as u16),
        None => None,
    }
}

// The board that the words name; an `Err` says why they name none.
fn board(matches: &ArgMatches<'_>) -> Result<PlainBoard, &'static str>
    requires size { MayHaveNumber (codes "SIZE") 1 100 (rows_of (found_of matches.now)) }
    requires height { MayHaveNumber (codes "HEIGHT") 1 100 (rows_of (found_of matches.now)) }
    ensures asked { IfOk result (IsBoardAsked (rows_of (found_of matches.now))) }
    ensures refused { IfErr result (λ reason. (board : Plain) → IsBoardAsked (rows_of (found_of matches.now)) board → ⊥) }
{
    let Some(kind) = word(matches, "KIND") else {
        return Err(NO_BOARD);
    };
    let Some(size) = length(matches, "SIZE") else {
        return Err(NO_BOARD);
    };
    let height = length(matches, "HEIGHT");
    match kind {
        "rect" => match height {
            Some(height) => Ok(PlainBoard::Rectangle {
                width: size,
                height,
            }),
            None => Err(NO_HEIGHT),
        },
        "triangle" => match height {
            Some(_) => Err(TWO_LENGTHS),
            None => Ok(PlainBoard::Triangle { size }),
        },
        "hexagon" => match height {
            Some(_) => Err(TWO_LENGTHS),
            None => Ok(PlainBoard::Hexagon { size }),
        },
        _ => Err(NO_KIND),
    }
}

// The border that the words ask for; an `Err` says why they ask for none.
fn border(matches: &ArgMatches<'_>) -> Result<BorderKind, &'static str>
    ensures asked { IfOk result (IsBorderAsked (rows_of (found_of matches.now))) }
    ensures refused { IfErr result (λ reason. (border : Kind) → IsBorderAsked (rows_of (found_of matches.now)) border → ⊥) }
{
    let Some(kind) = word(matches, "border") else {
        return Ok(BorderKind::Frame);
    };
    match kind {
        "frame" => Ok(BorderKind::Frame),
        "one" => Ok(BorderKind::One),
        "free" => Ok(BorderKind::Free),
        "each" => Ok(BorderKind::Each),
        _ => Err(NO_BORDER),
    }
}

// Whether the words let tiles be turned; an `Err` says why they say neither.
fn turns(matches: &ArgMatches<'_>) -> Result<bool, &'static str>
    ensures asked { IfOk result (AreTurnsAsked (rows_of (found_of matches.now))) }
    ensures refused { IfErr result (λ reason. (turns : Bool) → AreTurnsAsked (rows_of (found_of matches.now)) turns → ⊥) }
{
    let Some(answer) = word(matches, "turns") else {
        return Ok(true);
    };
    match answer {
        "yes" => Ok(true),
        "no" => Ok(false),
        _ => Err(NO_TURNS),
    }
}

// The rules that the words ask for; an `Err` says why they ask for none.
fn plain_rules(matches: &ArgMatches<'_>) -> Result<PlainRules, &'static str>
    requires { AreMatchesOf (codes "generate") (rows_of (found_of matches.now)) }
    ensures asked { IfOk result (ArePlainRules (rows_of (found_of matches.now))) }
    ensures refused { IfErr result (λ reason. (rules : Ruled) → ArePlainRules (rows_of (found_of matches.now)) rules → ⊥) }
{
    let board = board(matches)?;
    let border = border(matches)?;
    let turns = turns(matches)?;
    let mates = flag(matches, "mates");
    Ok(PlainRules {
        board,
        border,
        turns,
        mates,
    })
}

// Whether the words ask for a board, a border, turns or mates.
fn ask_for_rules(matches: &ArgMatches<'_>) -> bool
    requires { AreMatchesOf (codes "generate") (rows_of (found_of matches.now)) }
    ensures some { IsTrue result → AskForNoRules (rows_of (found_of matches.now)) → ⊥ }
    ensures none { IsFalse result → AskForNoRules (rows_of (found_of matches.now)) }
{
    let is_board = is_given(matches, "KIND")
        || is_given(matches, "SIZE")
        || is_given(matches, "HEIGHT");
    is_board || is_given(matches, "border") || is_given(matches, "turns") || flag(matches, "mates")
}

// The rules that the words ask for, or those of a puzzle that they name; an `Err` says why they do neither.
fn wanted_rules(
    alloc: Global,
    matches: &ArgMatches<'_>,
) -> Result<Result<WantedRules, &'static str>, AllocError>
    requires { AreMatchesOf (codes "generate") (rows_of (found_of matches.now)) }
    ensures asked { IfOk result (λ read. IfOk read (AreWantedRules (rows_of (found_of matches.now)))) }
    ensures refused { IfOk result (λ read. IfErr read (λ reason. (rules : Wanted)
        → AreWantedRules (rows_of (found_of matches.now)) rules → ⊥)) }
{
    let Some(puzzle) = place_if_named(alloc, matches, "like")? else {
        return match plain_rules(matches) {
            Ok(rules) => Ok(Ok(WantedRules::Plain(rules))),
            Err(reason) => Ok(Err(reason)),
        };
    };
    if ask_for_rules(matches) {
        Ok(Err(RULES_TWICE))
    } else {
        Ok(Ok(WantedRules::Like(puzzle)))
    }
}

// This choice, where puzzles are to have just one arrangement.
fn of_unique(matches: &ArgMatches<'_>, choice: Choice) -> Result<Choice, &'static str>
    requires { HasFlag (codes "unique") (rows_of (found_of matches.now)) }
    ensures chosen { IfOk result (λ chosen. chosen ≡ choice) }
    ensures unique { IfOk result (λ chosen. IsFlagged (codes "unique") (rows_of (found_of matches.now)) true) }
    ensures refused { IfErr result (λ reason. IsFlagged (codes "unique") (rows_of (found_of matches.now)) false) }
{
    if flag(matches, "unique") {
        Ok(choice)
    } else {
        Err(CHOSEN_OF_ANY)
    }
}

// Which of the puzzles that will do the words ask for; an `Err` says why they ask for none.
fn choice(matches: &ArgMatches<'_>) -> Result<Choice, &'static str>
    requires { AreMatchesOf (codes "generate") (rows_of (found_of matches.now)) }
    ensures asked { IfOk result (IsChoice (rows_of (found_of matches.now))) }
    ensures refused { IfErr result (λ reason. (choice : Chosen) → IsChoice (rows_of (found_of matches.now)) choice → ⊥) }
{
    let hardest: Option<ChosenFrom> = number_if_given(matches, "hardest");
    let easiest: Option<ChosenFrom> = number_if_given(matches, "easiest");
    match (hardest, easiest) {
        (None, None) => Ok(Choice::First),
        (Some(of), None) => of_unique(matches, Choice::Hardest(of.get() as u16)),
        (None, Some(of)) => of_unique(matches, Choice::Easiest(of.get() as u16)),
        (Some(_), Some(_)) => Err(CHOSEN_TWICE),
    }
}

// What the words ask of tiles and arrangements; an `Err` says why they don't go together.
fn draft(matches: &ArgMatches<'_>) -> Result<Draft, &'static str>
    requires { AreMatchesOf (codes "generate") (rows_of (found_of matches.now)) }
    ensures asked { IfOk result (IsDraft (rows_of (found_of matches.now))) }
    ensures refused { IfErr result (λ reason. (draft : Drafted) → IsDraft (rows_of (found_of matches.now)) draft → ⊥) }
{
    let choice = choice(matches)?;
    let colours: Colours = number(matches, "colours");
    let spare: Within<0, 256> = number(matches, "spare");
    let clues: Within<0, 256> = number(matches, "clues");
    let tries: Tries = number(matches, "tries");
    Ok(Draft {
        colours: colours.get() as u8,
        spare: spare.get() as u16,
        clues: clues.get() as u16,
        is_different: flag(matches, "different"),
        is_unique: flag(matches, "unique"),
        tries: tries.get(),
        choice,
        seed: seed(matches),
    })
}

pub(crate) fn generate(alloc: Global, matches: &ArgMatches<'_>) -> Result<Order, WordsFault>
    requires { AreMatchesOf (codes "generate") (rows_of (found_of matches.now)) }
    ensures order { IfOk result (IsOrderOf (Some (codes "generate", rows_of (found_of matches.now)))) }
    ensures refused { IfErr result (IsMisfit (Some (codes "generate", rows_of (found_of matches.now)))) }
{
    let rules = match wanted_rules(alloc, matches)? {
        Ok(rules) => rules,
        Err(reason) => return Err(refusal(alloc, reason)),
    };
    let draft = match draft(matches) {
        Ok(draft) => draft,
        Err(reason) => return Err(refusal(alloc, reason)),
    };
    let progress = flag(matches, "progress");
    Ok(Order::Generate(GenerateOrder {
        rules,
        draft,
        progress,
    }))
}

// The error for words that don't go together.
fn refusal(alloc: Global, reason: &str) -> WordsFault
    ensures { TellsOfMisfit result }
{
    misfit(generate_command(alloc), "edgematch generate", reason)
}
