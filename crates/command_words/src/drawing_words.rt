//! Reads the words of `draw`.

ghost use Rattle.std.specs.Prelude.{◌≡◌, ℕ, Option, None, Some, codes, IfOk, IfErr, IsFalse, IsTrue};
ghost use Rattle.clap.specs.Words.{found_of, rows_of};
ghost use Rattle.command_words.specs.Orders.{AreMatchesOf, AskForCut, DrawsOne, IsMisfit, IsOrderOf, IsPlace, TellsOfMisfit};

use crate::commands::draw as draw_command;
use crate::faults::WordsFault;
use crate::orders::{CutOrder, DrawAllOrder, DrawOrder, Order, TileSize};
use crate::places::{Given, Place, Places};
use crate::readings::{
    READ_TWICE, flag, is_given, misfit, number, number_if_given, place_if_named, puzzle_place,
    read_subject,
};
use clap::ArgMatches;
use match_limits::{Drawn, Within};
use std::alloc::Global;

// The message for a certificate by which no list is drawn.
const ALL_OF_NO_LIST: &str =
    "--all draws by a list with its certificate: PUZZLE LIST --all CERTIFICATE";

// The message for a size of tiles that aren't cut out.
const SIZE_OF_NO_CUT: &str = "--size goes with --cut";

// The message for tiles that are cut out and several arrangements.
const CUT_OF_SEVERAL: &str =
    "--cut draws the tiles, and at most one arrangement of a list: PUZZLE [LIST [N]] --cut";

pub(crate) fn draw(alloc: Global, matches: &ArgMatches<'_>) -> Result<Order, WordsFault>
    requires { AreMatchesOf (codes "draw") (rows_of (found_of matches.now)) }
    ensures order { IfOk result (IsOrderOf (Some (codes "draw", rows_of (found_of matches.now)))) }
    ensures refused { IfErr result (IsMisfit (Some (codes "draw", rows_of (found_of matches.now)))) }
{
    match cut_size(matches) {
        Ok(None) => picture(alloc, matches),
        Ok(Some(size)) => cut(alloc, matches, size),
        Err(reason) => Err(refusal(alloc, reason)),
    }
}

// Whether all arrangements are drawn, or a sheet of several.
fn draws_several(matches: &ArgMatches<'_>) -> bool
    requires { AreMatchesOf (codes "draw") (rows_of (found_of matches.now)) }
    ensures several { IsTrue result → DrawsOne (rows_of (found_of matches.now)) → ⊥ }
    ensures one { IsFalse result → DrawsOne (rows_of (found_of matches.now)) }
{
    let first: Drawn = number(matches, "first");
    is_given(matches, "all") || first.get() != 0
}

// How long the side of a tile is that is cut out; `None` where a picture is drawn. An `Err` says why the words don't go
// together.
fn cut_size(matches: &ArgMatches<'_>) -> Result<Option<TileSize>, &'static str>
    requires { AreMatchesOf (codes "draw") (rows_of (found_of matches.now)) }
    ensures asked { IfOk result (AskForCut (rows_of (found_of matches.now))) }
    ensures refused { IfErr result (λ reason. (size : Option ℕ) → AskForCut (rows_of (found_of matches.now)) size → ⊥) }
{
    let size: Option<TileSize> = number_if_given(matches, "size");
    match (flag(matches, "cut"), size) {
        (false, None) => Ok(None),
        (false, Some(_)) => Err(SIZE_OF_NO_CUT),
        (true, size) => {
            if draws_several(matches) {
                return Err(CUT_OF_SEVERAL);
            }
            Ok(Some(size.unwrap_or(Within::new(40))))
        }
    }
}

// Draws a picture of the puzzle, of what is listed, or of all arrangements.
fn picture(alloc: Global, matches: &ArgMatches<'_>) -> Result<Order, WordsFault>
    requires draw { AreMatchesOf (codes "draw") (rows_of (found_of matches.now)) }
    requires picture { AskForCut (rows_of (found_of matches.now)) None }
    ensures order { IfOk result (IsOrderOf (Some (codes "draw", rows_of (found_of matches.now)))) }
    ensures refused { IfErr result (IsMisfit (Some (codes "draw", rows_of (found_of matches.now)))) }
{
    if let Some(certificate) = place_if_named(alloc, matches, "all")? {
        return draw_all(alloc, matches, certificate);
    }
    let Some(subject) = read_subject(alloc, matches)? else {
        return Err(refusal(alloc, READ_TWICE));
    };
    let first = number(matches, "first");
    let numbers = flag(matches, "numbers");
    Ok(Order::Draw(DrawOrder {
        subject,
        first,
        numbers,
    }))
}

// Draws of all arrangements, by the list and by this certificate.
fn draw_all(
    alloc: Global,
    matches: &ArgMatches<'_>,
    certificate: Place,
) -> Result<Order, WordsFault>
    requires draw { AreMatchesOf (codes "draw") (rows_of (found_of matches.now)) }
    requires picture { AskForCut (rows_of (found_of matches.now)) None }
    requires certificate { IsPlace (codes "all") (rows_of (found_of matches.now)) certificate }
    ensures order { IfOk result (IsOrderOf (Some (codes "draw", rows_of (found_of matches.now)))) }
    ensures refused { IfErr result (IsMisfit (Some (codes "draw", rows_of (found_of matches.now)))) }
{
    let puzzle = puzzle_place(alloc, matches)?;
    let list = place_if_named(alloc, matches, "LIST")?;
    let Some(list) = list else {
        return Err(refusal(alloc, ALL_OF_NO_LIST));
    };
    let Some(places) = Places::new(puzzle, list, certificate) else {
        return Err(refusal(alloc, READ_TWICE));
    };
    Ok(Order::DrawAll(DrawAllOrder {
        given: Given::Apart(places),
        number: number(matches, "N"),
        first: number(matches, "first"),
        numbers: flag(matches, "numbers"),
    }))
}

// Draws tiles of this size, to be cut out, and the arrangement of a list, if one is named.
fn cut(alloc: Global, matches: &ArgMatches<'_>, size: TileSize) -> Result<Order, WordsFault>
    requires draw { AreMatchesOf (codes "draw") (rows_of (found_of matches.now)) }
    requires cut { AskForCut (rows_of (found_of matches.now)) (Some size) }
    ensures order { IfOk result (IsOrderOf (Some (codes "draw", rows_of (found_of matches.now)))) }
    ensures refused { IfErr result (IsMisfit (Some (codes "draw", rows_of (found_of matches.now)))) }
{
    let Some(subject) = read_subject(alloc, matches)? else {
        return Err(refusal(alloc, READ_TWICE));
    };
    let numbers = flag(matches, "numbers");
    Ok(Order::Cut(CutOrder {
        subject,
        size,
        numbers,
    }))
}

// The error for words that don't go together.
fn refusal(alloc: Global, reason: &str) -> WordsFault
    ensures { TellsOfMisfit result }
{
    misfit(draw_command(alloc), "edgematch draw", reason)
}
