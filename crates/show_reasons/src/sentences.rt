//! Reasons are told.

ghost use Rattle.std.specs.Prelude.{◌≡◌, ◌==◌, ◌<◌, ◌-◌, ◌++◌, All, IfOk, OnOk, filter, if◌then◌else◌, length, take};
ghost use Rattle.std.specs.List.{flat_map};
ghost use Rattle.match_limits.specs.declared.TheConstants.{MOST_COLOURS};
ghost use Rattle.show_reasons.specs.Reasons.{NamesColours};
ghost use Rattle.show_reasons.specs.Sentences.{TellsReasons, counted, is_of, kind_text, more_begin, more_end};
ghost use Rattle.show_reasons.specs.Sentences.{more_sentence, reasons_text, sentence, sides_counted};

use crate::finding::reasons_of;
use crate::reasons::Reason;
use match_puzzle::Puzzle;
use show_text::put_named;
use std::alloc::{AllocError, Global};
use text_words::put_number;

/// How many reasons of a kind are told one by one.
pub(crate) const MOST_NAMED: usize = 3;

// What a reason is of.
#[derive(Clone, Copy)]
enum Kind {
    Colours,
    Cells,
    Tiles,
}

/// What makes an arrangement of the puzzle impossible: a line for each reason, at most three of colours, of cells and
/// of tiles, and then how many more there are. It is empty where no reason holds.
///
/// An `Err` where memory is refused.
pub fn write_reasons(alloc: Global, puzzle: &Puzzle) -> Result<Vec<u8>, AllocError>
    ensures { IfOk result (λ text. TellsReasons puzzle.now text.items) }
{
    let reasons = reasons_of(alloc, puzzle)?;
    let text = text_of(alloc, &reasons)?;
    Ok(text)
}

// The sentences of these reasons.
fn text_of(alloc: Global, reasons: &[Reason]) -> Result<Vec<u8>, AllocError>
    requires { All NamesColours reasons.now }
    ensures { IfOk result (λ text. text.items ≡ reasons_text reasons.now) }
{
    let mut text = Vec::new(alloc);
    put_kind(alloc, &mut text, reasons, Kind::Colours)?;
    put_kind(alloc, &mut text, reasons, Kind::Cells)?;
    put_kind(alloc, &mut text, reasons, Kind::Tiles)?;
    Ok(text)
}

// The sentences of a kind.
fn put_kind(
    alloc: Global,
    text: &mut Vec<u8>,
    reasons: &[Reason],
    kind: Kind,
) -> Result<(), AllocError>
    requires { All NamesColours reasons.now }
    ensures { OnOk result (text.new.items ≡ text.old.items ++ kind_text reasons.now kind) }
{
    let listed = of_kind(alloc, reasons, kind)?;
    put_listed(text, &listed, kind)?;
    Ok(())
}

// The sentences of the first few of a kind, and how many more there are.
fn put_listed(text: &mut Vec<u8>, listed: &[Reason], kind: Kind) -> Result<(), AllocError>
    requires { All NamesColours listed.now }
    ensures { OnOk result (text.new.items ≡ text.old.items ++ (flat_map sentence (take MOST_NAMED listed.now)
        ++ more_sentence kind (length listed.now - MOST_NAMED))) }
{
    put_first(text, listed)?;
    put_more(text, kind, listed.len().saturating_sub(MOST_NAMED))?;
    Ok(())
}

fn put_first(text: &mut Vec<u8>, listed: &[Reason]) -> Result<(), AllocError>
    requires { All NamesColours listed.now }
    ensures { OnOk result (text.new.items ≡ text.old.items ++ flat_map sentence (take MOST_NAMED listed.now)) }
{
    let named = listed.len().min(MOST_NAMED);
    put_sentences(text, &listed[..named])?;
    Ok(())
}

// The reasons of a kind.
fn of_kind(alloc: Global, reasons: &[Reason], kind: Kind) -> Result<Vec<Reason>, AllocError>
    requires { All NamesColours reasons.now }
    ensures listed { IfOk result (λ listed. listed.items ≡ filter (is_of kind) reasons.now) }
    ensures colours { IfOk result (λ listed. All NamesColours listed.items) }
{
    let mut listed = Vec::new(alloc);
    for reason in reasons {
        if is_of(kind, *reason) {
            listed.push(*reason)?;
        }
    }
    Ok(listed)
}

fn is_of(kind: Kind, reason: Reason) -> bool
    ensures { result ≡ is_of kind reason }
{
    match reason {
        Reason::ColourShort { .. } | Reason::Odd { .. } | Reason::Unequal { .. } => {
            matches!(kind, Kind::Colours)
        }
        Reason::DeadCell { .. } => matches!(kind, Kind::Cells),
        Reason::DeadTile { .. } => matches!(kind, Kind::Tiles),
    }
}

fn put_sentences(text: &mut Vec<u8>, reasons: &[Reason]) -> Result<(), AllocError>
    requires { All NamesColours reasons.now }
    ensures { OnOk result (text.new.items ≡ text.old.items ++ flat_map sentence reasons.now) }
{
    for reason in reasons {
        put_sentence(text, *reason)?;
    }
    Ok(())
}

// How many more there are of a kind, where there are some.
fn put_more(text: &mut Vec<u8>, kind: Kind, more: usize) -> Result<(), AllocError>
    ensures { OnOk result (text.new.items ≡ text.old.items ++ more_sentence kind more) }
{
    if more == 0 {
        return Ok(());
    }
    put_more_begin(text, kind)?;
    put_number(text, more as u64)?;
    put_more_end(text, kind, more)?;
    Ok(())
}

fn put_more_begin(text: &mut Vec<u8>, kind: Kind) -> Result<(), AllocError>
    ensures { OnOk result (text.new.items ≡ text.old.items ++ more_begin kind) }
{
    match kind {
        Kind::Colours => text.extend_from_slice(b"no arrangement: so with "),
        Kind::Cells => text.extend_from_slice(b"no arrangement: nothing fits at "),
        Kind::Tiles => text.extend_from_slice(b"no arrangement: "),
    }
}

fn put_more_end(text: &mut Vec<u8>, kind: Kind, more: usize) -> Result<(), AllocError>
    ensures { OnOk result (text.new.items ≡ text.old.items ++ more_end kind more) }
{
    match kind {
        Kind::Colours => put_one_or_many(text, more, b" more colour\n", b" more colours\n"),
        Kind::Cells => put_one_or_many(text, more, b" more cell\n", b" more cells\n"),
        Kind::Tiles => put_one_or_many(
            text,
            more,
            b" more tile fits nowhere\n",
            b" more tiles fit nowhere\n",
        ),
    }
}

// The words for one, or those for another number.
fn put_one_or_many(
    text: &mut Vec<u8>,
    number: usize,
    one: &[u8],
    many: &[u8],
) -> Result<(), AllocError>
    ensures { OnOk result (text.new.items ≡ text.old.items ++ (if number == 1 then one.now else many.now)) }
{
    if number == 1 {
        text.extend_from_slice(one)
    } else {
        text.extend_from_slice(many)
    }
}

// The sentence of a reason.
fn put_sentence(text: &mut Vec<u8>, reason: Reason) -> Result<(), AllocError>
    requires { NamesColours reason }
    ensures { OnOk result (text.new.items ≡ text.old.items ++ sentence reason) }
{
    match reason {
        Reason::ColourShort {
            colour,
            asked,
            shown,
        } => put_short(text, colour, asked, shown),
        Reason::Odd { colour, left } => put_odd(text, colour, left),
        Reason::Unequal {
            colour,
            left,
            mate,
            mate_left,
        } => put_unequal(text, colour, left, mate, mate_left),
        Reason::DeadCell { cell } => put_dead_cell(text, cell),
        Reason::DeadTile { tile } => put_dead_tile(text, tile),
    }
}

fn put_short(text: &mut Vec<u8>, colour: u8, asked: usize, shown: usize) -> Result<(), AllocError>
    requires { colour < MOST_COLOURS }
    ensures { OnOk result (text.new.items ≡ text.old.items ++ sentence (Reason.ColourShort colour asked shown)) }
{
    put_named(text, b"no arrangement: the border asks for colour ", colour)?;
    put_sides(text, b" on ", asked)?;
    put_counted(text, b", and tiles show it on ", shown)?;
    text.extend_from_slice(b"\n")?;
    Ok(())
}

fn put_odd(text: &mut Vec<u8>, colour: u8, left: usize) -> Result<(), AllocError>
    requires { colour < MOST_COLOURS }
    ensures { OnOk result (text.new.items ≡ text.old.items ++ sentence (Reason.Odd colour left)) }
{
    put_named(
        text,
        b"no arrangement: off the border tiles show colour ",
        colour,
    )?;
    put_sides(text, b" on ", left)?;
    text.extend_from_slice(b", an odd number\n")?;
    Ok(())
}

fn put_unequal(
    text: &mut Vec<u8>,
    colour: u8,
    left: usize,
    mate: u8,
    mate_left: usize,
) -> Result<(), AllocError>
    requires { (colour < MOST_COLOURS) × (mate < MOST_COLOURS) }
    ensures { OnOk result (text.new.items ≡ text.old.items ++ sentence (Reason.Unequal colour left mate mate_left)) }
{
    put_named(
        text,
        b"no arrangement: off the border tiles show colour ",
        colour,
    )?;
    put_sides(text, b" on ", left)?;
    put_named(text, b", and its mate ", mate)?;
    put_counted(text, b" on ", mate_left)?;
    text.extend_from_slice(b"\n")?;
    Ok(())
}

fn put_dead_cell(text: &mut Vec<u8>, cell: u16) -> Result<(), AllocError>
    ensures { OnOk result (text.new.items ≡ text.old.items ++ sentence (Reason.DeadCell cell)) }
{
    put_counted(
        text,
        b"no arrangement: nothing fits at cell ",
        usize::from(cell),
    )?;
    text.extend_from_slice(b"\n")?;
    Ok(())
}

fn put_dead_tile(text: &mut Vec<u8>, tile: u16) -> Result<(), AllocError>
    ensures { OnOk result (text.new.items ≡ text.old.items ++ sentence (Reason.DeadTile tile)) }
{
    put_counted(text, b"no arrangement: tile ", usize::from(tile))?;
    text.extend_from_slice(b" fits nowhere\n")?;
    Ok(())
}

// The words, and a number of sides.
fn put_sides(text: &mut Vec<u8>, words: &[u8], number: usize) -> Result<(), AllocError>
    ensures { OnOk result (text.new.items ≡ text.old.items ++ sides_counted words.now number) }
{
    put_counted(text, words, number)?;
    put_one_or_many(text, number, b" side", b" sides")?;
    Ok(())
}

// The words, and a number.
fn put_counted(text: &mut Vec<u8>, words: &[u8], number: usize) -> Result<(), AllocError>
    ensures { OnOk result (text.new.items ≡ text.old.items ++ counted words.now number) }
{
    text.extend_from_slice(words)?;
    put_number(text, number as u64)?;
    Ok(())
}
