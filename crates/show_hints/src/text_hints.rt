//! What has to stand where a text has its first fault, and what stands there.

use crate::documents::{Document, with_line_feed};
use crate::line_forms::{counted_lines, form_of, mistake, spelling_mistake};
use crate::spots::{Spot, first_word, quoted};
use crate::tree_spots::{NodeSpot, node_at};
use match_limits::ranges_of;
use std::alloc::{AllocError, Global};
use text_words::{Asked, FaultPlace, TextKind};

// Of the text of a document: what has to stand where it has its first fault, and what stands there, in one line.
pub(crate) fn text_hint(
    alloc: Global,
    document: Document,
    text: &[u8],
) -> Result<Option<String>, AllocError> {
    let Some(place) = document.fault_place(alloc, text) else {
        return Ok(None);
    };
    let hint = if place.fault.kind == TextKind::Ends && !place.ahead.is_empty() {
        unended_hint(alloc, document, text, place.fault.line)?
    } else {
        hint_at(alloc, document, text, &place)?
    };
    Ok(Some(hint))
}

// That no line feed stands behind the text, and what else is wrong where one does.
fn unended_hint(
    alloc: Global,
    document: Document,
    text: &[u8],
    line: u32,
) -> Result<String, AllocError> {
    let name = document.name();
    let ended = with_line_feed(alloc, text)?;
    let Some(place) = document.fault_place(alloc, &ended) else {
        return format!(in alloc; "there is no line feed behind {name} line {line}");
    };
    let further = hint_at(alloc, document, &ended, &place)?;
    format!(in alloc; "there is no line feed behind {name} line {line}, and {further}")
}

// What has to stand where a text with a line feed behind it has its first fault, and what stands there.
fn hint_at(
    alloc: Global,
    document: Document,
    text: &[u8],
    place: &FaultPlace<'_>,
) -> Result<String, AllocError> {
    match place.fault.kind {
        TextKind::Ends => missing_line(alloc, document, text, place.fault.line),
        TextKind::After => line_behind(alloc, document, place),
        TextKind::TooDeep => deep_node(alloc, text, &Spot::of(document, text, place)),
        TextKind::Version | TextKind::Word | TextKind::Number | TextKind::Limit => {
            word_hint(alloc, text, &Spot::of(document, text, place), place)
        }
    }
}

// What the line has to begin with that the text ends before: what is asked for where it is an empty one.
fn missing_line(
    alloc: Global,
    document: Document,
    text: &[u8],
    line: u32,
) -> Result<String, AllocError> {
    let ended = with_line_feed(alloc, text)?;
    let place = document.fault_place(alloc, &ended);
    missing(alloc, document, line, place.and_then(|place| place.missed))
}

// That a line is missing, and what it has to begin with.
fn missing(
    alloc: Global,
    document: Document,
    line: u32,
    missed: Option<Asked>,
) -> Result<String, AllocError> {
    let name = document.name();
    let Some(asked) = missed else {
        return format!(in alloc; "{name} line {line} is missing");
    };
    let wanted = wanted(alloc, asked)?;
    let mut hint = format!(in alloc; "{name} line {line} is missing: {wanted} has to stand there")?;
    if let Asked::Word(word) = asked {
        put_form(alloc, &mut hint, "line", form_of(document, word))?;
    }
    Ok(hint)
}

// That nothing stands behind the last line.
fn line_behind(
    alloc: Global,
    document: Document,
    place: &FaultPlace<'_>,
) -> Result<String, AllocError> {
    let (name, line, bytes) = (document.name(), place.fault.line, place.ahead.len());
    format!(in alloc;
        "{name} line {line} has to be away: the text ends with the line \"end\"; bytes behind that: {bytes}"
    )
}

// That the tree has no such level.
fn deep_node(alloc: Global, text: &[u8], spot: &Spot<'_>) -> Result<String, AllocError> {
    let at = place_name(alloc, spot, node_at(spot.line, spot.word_number, true))?;
    let version = if text.starts_with(b"certificate 1\n") {
        1
    } else {
        2
    };
    let levels = ranges_of(version).most_levels;
    format!(in alloc; "{at} is below the last level: a tree has at most {levels} levels")
}

// What a word has to be, and what it is.
fn word_hint(
    alloc: Global,
    text: &[u8],
    spot: &Spot<'_>,
    place: &FaultPlace<'_>,
) -> Result<String, AllocError> {
    let missed = place.missed;
    let node = node_of(spot, missed);
    let mut hint = match missed {
        Some(asked) => judgement(alloc, spot, asked, node)?,
        None => superfluous(alloc, spot, place.fault.kind)?,
    };
    put_kind(&mut hint, spot, missed, place.fault.kind)?;
    put_remarks(alloc, &mut hint, text, spot, missed)?;
    Ok(hint)
}

// What may be wrong with the word, and what its node or line looks like.
fn put_remarks(
    alloc: Global,
    hint: &mut String,
    text: &[u8],
    spot: &Spot<'_>,
    missed: Option<Asked>,
) -> Result<(), AllocError> {
    put_characters(hint, spot, missed)?;
    put_note(hint, spelling_mistake(spot, missed))?;
    let version = puzzle_version(text);
    put_note(hint, mistake(missed, spot, version))?;
    put_line_count(alloc, hint, text, counted_lines(missed, spot, version))?;
    put_note(hint, tree_mistake(spot, missed))?;
    match node_of(spot, missed) {
        _ if spot.has_empty_word() => {}
        Some(node) => put_form(alloc, hint, "node", node.form())?,
        None => put_form(alloc, hint, "line", form_at(spot, missed))?,
    }
    put_line_notes(hint, spot)
}

// The version of the puzzle that the text is of; none of the text of a list or a certificate.
fn puzzle_version(text: &[u8]) -> Option<u8> {
    if text.starts_with(b"match 1\n") {
        Some(1)
    } else if text.starts_with(b"match 2\n") {
        Some(2)
    } else if text.starts_with(b"match 3\n") {
        Some(3)
    } else {
        None
    }
}

// The node that the word is in, or would begin; none where it is in none.
fn node_of(spot: &Spot<'_>, missed: Option<Asked>) -> Option<NodeSpot> {
    if !spot.is_of_lemma() {
        return None;
    }
    node_at(
        spot.line,
        spot.word_number,
        matches!(missed?, Asked::OneOf(_)),
    )
}

// Where the word stands.
fn place_name(
    alloc: Global,
    spot: &Spot<'_>,
    node: Option<NodeSpot>,
) -> Result<String, AllocError> {
    let (name, line, word) = (spot.document.name(), spot.line_number, spot.word_number);
    match node {
        Some(NodeSpot { number, .. }) => {
            format!(in alloc; "{name} line {line}, word {word}, in node {number} of its tree,")
        }
        None => format!(in alloc; "{name} line {line}, word {word}"),
    }
}

// What has to stand there, and what does.
fn judgement(
    alloc: Global,
    spot: &Spot<'_>,
    asked: Asked,
    node: Option<NodeSpot>,
) -> Result<String, AllocError> {
    let at = place_name(alloc, spot, node)?;
    let wanted = wanted(alloc, asked)?;
    judged(alloc, spot, &at, &wanted)
}

// What has to stand at a place that is named, where what is asked for is in words, and what does. No text is this
// function's own while others are made.
fn judged(alloc: Global, spot: &Spot<'_>, at: &str, wanted: &str) -> Result<String, AllocError> {
    let (name, line) = (spot.document.name(), spot.line_number);
    let Some(word) = spot.word else {
        return format!(in alloc; "{at} is missing: {wanted} has to stand there");
    };
    if spot.line.is_empty() {
        return format!(in alloc; "{name} line {line} is empty: {wanted} has to stand there");
    }
    if word.is_empty() {
        return format!(in alloc; "{at} is {EMPTY_WORD}");
    }
    let shown = quoted(alloc, word)?;
    format!(in alloc; "{at} has to be {wanted}; it is {shown}")
}

const EMPTY_WORD: &str = "an empty word: one space stands between words, and none at the end";

// That a word is one too many, or that none of some words is there.
fn superfluous(alloc: Global, spot: &Spot<'_>, kind: TextKind) -> Result<String, AllocError> {
    let (name, line, number) = (spot.document.name(), spot.line_number, spot.word_number);
    let Some(word) = spot.word else {
        return format!(in alloc; "{name} line {line}, word {number} is missing");
    };
    if word.is_empty() {
        return format!(in alloc; "{name} line {line}, word {number} is {EMPTY_WORD}");
    }
    let shown = quoted(alloc, word)?;
    if kind == TextKind::Limit {
        let most = spot.entries_before();
        return format!(in alloc;
            "{name} line {line}, word {number} is one too many, as at most {most} may stand there; it is {shown}"
        );
    }
    format!(in alloc; "{name} line {line} has a word too many, word {number}: {shown}")
}

// What is asked for, in words.
fn wanted(alloc: Global, asked: Asked) -> Result<String, AllocError> {
    match asked {
        Asked::Word(word) => quoted(alloc, word),
        Asked::OneOf(words) => String::from_str(alloc, words),
        Asked::Version { last } if last == 3 => {
            String::from_str(alloc, "1, 2, or 3 (the version)")
        }
        Asked::Version { .. } => String::from_str(alloc, "1 or 2 (the version)"),
        Asked::Number { least, most } => format!(in alloc; "a number from {least} to {most}"),
        Asked::Colour => String::from_str(alloc, "a colour (0-9 or a-z)"),
        Asked::Rule => String::from_str(alloc, "a colour (0-9 or a-z) or -"),
        Asked::Tile => String::from_str(
            alloc,
            "a tile: a colour 0-9 a-z for each of its 3 or 4 sides",
        ),
        Asked::Clue => String::from_str(
            alloc,
            "what the clue asks for: a colour 0-9 a-z or - for each of the cell's 3 or 4 sides",
        ),
        Asked::Row { width } => {
            format!(in alloc; "a row: # for a cell or . for none at each place; places: {width}")
        }
        Asked::Placement { last_tile } => format!(in alloc;
            "TILE.TURNS, with a tile from 0 to {last_tile} and turns from 0 to 3"
        ),
        Asked::Pair { last_cell } => format!(in alloc;
            "CELL:TILE.TURNS, with a cell and a tile from 0 to {last_cell} and turns from 0 to 3"
        ),
    }
}

// What is wrong with the word as a number, or with one in it.
fn put_kind(
    hint: &mut String,
    spot: &Spot<'_>,
    missed: Option<Asked>,
    kind: TextKind,
) -> Result<(), AllocError> {
    let (Some(word), Some(asked)) = (spot.word, missed) else {
        return Ok(());
    };
    if !word.is_empty() {
        let is_number = matches!(asked, Asked::Number { .. });
        hint.push_str(kind_note(word, is_number, kind))?;
    }
    Ok(())
}

fn kind_note(word: &[u8], is_number: bool, kind: TextKind) -> &'static str {
    match (kind, is_number) {
        (TextKind::Number, true) if begins_with_zero(word) => "; a number has no 0 before it",
        (TextKind::Number, true) => ", which is no number",
        (TextKind::Number, false) => ", with a part that is no number, or has a 0 before it",
        (TextKind::Limit, true) if word == b"0".as_slice() => ", which is too small",
        (TextKind::Limit, true) => ", which is too great",
        (TextKind::Limit, false) => ", with a number that is too great",
        _ => "",
    }
}

// Whether the word is a number but for zeros before it.
fn begins_with_zero(word: &[u8]) -> bool {
    word.starts_with(b"0") && word.iter().all(|byte| byte.is_ascii_digit())
}

// What its characters say of the word.
fn put_characters(
    hint: &mut String,
    spot: &Spot<'_>,
    missed: Option<Asked>,
) -> Result<(), AllocError> {
    let Some(word) = spot.word else {
        return Ok(());
    };
    let has_colours = matches!(
        missed,
        Some(Asked::Colour | Asked::Rule | Asked::Tile | Asked::Clue)
    );
    if has_colours && word.iter().any(|byte| byte.is_ascii_uppercase()) {
        hint.push_str("; capital letters are no colours")?;
    }
    if word.contains(&b'\t') {
        hint.push_str("; one space stands between words, and no tab")?;
    }
    Ok(())
}

// How many lines of a kind there are, behind the note that they are more or fewer than the text says.
fn put_line_count(
    alloc: Global,
    hint: &mut String,
    text: &[u8],
    opening: Option<&'static str>,
) -> Result<(), AllocError> {
    let Some(opening) = opening else {
        return Ok(());
    };
    let mut count = 0usize;
    for line in text.split(|byte| *byte == b'\n') {
        if first_word(line) == opening.as_bytes() {
            count = count.saturating_add(1);
        }
    }
    let note = format!(in alloc; ": {count}")?;
    hint.push_str(&note)
}

// A further remark, if there is one.
fn put_note(hint: &mut String, note: Option<&'static str>) -> Result<(), AllocError> {
    if let Some(note) = note {
        hint.push_str("; ")?;
        hint.push_str(note)?;
    }
    Ok(())
}

// That a branch of a tree has not as many children as it says.
fn tree_mistake(spot: &Spot<'_>, missed: Option<Asked>) -> Option<&'static str> {
    if !spot.is_of_lemma() || node_at(spot.line, spot.word_number, true).is_none() {
        return None;
    }
    match (missed, spot.word) {
        (None, Some(word)) if !word.is_empty() => {
            Some("the tree ends before it, so a branch has more children than it says")
        }
        (Some(Asked::OneOf(_)), None) => Some("a branch says more children than stand there"),
        _ => None,
    }
}

// What the line looks like, where what is asked for doesn't say so.
fn form_at(spot: &Spot<'_>, missed: Option<Asked>) -> Option<&'static str> {
    match missed {
        Some(Asked::Word(word)) if spot.word_number == 1 => form_of(spot.document, word),
        None | Some(Asked::Word(_) | Asked::Number { .. }) => {
            form_of(spot.document, spot.opening())
        }
        Some(Asked::Colour) if spot.document == Document::Certificate => {
            form_of(spot.document, spot.opening())
        }
        _ => None,
    }
}

fn put_form(
    alloc: Global,
    hint: &mut String,
    thing: &'static str,
    form: Option<&'static str>,
) -> Result<(), AllocError> {
    if let Some(form) = form {
        let note = format!(in alloc; "; such a {thing} is: {form}")?;
        hint.push_str(&note)?;
    }
    Ok(())
}

// What editors put into a line that does not belong there.
fn put_line_notes(hint: &mut String, spot: &Spot<'_>) -> Result<(), AllocError> {
    if spot.begins_with_mark() {
        hint.push_str("; the text begins with a byte-order mark (EF BB BF), which has to go")?;
    }
    if spot.ends_with_return() {
        hint.push_str("; lines end with LF alone; this one ends with CR LF")?;
    }
    Ok(())
}
