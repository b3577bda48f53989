//! What lines look like, and mistakes that a word betrays.

use crate::documents::Document;
use crate::spots::Spot;
use text_words::Asked;

// What a line of the document looks like that begins with this word; none where that is told by the word alone.
pub(crate) fn form_of(document: Document, opening: &[u8]) -> Option<&'static str> {
    match document {
        Document::Puzzle => said_of(&FORMS_IN_PUZZLE, opening),
        Document::List => said_of(&FORMS_IN_LIST, opening),
        Document::Certificate => said_of(&FORMS_IN_CERTIFICATE, opening),
    }
}

// What is said where a word stands, by the word.
type Said = (&'static [u8], &'static str);

const FORMS_IN_PUZZLE: [Said; 10] = [
    (b"match", "match 1, match 2, or match 3"),
    (
        b"board",
        "board rect W H, board triangle S, board hexagon S, or in \"match 2\" and \"match 3\" board shape W H",
    ),
    (
        b"row",
        "row WORD, with # for a cell and . for none at each place of the row",
    ),
    (b"turns", "turns yes, or turns no"),
    (
        b"border",
        "border free, border one C, or border each and for each outer side a colour or -",
    ),
    (
        b"mates",
        "mates, and for each colour the one that it goes with, or nothing more",
    ),
    (b"clues", "clues K, with how many lines of clues follow"),
    (
        b"clue",
        "clue C WORD, with the number of a cell, and a colour 0-9 a-z or - for each of its sides",
    ),
    (b"tiles", "tiles N, with how many lines of tiles follow"),
    (b"tile", "tile WORD, with a colour 0-9 a-z for each side"),
];

const FORMS_IN_LIST: [Said; 2] = [
    (b"list", "list 1, or list 2"),
    (
        b"arrangements",
        "arrangements N, with how many lines of them follow",
    ),
];

const FORMS_IN_CERTIFICATE: [Said; 5] = [
    (b"certificate", "certificate 1, or certificate 2"),
    (
        b"symmetries",
        "symmetries N, with how many lines of them follow",
    ),
    (
        b"symmetry",
        "symmetry A S cells C .. colours X .. tiles T ..",
    ),
    (b"lemmas", "lemmas N, with how many lines of them follow"),
    (
        b"lemma",
        "lemma NUMBER prefix CELL:TILE.TURNS .. tree NODE ..",
    ),
];

// What these say of the word.
fn said_of(rows: &[Said], word: &[u8]) -> Option<&'static str> {
    for (own, said) in rows {
        if *own == word {
            return Some(*said);
        }
    }
    None
}

// What the word that stands there says of the mistake, where something else was asked for. A puzzle has a version.
pub(crate) fn mistake(
    missed: Option<Asked>,
    spot: &Spot<'_>,
    version: Option<u8>,
) -> Option<&'static str> {
    let word = spot.word?;
    match missed? {
        Asked::Word(wanted) => opening_mistake(wanted, word)
            .or(version_mistake(wanted, word, version))
            .or(count_mistake(spot.document, wanted, word)),
        Asked::OneOf(_) if version == Some(1) && word == b"shape".as_slice() => {
            Some("a board \"shape\" stands in \"match 2\" and \"match 3\" alone")
        }
        Asked::Placement { .. } if spot.word_number == 1 && word == b"end".as_slice() => {
            Some("fewer lines stand there than the line \"arrangements\" says")
        }
        Asked::Pair { .. } => Some("behind the last pair stands \"tree\""),
        _ => None,
    }
}

// What the way a word is written says of the mistake: a comment, the colours of a tile or a clue with spaces between
// them, or a width and a height in one word.
pub(crate) fn spelling_mistake(spot: &Spot<'_>, missed: Option<Asked>) -> Option<&'static str> {
    let word = spot.word?;
    let asks_for_row = matches!(missed, Some(Asked::Row { .. }));
    if !asks_for_row && (word.starts_with(b"#") || word.starts_with(b"//")) {
        return Some("there are no comments in these texts");
    }
    if matches!(missed, Some(Asked::Tile)) && word.len() < 3 && spot.has_more_words() {
        return Some("the colours of a tile are one word, with no space between them");
    }
    if matches!(missed, Some(Asked::Clue)) && word.len() < 3 && spot.has_more_words() {
        return Some("what a clue asks for is one word, with no space in it");
    }
    if spot.opening() == b"board".as_slice() && is_width_by_height(word) {
        return Some("width and height are two words, as in board rect 3 3");
    }
    None
}

// Whether the word is two numbers with an x between them.
fn is_width_by_height(word: &[u8]) -> bool {
    let mut numbers = 0usize;
    for number in word.split(|byte| *byte == b'x') {
        if number.is_empty() || !number.iter().all(|byte| byte.is_ascii_digit()) {
            return false;
        }
        numbers = numbers.saturating_add(1);
    }
    numbers == 2
}

// The first word of the lines of which there are more or fewer than a line before them says. A puzzle has a version.
pub(crate) fn counted_lines(
    missed: Option<Asked>,
    spot: &Spot<'_>,
    version: Option<u8>,
) -> Option<&'static str> {
    let (Some(Asked::Word(wanted)), Some(word)) = (missed, spot.word) else {
        return None;
    };
    if version_mistake(wanted, word, version).is_some() {
        return None;
    }
    said_of_two(&MISTAKES_OF_COUNTS, wanted, word)?;
    said_of(&COUNTED_LINES, wanted).or(said_of(&COUNTED_LINES, word))
}

const COUNTED_LINES: [Said; 5] = [
    (b"row", "row"),
    (b"clue", "clue"),
    (b"tile", "tile"),
    (b"symmetry", "symmetry"),
    (b"lemma", "lemma"),
];

const OPENINGS: [Said; 3] = [
    (
        b"match",
        "a puzzle begins so; the order is puzzle, list, certificate",
    ),
    (
        b"list",
        "a list begins so; the order is puzzle, list, certificate",
    ),
    (
        b"certificate",
        "a certificate begins so; the order is puzzle, list, certificate",
    ),
];

// One document in place of another.
fn opening_mistake(wanted: &[u8], word: &[u8]) -> Option<&'static str> {
    match said_of(&OPENINGS, wanted) {
        Some(_) => said_of(&OPENINGS, word),
        None => None,
    }
}

// What is said where the one word is asked for and the other stands, by both.
type SaidOfTwo = (&'static [u8], &'static [u8], &'static str);

// What these say of the two.
fn said_of_two(rows: &[SaidOfTwo], wanted: &[u8], word: &[u8]) -> Option<&'static str> {
    for (asked, own, said) in rows {
        if *asked == wanted && *own == word {
            return Some(*said);
        }
    }
    None
}

const LINES_AFTER_THE_FIRST: [SaidOfTwo; 2] = [
    (
        b"tiles",
        b"mates",
        "a line \"mates\" stands in \"match 2\" and \"match 3\" alone",
    ),
    (
        b"turns",
        b"row",
        "a line \"row\" stands in \"match 2\" and \"match 3\" alone",
    ),
];

const LINES_OF_THE_THIRD: [Said; 2] = [
    (b"clues", "a line \"clues\" stands in \"match 3\" alone"),
    (b"clue", "a line \"clue\" stands in \"match 3\" alone"),
];

const LINES_LEFT_OUT: [SaidOfTwo; 3] = [
    (
        b"mates",
        b"tiles",
        "the line \"mates\" alone is enough where equal colours meet",
    ),
    (
        b"mates",
        b"clues",
        "the line \"mates\" alone is enough where equal colours meet",
    ),
    (
        b"clues",
        b"tiles",
        "the line \"clues 0\" is enough where there are no clues",
    ),
];

// A line that only later versions of a puzzle have, or one that is missing in this version.
fn version_mistake(wanted: &[u8], word: &[u8], version: Option<u8>) -> Option<&'static str> {
    let of_third = said_of(&LINES_OF_THE_THIRD, word);
    let of_later = match version? {
        1 => said_of_two(&LINES_AFTER_THE_FIRST, wanted, word).or(of_third),
        2 => of_third,
        _ => None,
    };
    of_later.or(said_of_two(&LINES_LEFT_OUT, wanted, word))
}

const MISTAKES_OF_COUNTS: [SaidOfTwo; 10] = [
    (
        b"row",
        b"turns",
        "fewer lines \"row\" stand there than the line \"board\" says",
    ),
    (
        b"turns",
        b"row",
        "more lines \"row\" stand there than the line \"board\" says",
    ),
    (
        b"clue",
        b"tiles",
        "fewer lines \"clue\" stand there than the line \"clues\" says",
    ),
    (
        b"tiles",
        b"clue",
        "more lines \"clue\" stand there than the line \"clues\" says",
    ),
    (
        b"tile",
        b"end",
        "fewer lines \"tile\" stand there than the line \"tiles\" says",
    ),
    (
        b"end",
        b"tile",
        "more lines \"tile\" stand there than the line \"tiles\" says",
    ),
    (
        b"symmetry",
        b"lemmas",
        "fewer lines \"symmetry\" stand there than the line \"symmetries\" says",
    ),
    (
        b"lemmas",
        b"symmetry",
        "more lines \"symmetry\" stand there than the line \"symmetries\" says",
    ),
    (
        b"lemma",
        b"end",
        "fewer lines \"lemma\" stand there than the line \"lemmas\" says",
    ),
    (
        b"end",
        b"lemma",
        "more lines \"lemma\" stand there than the line \"lemmas\" says",
    ),
];

// Lines of a kind that are fewer or more than was said.
fn count_mistake(document: Document, wanted: &[u8], word: &[u8]) -> Option<&'static str> {
    let is_end_of_list = document == Document::List && wanted == b"end".as_slice();
    if is_end_of_list && word.contains(&b'.') {
        return Some("more lines stand there than the line \"arrangements\" says");
    }
    said_of_two(&MISTAKES_OF_COUNTS, wanted, word)
}
