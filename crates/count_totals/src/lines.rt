//! The lines that a count of a part prints.

ghost use Rattle.std.specs.Prelude.{◌≡◌, ◌++◌, ◌∷◌, [], OnOk};
ghost use Rattle.count_totals.specs.Lines.{line_text};
ghost use Rattle.count_totals.specs.declared.lines.Line.TheVariants as lines;

use std::alloc::{AllocError, Global};

/// The split of a search: how many branches it has, and their hash.
#[derive(Clone, Copy, PartialEq, Eq, Debug)]
pub struct SplitLine {
    pub branches: u64,
    pub hash: u64,
}

/// A part of a split, by its number from 1 and how many there are, with how many arrangements it has.
#[derive(Clone, Copy, PartialEq, Eq, Debug)]
pub struct CountedPart {
    pub number: u32,
    pub parts: u32,
    pub count: u64,
}

/// A line that a count of a part prints.
#[derive(Clone, Copy, PartialEq, Eq, Debug)]
pub enum Line {
    /// The SHA-256 of the puzzle's text.
    Puzzle([u8; 32]),
    Split(SplitLine),
    Part(CountedPart),
}

/// Writes a line and its end.
///
/// An error where memory is refused.
pub fn put_line(alloc: Global, text: &mut Vec<u8>, line: &Line) -> Result<(), AllocError>
    ensures { OnOk result (text.new.items ≡ text.old.items ++ (line_text line.now ++ 10 ∷ [])) }
{
    match line {
        Line::Puzzle(digest) => put_puzzle(alloc, text, digest),
        Line::Split(split) => put_split(alloc, text, *split),
        Line::Part(part) => put_part(alloc, text, *part),
    }
}

fn put_puzzle(alloc: Global, text: &mut Vec<u8>, digest: &[u8; 32]) -> Result<(), AllocError>
    ensures { OnOk result (text.new.items ≡ text.old.items ++ (line_text (lines.Puzzle digest.now) ++ 10 ∷ [])) }
{
    let digits = hex::encode(alloc, digest.as_slice())?;
    text.extend_from_slice(b"puzzle ")?;
    text.extend_from_slice(digits.as_bytes())?;
    text.push(b'\n')?;
    Ok(())
}

fn put_split(alloc: Global, text: &mut Vec<u8>, split: SplitLine) -> Result<(), AllocError>
    ensures { OnOk result (text.new.items ≡ text.old.items ++ (line_text (lines.Split split) ++ 10 ∷ [])) }
{
    let SplitLine { branches, hash } = split;
    let line = format!(in alloc; "split {branches} {hash}\n")?;
    text.extend_from_slice(line.as_bytes())?;
    Ok(())
}

fn put_part(alloc: Global, text: &mut Vec<u8>, part: CountedPart) -> Result<(), AllocError>
    ensures { OnOk result (text.new.items ≡ text.old.items ++ (line_text (lines.Part part) ++ 10 ∷ [])) }
{
    let CountedPart {
        number,
        parts,
        count,
    } = part;
    let line = format!(in alloc; "part {number}/{parts} arrangements {count}\n")?;
    text.extend_from_slice(line.as_bytes())?;
    Ok(())
}
