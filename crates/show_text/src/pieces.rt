//! Pieces of lines.

ghost use Rattle.std.specs.Prelude.{◌≡◌, ◌++◌, OnOk, replicate};
ghost use Rattle.show_text.specs.Pieces.{padded, star, trimmed_line};

use itoa::Buffer;
use std::alloc::AllocError;

/// Writes the byte `count` times.
pub fn put_copies(line: &mut Vec<u8>, byte: u8, count: usize) -> Result<(), AllocError>
    ensures { OnOk result (line.new.items ≡ line.old.items ++ replicate count byte) }
{
    for _copy in 0..count {
        line.push(byte)?;
    }
    Ok(())
}

/// Writes the number at the right end of `width` columns, or spaces where there is no number.
pub fn put_padded(line: &mut Vec<u8>, number: Option<u16>, width: u8) -> Result<(), AllocError>
    ensures { OnOk result (line.new.items ≡ line.old.items ++ padded width number) }
{
    let width = usize::from(width);
    match number {
        None => put_copies(line, b' ', width),
        Some(number) => {
            let mut buffer = Buffer::new();
            let digits = buffer.format(number).as_bytes();
            put_copies(line, b' ', width.saturating_sub(digits.len()))?;
            line.extend_from_slice(digits)?;
            Ok(())
        }
    }
}

/// Writes the line without the spaces at its end.
pub fn put_trimmed(text: &mut Vec<u8>, line: &[u8]) -> Result<(), AllocError>
    ensures { OnOk result (text.new.items ≡ text.old.items ++ trimmed_line line.now) }
{
    text.extend_from_slice(line.trim_ascii_end())?;
    text.push(b'\n')?;
    Ok(())
}

/// The star of a marked cell, or a space.
pub fn star(marked: bool) -> u8
    ensures { result ≡ star marked }
{
    if marked { b'*' } else { b' ' }
}
