//! Fixed words.

ghost use Rattle.std.specs.Prelude.{IfOk};
ghost use Rattle.match_limits.specs.Ranges.{IsVersion};
ghost use Rattle.text_words.specs.PlainWords.{Judges, fixed_in, version_in};

use crate::faults::TextKind;

/// Reads the wanted word, and no other.
pub(crate) fn fixed_word(word: &[u8], wanted: &[u8]) -> Result<(), TextKind>
    ensures { Judges (λ _. tt) result (fixed_in wanted.now word.now) }
{
    if word == wanted {
        Ok(())
    } else {
        Err(TextKind::Word)
    }
}

/// The version of a text.
pub fn version_word(word: &[u8]) -> Result<u8, TextKind>
    ensures judges { Judges (λ version. version) result (version_in word.now) }
    ensures version { IfOk result IsVersion }
{
    if word == b"1".as_slice() {
        return Ok(1);
    }
    if word == b"2".as_slice() {
        return Ok(2);
    }
    Err(TextKind::Version)
}
