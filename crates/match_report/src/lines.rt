//! Lines of words, as they are printed.

ghost use Rattle.std.specs.Prelude.{◌≡◌, ◌++◌, ◌∷◌, [], ℕ, List, IfOk, IfSome, OnOk, decimal};
ghost use Rattle.text_words.specs.Spelling.{spaced};
ghost use Rattle.match_report.specs.Line.{dotted, label, path_text};

use std::alloc::{AllocError, Global};
use std::fmt::Display;
use std::io::Write;
use std::marker::Model;
use text_words::put_number;

/// A line that is being written; contracts see its bytes. Where memory is refused, a part of a word may have been
/// written.
#[derive(Drop)]
pub struct Line {
    text: Vec<u8>,
}

impl Model for Line {
    ghost Value = { List ℕ };

    ghost view = { λ line. line.text.items };
}

#[tactic(auto, unfolding(text_words::specs::Spelling::spaced))]
impl Line {
    /// Begins a line with this word.
    pub fn new(alloc: Global, word: &[u8]) -> Result<Line, AllocError>
        ensures { IfOk result (λ line. line ≡ word.now) }
    {
        let text = Vec::from_slice(alloc, word)?;
        Ok(Line { text })
    }

    /// Adds a space and this word.
    pub fn word(&mut self, word: &[u8]) -> Result<(), AllocError>
        ensures { OnOk result (self.new ≡ self.old ++ spaced (word.now ∷ [])) }
    {
        self.text.push(b' ')?;
        self.text.extend_from_slice(word)
    }

    /// Adds a space and what the value is displayed as: one word, or several.
    pub fn displayed<D: Display>(&mut self, value: &D) -> Result<(), AllocError>
        ensures { OnOk result (IfSome (D.output value.now) (λ words. self.new ≡ self.old ++ spaced (words ∷ []))) }
    {
        write!(self.text, " {value}").map_err(|_| AllocError)
    }

    /// Adds a space and this number.
    pub fn number(&mut self, number: u32) -> Result<(), AllocError>
        ensures { OnOk result (self.new ≡ self.old ++ spaced (decimal number ∷ [])) }
    {
        self.count(u64::from(number))
    }

    /// Adds a space and this number of 64 bits.
    pub fn count(&mut self, count: u64) -> Result<(), AllocError>
        ensures { OnOk result (self.new ≡ self.old ++ spaced (decimal count ∷ [])) }
    {
        self.text.push(b' ')?;
        put_number(&mut self.text, count)
    }

    /// Adds a space, this number and a colon.
    pub fn label(&mut self, number: u32) -> Result<(), AllocError>
        ensures { OnOk result (self.new ≡ self.old ++ spaced (label (decimal number) ∷ [])) }
    {
        self.number(number)?;
        self.text.push(b':')?;
        Ok(())
    }

    /// Adds a space and the steps of a path as one word; `-` for no steps.
    pub fn path(&mut self, steps: &[u16]) -> Result<(), AllocError>
        ensures { OnOk result (self.new ≡ self.old ++ spaced (path_text steps.now ∷ [])) }
    {
        let Some((first, others)) = steps.split_first() else {
            return self.word(b"-");
        };
        self.number(u32::from(*first))?;
        self.dotted(others)
    }

    // Adds the numbers, each after a dot.
    fn dotted(&mut self, numbers: &[u16]) -> Result<(), AllocError>
        ensures { OnOk result (self.new ≡ self.old ++ dotted numbers.now) }
    {
        for number in numbers {
            self.dotted_number(*number)?;
        }
        Ok(())
    }

    fn dotted_number(&mut self, number: u16) -> Result<(), AllocError>
        ensures { OnOk result (self.new ≡ self.old ++ 46 ∷ decimal number) }
    {
        self.text.push(b'.')?;
        put_number(&mut self.text, u64::from(number))
    }

    /// Ends the line with LF, and returns its bytes.
    pub fn end(mut self) -> Result<Vec<u8>, AllocError>
        ensures { IfOk result (λ text. text.items ≡ self ++ 10 ∷ []) }
    {
        self.text.push(b'\n')?;
        Ok(self.text)
    }
}
