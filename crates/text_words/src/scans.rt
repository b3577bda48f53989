//! Reads lines and words, one after the other.

ghost use Rattle.std.specs.Prelude.{◌≡◌, ◌≢◌, MatchBool, MatchResult, ◌+◌, ◌<◌, ◌≤◌, ◌^◌, [], Some, length, OnErr};
ghost use Rattle.std.specs.Prelude.{IfOk};
ghost use Rattle.std.specs.Option.{option_copied};
ghost use Rattle.match_board.specs.Tile.{word as tile_colours};
ghost use Rattle.text_words.specs.Bytes.{words_left};
ghost use Rattle.match_limits.specs.Ranges.{IsVersion, AreRanges};
ghost use Rattle.text_words.specs.PlainWords.{fixed_in, version_in, number_in};
ghost use Rattle.text_words.specs.Words.{colour_in, rule_in, tile_in, placement_in};
ghost use Rattle.text_words.specs.Words.{pair_in, clue_in};
ghost use Rattle.match_board.specs.Clues.{clue_of};
ghost use Rattle.text_words.specs.Place.{Place, start, first_word, other_words, without_word, judged, Gives, next_line};
ghost use Rattle.text_words.specs.Place.{end_of_line, end_of_text, skip_line, some_word, word_by, opening, counted, closing};

use crate::asked::{Asked, FaultPlace};
use crate::cuts::{after_word, cut_line, front};
use crate::faults::{TextFault, TextKind};
use crate::fixed_words::{fixed_word, version_word};
use crate::numbers::{number_word, short_number};
use crate::words::{
    clue_word, colour_word, pair_word, placement_word, rule_word, short_placement, tile_word,
};
use match_board::{Clue, Tile};
use match_limits::Ranges;
use match_puzzle::{Pair, Placement};
use std::marker::Model;

/// Reads a text line by line, and a line word by word. Asking something of a word costs its length.
///
/// After a fault at a single word the scan is where it was. After a fault in a line that is read as a whole it is at
/// that fault.
#[derive(Drop)]
pub struct Scan<'a> {
    line: u32,
    // the rest of the line, where it has a further word
    rest: Option<&'a [u8]>,
    // what follows the line
    ahead: &'a [u8],
    // the word that was asked for and wasn't there; no value that is read depends on it
    missed: Option<Asked>,
}

impl<'a> Model for Scan<'a> {
    ghost Value = { Place };

    ghost view = { λ s. record {
      line = s.line;
      words = words_left (option_copied s.rest);
      ahead = s.ahead.now;
    } };

    ghost invariant = { λ s. s.line + length s.ahead.now + 1 < 2 ^ 32 };
}

impl<'a> Scan<'a> {
    /// Starts before the first line of the text. The text has to be shorter than 2^32 - 1 bytes.
    pub fn new(text: &'a [u8]) -> Scan<'a>
        requires { length text.now + 1 < 2 ^ 32 }
        ensures { result ≡ start text.now }
    {
        Scan {
            line: 0,
            rest: None,
            ahead: text,
            missed: None,
        }
    }

    /// Returns a second scan at the same place, which reads on its own. It takes no memory.
    pub fn copy(&self) -> Scan<'a>
        ensures { result ≡ self.now }
    {
        Scan {
            line: self.line,
            rest: self.rest,
            ahead: self.ahead,
            missed: self.missed,
        }
    }

    /// Notes that this word is asked for here and is missing, so that a message can say it.
    #[inline]
    pub fn miss(&mut self, asked: Asked)
        ensures { self.new ≡ self.old }
    {
        self.missed = Some(asked);
    }

    /// Returns the place of this fault, at which reading ended.
    pub fn fault_place(&self, fault: TextFault) -> FaultPlace<'a>
        ensures { result.fault ≡ fault }
    {
        FaultPlace {
            fault,
            missed: self.missed,
            rest: self.rest,
            ahead: self.ahead,
        }
    }

    /// Returns a fault of this kind on the current line.
    #[inline]
    pub fn fault(&self, kind: TextKind) -> TextFault
        ensures { result ≡ record { line = self.now.line; kind = kind } }
    {
        TextFault {
            line: self.line,
            kind,
        }
    }

    /// Returns how many bytes follow the current line.
    pub fn bytes_ahead(&self) -> usize
        ensures { result ≡ length self.now.ahead }
    {
        self.ahead.len()
    }

    /// Goes on to the next line. `Ends` comes where no LF follows.
    #[tactic(auto, unfolding(crate::specs::Place::next_line))]
    pub fn next_line(&mut self) -> Result<(), TextFault>
        ensures gives { Gives (λ _. tt) result self.new (next_line self.old) }
        ensures err { OnErr result (self.new ≡ self.old) }
    {
        let Some((line, ahead)) = cut_line(self.ahead) else {
            return Err(TextFault {
                line: self.line + 1,
                kind: TextKind::Ends,
            });
        };
        self.line += 1;
        self.rest = Some(line);
        self.ahead = ahead;
        Ok(())
    }

    /// Passes the next line, whatever it says. `Ends` comes where no LF follows.
    #[tactic(auto, unfolding(crate::specs::Place::skip_line))]
    pub fn skip_line(&mut self) -> Result<(), TextFault>
        ensures gives { Gives (λ _. tt) result self.new (skip_line self.old) }
        ensures err { OnErr result (self.new ≡ self.old) }
    {
        self.next_line()?;
        self.rest = None;
        Ok(())
    }

    /// Returns the next word of the line, if there is one, and stays before it.
    #[inline]
    pub fn peek(&self) -> Option<&'a [u8]>
        ensures { option_copied result ≡ first_word self.now.words }
    {
        Some(front(self.rest?).0)
    }

    /// Whether the line has a further word.
    #[inline]
    pub fn has_word(&self) -> bool
        ensures { MatchBool result (self.now.words ≢ []) (self.now.words ≡ []) }
    {
        self.rest.is_some()
    }

    /// Passes a word. There has to be one.
    #[inline]
    pub fn advance(&mut self)
        requires { self.old.words ≢ [] }
        ensures { self.new ≡ without_word self.old }
    {
        if let Some(rest) = self.rest {
            self.rest = front(rest).1;
        }
    }

    /// Checks that the line has no further word. `Word` comes where it has one.
    #[inline]
    #[tactic(auto, unfolding(crate::specs::Place::end_of_line))]
    pub fn end_of_line(&self) -> Result<(), TextFault>
        ensures { Gives (λ _. tt) result self.now (end_of_line self.now) }
    {
        match self.rest {
            None => Ok(()),
            Some(_) => Err(self.fault(TextKind::Word)),
        }
    }

    /// Checks that nothing follows the line. `After` comes where something does.
    #[tactic(auto, unfolding(crate::specs::Place::end_of_text))]
    pub fn end_of_text(&self) -> Result<(), TextFault>
        ensures { Gives (λ _. tt) result self.now (end_of_text self.now) }
    {
        if self.ahead.is_empty() {
            Ok(())
        } else {
            Err(TextFault {
                line: self.line + 1,
                kind: TextKind::After,
            })
        }
    }

    /// Returns the next word, which has to be what `asked` says, and stays before it. `Word` comes where there is none.
    #[inline]
    pub fn next_word(&mut self, asked: Asked) -> Result<&'a [u8], TextFault>
        ensures word { MatchResult result
            (λ word. first_word self.old.words ≡ Some word.now)
            (λ e. (self.old.words ≡ []) × (e ≡ record { line = self.old.line; kind = TextKind.Word })) }
        ensures same { self.new ≡ self.old }
    {
        let Some(word) = self.peek() else {
            self.miss(asked);
            return Err(self.fault(TextKind::Word));
        };
        Ok(word)
    }

    /// Checks that the line has a further word. `Word` comes where it has none.
    #[inline]
    #[tactic(auto, unfolding(crate::specs::Place::some_word))]
    pub fn some_word(&self) -> Result<(), TextFault>
        ensures { Gives (λ _. tt) result self.now (some_word self.now) }
    {
        match self.rest {
            None => Err(self.fault(TextKind::Word)),
            Some(_) => Ok(()),
        }
    }

    /// Checks that another entry may follow the `read` entries. `Limit` comes where they are `most` or more.
    #[inline]
    pub fn further_entry(&self, read: usize, most: u16) -> Result<(), TextFault>
        ensures { MatchResult result
            (λ _. read < most)
            (λ e. (most ≤ read) × (e ≡ record { line = self.now.line; kind = TextKind.Limit })) }
    {
        if read < usize::from(most) {
            Ok(())
        } else {
            Err(self.fault(TextKind::Limit))
        }
    }

    /// Passes the next word and returns its value where the judgement is good. Otherwise it returns the judgement's
    /// fault on this line, and notes what was asked. There has to be a word.
    #[inline]
    pub fn accept<X>(
        &mut self,
        asked: Asked,
        judgement: Result<X, TextKind>,
    ) -> Result<X, TextFault>
        requires { self.old.words ≢ [] }
        ensures gives { Gives (λ x. x) result self.new (judged self.old (other_words self.old.words) judgement) }
        ensures err { OnErr result (self.new ≡ self.old) }
    {
        match judgement {
            Ok(x) => {
                self.advance();
                Ok(x)
            }
            Err(kind) => {
                self.miss(asked);
                Err(self.fault(kind))
            }
        }
    }

    // Reads this word, whatever follows it.
    #[inline(never)]
    #[tactic(auto, unfolding(crate::specs::Place::word_by))]
    fn any_word(&mut self, wanted: &'static [u8]) -> Result<(), TextFault>
        ensures gives { Gives (λ _. tt) result self.new (word_by (fixed_in wanted.now) self.old) }
        ensures err { OnErr result (self.new ≡ self.old) }
    {
        let asked = Asked::Word(wanted);
        let word = self.next_word(asked)?;
        self.accept(asked, fixed_word(word, wanted))
    }

    /// Reads this word. `Word` comes where there is another, or none.
    #[inline]
    #[tactic(auto, unfolding(crate::specs::Place::word_by))]
    pub fn word(&mut self, wanted: &'static [u8]) -> Result<(), TextFault>
        ensures gives { Gives (λ _. tt) result self.new (word_by (fixed_in wanted.now) self.old) }
        ensures err { OnErr result (self.new ≡ self.old) }
    {
        // Nearly every wanted word is there, with a further word after it.
        if let Some(rest) = self.rest
            && let Some(others) = after_word(rest, wanted)
        {
            self.rest = Some(others);
            return Ok(());
        }
        self.any_word(wanted)
    }

    /// Reads the version, 1 or 2.
    #[tactic(auto, unfolding(crate::specs::Place::word_by))]
    pub fn version(&mut self) -> Result<u8, TextFault>
        ensures gives { Gives (λ version. version) result self.new (word_by version_in self.old) }
        ensures version { IfOk result IsVersion }
        ensures err { OnErr result (self.new ≡ self.old) }
    {
        let asked = Asked::Version { last: 2 };
        let word = self.next_word(asked)?;
        self.accept(asked, version_word(word))
    }

    // Reads a number of any length.
    #[inline(never)]
    #[tactic(auto, unfolding(crate::specs::Place::word_by))]
    fn any_number(&mut self, least: u32, most: u32) -> Result<u32, TextFault>
        requires { most + 1 < 2 ^ 32 }
        ensures gives { Gives (λ n. n) result self.new (word_by (number_in least most) self.old) }
        ensures within { IfOk result (λ n. (least ≤ n) × (n ≤ most)) }
        ensures err { OnErr result (self.new ≡ self.old) }
    {
        let asked = Asked::Number { least, most };
        let word = self.next_word(asked)?;
        self.accept(asked, number_word(word, least, most))
    }

    /// Reads a number from `least` to `most`.
    #[inline]
    #[tactic(auto, unfolding(crate::specs::Place::word_by))]
    pub fn number(&mut self, least: u32, most: u32) -> Result<u32, TextFault>
        requires { most + 1 < 2 ^ 32 }
        ensures gives { Gives (λ n. n) result self.new (word_by (number_in least most) self.old) }
        ensures within { IfOk result (λ n. (least ≤ n) × (n ≤ most)) }
        ensures err { OnErr result (self.new ≡ self.old) }
    {
        // Nearly every number is short and in its range, with a further word after it.
        if let Some(rest) = self.rest
            && let Some((number, others)) = short_number(rest)
            && number >= least
            && number <= most
        {
            self.rest = Some(others);
            return Ok(number);
        }
        // Taken apart, so that a short number need not pass through memory.
        Ok(self.any_number(least, most)?)
    }

    /// Reads a colour, 0 to 35.
    #[tactic(auto, unfolding(crate::specs::Place::word_by))]
    pub fn colour(&mut self) -> Result<u8, TextFault>
        ensures gives { Gives (λ n. n) result self.new (word_by colour_in self.old) }
        ensures err { OnErr result (self.new ≡ self.old) }
    {
        let asked = Asked::Colour;
        let word = self.next_word(asked)?;
        self.accept(asked, colour_word(word))
    }

    /// Reads what is asked of a border pair (a cell and a side at the border): a colour from 0 to 35, or nothing.
    #[tactic(auto, unfolding(crate::specs::Place::word_by))]
    pub fn rule(&mut self) -> Result<Option<u8>, TextFault>
        ensures gives { Gives (λ rule. rule) result self.new (word_by rule_in self.old) }
        ensures err { OnErr result (self.new ≡ self.old) }
    {
        let asked = Asked::Rule;
        let word = self.next_word(asked)?;
        self.accept(asked, rule_word(word))
    }

    /// Reads a tile of three or four sides.
    #[tactic(auto, unfolding(crate::specs::Place::word_by))]
    pub fn tile(&mut self) -> Result<Tile, TextFault>
        ensures gives { Gives tile_colours result self.new (word_by tile_in self.old) }
        ensures err { OnErr result (self.new ≡ self.old) }
    {
        let asked = Asked::Tile;
        let word = self.next_word(asked)?;
        self.accept(asked, tile_word(word))
    }

    /// Reads a clue of this cell: a colour from 0 to 35, or nothing, for each of its three or four sides.
    #[tactic(auto, unfolding(crate::specs::Place::word_by))]
    pub fn clue(&mut self, cell: u16) -> Result<Clue, TextFault>
        ensures gives { Gives clue_of result self.new (word_by (clue_in cell) self.old) }
        ensures err { OnErr result (self.new ≡ self.old) }
    {
        let asked = Asked::Clue;
        let word = self.next_word(asked)?;
        self.accept(asked, clue_word(word, cell))
    }

    // Reads a placement, whatever follows it.
    #[inline(never)]
    #[tactic(auto, unfolding(crate::specs::Place::word_by))]
    fn any_placement(&mut self, ranges: &Ranges) -> Result<Placement, TextFault>
        ensures gives { Gives (λ p. p) result self.new (word_by (placement_in ranges.now) self.old) }
        ensures err { OnErr result (self.new ≡ self.old) }
    {
        let asked = Asked::Placement {
            last_tile: ranges.last_cell,
        };
        let word = self.next_word(asked)?;
        self.accept(asked, placement_word(word, ranges))
    }

    /// Reads a placement: a tile within its range, and a turn below 4.
    #[inline]
    #[tactic(auto, unfolding(crate::specs::Place::word_by))]
    pub fn placement(&mut self, ranges: &Ranges) -> Result<Placement, TextFault>
        requires { AreRanges ranges.now }
        ensures gives { Gives (λ p. p) result self.new (word_by (placement_in ranges.now) self.old) }
        ensures err { OnErr result (self.new ≡ self.old) }
    {
        // Nearly every placement has a further one after it.
        if let Some(rest) = self.rest
            && let Some((placement, others)) = short_placement(rest)
        {
            self.rest = Some(others);
            return Ok(placement);
        }
        self.any_placement(ranges)
    }

    /// Reads a pair: a cell within its range, and a placement.
    #[tactic(auto, unfolding(crate::specs::Place::word_by))]
    pub fn pair(&mut self, ranges: &Ranges) -> Result<Pair, TextFault>
        ensures gives { Gives (λ p. p) result self.new (word_by (pair_in ranges.now) self.old) }
        ensures err { OnErr result (self.new ≡ self.old) }
    {
        let asked = Asked::Pair {
            last_cell: ranges.last_cell,
        };
        let word = self.next_word(asked)?;
        self.accept(asked, pair_word(word, ranges))
    }

    /// Reads the first line of a text, its name and its version, and returns the version, 1 or 2.
    #[tactic(auto, unfolding(crate::specs::Place::opening))]
    pub fn opening(&mut self, name: &'static [u8]) -> Result<u8, TextFault>
        ensures gives { Gives (λ version. version) result self.new (opening name.now self.old) }
        ensures version { IfOk result IsVersion }
    {
        self.next_line()?;
        self.word(name)?;
        let version = self.version()?;
        self.end_of_line()?;
        Ok(version)
    }

    /// Reads a line of a name and a number from `least` to `most`, and returns the number.
    #[tactic(auto, unfolding(crate::specs::Place::counted))]
    pub fn counted(&mut self, name: &'static [u8], least: u32, most: u32) -> Result<u32, TextFault>
        requires { most + 1 < 2 ^ 32 }
        ensures gives { Gives (λ n. n) result self.new (counted name.now least most self.old) }
        ensures within { IfOk result (λ n. (least ≤ n) × (n ≤ most)) }
    {
        self.next_line()?;
        self.word(name)?;
        let number = self.number(least, most)?;
        self.end_of_line()?;
        Ok(number)
    }

    /// Reads the line `end`, and checks that nothing follows it.
    #[tactic(auto, unfolding(crate::specs::Place::closing))]
    pub fn closing(&mut self) -> Result<(), TextFault>
        ensures { Gives (λ _. tt) result self.new (closing self.old) }
    {
        self.next_line()?;
        self.word(b"end")?;
        self.end_of_line()?;
        self.end_of_text()
    }
}
