//! Laws of the characters of texts: nothing is done here, and the contracts say what holds.

ghost use Rattle.text_words.specs.Characters.{ReadsTextCharactersAlone};
ghost use Rattle.match_text.specs.Lists.{list_of};
ghost use Rattle.match_text.specs.Puzzles.{puzzle_of};

/// A text that spells a list has text characters alone; it does nothing.
pub fn list_characters()
    ensures { ReadsTextCharactersAlone list_of }
{}

/// A text that spells a puzzle has text characters alone; it does nothing.
pub fn puzzle_characters()
    ensures { ReadsTextCharactersAlone puzzle_of }
{}
