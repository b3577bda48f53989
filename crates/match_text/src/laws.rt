//! Laws of texts: nothing is done here, and the contracts say what holds.

ghost use Rattle.text_words.specs.Laws.{ReadsWhatIsSpelled};
ghost use Rattle.match_text.specs.Lists.{list_said};
ghost use Rattle.match_text.specs.ListSpelling.{said_spelling, IsSaidWithin};
ghost use Rattle.match_text.specs.Puzzles.{puzzle_of};
ghost use Rattle.match_text.specs.PuzzleSpelling.{puzzle_spelling, IsTaskWithin};

/// The laws of lists and their texts; it does nothing.
///
/// What a text says includes its version, so a list has at most one spelling in each version.
pub fn list_laws()
    ensures { ReadsWhatIsSpelled list_said IsSaidWithin said_spelling }
{}

/// The laws of puzzles and their texts; it does nothing.
///
/// They also hold of texts that describe no puzzle, such as one with too few tiles.
pub fn puzzle_laws()
    ensures { ReadsWhatIsSpelled puzzle_of IsTaskWithin puzzle_spelling }
{}
