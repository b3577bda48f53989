//! Laws that hold for every compiled puzzle. The functions do nothing: their contracts say what holds.

ghost use Rattle.xcc_form.specs.Options.{Compiled, IsCompiled};
ghost use Rattle.xcc_form.specs.Laws.{AreOneToOne, IsColouredCover, IsOnlyOne};

/// A law; the call does nothing. The solutions of a compiled puzzle, as sets of options, and the arrangements of the
/// puzzle correspond one to one.
pub fn solutions_are_arrangements()
    ensures { (x : Compiled) → IsCompiled x → AreOneToOne x }
{}

/// A law; the call does nothing. A compiled puzzle is an exact cover with colours below 36: each option is a set of
/// items that exist, and has none of them twice.
pub fn options_are_sets()
    ensures { (x : Compiled) → IsCompiled x → IsColouredCover x }
{}

/// A law; the call does nothing. A puzzle is compiled in exactly one way, so its options have exactly one number of
/// items.
pub fn compiled_in_one_way()
    ensures { (x : Compiled) → IsCompiled x → IsOnlyOne x }
{}
