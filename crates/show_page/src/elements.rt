//! Texts in elements of a page.

ghost use Rattle.show_page.specs.Elements.{EndsAtTheNextTag};

/// The law of texts in elements; the call does nothing. A text of text characters, as those have that spell a puzzle, a
/// list or a certificate, is all that its element has: it begins and ends no element.
pub fn element_law()
    ensures { EndsAtTheNextTag }
{}
