//! What follows for every drawing.

ghost use Rattle.show_text.specs.Laws.{DrawingLaw, TellingLaw};

/// Does nothing. Its promises are two laws:
///
/// - In a drawing, what is shown of a cell (its number, its mark, its tile, a sign at each side) is at a place that
///   depends only on the cell's row and its place there.
/// - Where two drawings of a board, for as many tiles, are the same text, they show the same of each cell. So partial
///   arrangements that differ anywhere in what is shown, or in the mark, have different drawings.
pub fn drawing_laws()
    ensures drawing { DrawingLaw }
    ensures telling { TellingLaw }
{}
