//! What follows for every board.

ghost use Rattle.std.specs.Prelude.{◌≡◌, ◌↔◌, ◌<◌, ◌*◌, ℕ, Bool, List};
ghost use Rattle.match_board.specs.Board.{IsBoard, IsMarked, AreAlike, IsBorderOrder, second_figure};
ghost use Rattle.match_board.specs.declared.figures.Figure.{Figure};
ghost use Rattle.match_board.specs.declared.figures.Figure.TheVariants.{Shape};

/// Does nothing. Its promise is a law: a rectangle and the shape that has all its cells have as many cells and sides,
/// the same sides meet, and the border is the same.
pub fn second_form_is_alike()
    ensures board { (s : Figure) → IsBoard s → IsBoard (second_figure s) }
    ensures alike { (s : Figure) → AreAlike s (second_figure s) }
    ensures border { (s : Figure) (pairs : List (ℕ × ℕ))
        → IsBorderOrder s pairs → IsBorderOrder (second_figure s) pairs }
{}

/// Does nothing. Its promise is a law: shapes with the same width, height and cells are equal.
pub fn shapes_are_known_by_their_cells()
    ensures { (width height : ℕ) (mask other : List Bool) → IsBoard (Shape width height mask)
        → IsBoard (Shape width height other)
        → ((n : ℕ) → n < height * width → IsMarked mask n ↔ IsMarked other n) → mask ≡ other }
{}
