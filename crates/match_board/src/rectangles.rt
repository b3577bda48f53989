//! The cells of a rectangle, which are squares.

ghost use Rattle.std.specs.Prelude.{◌≡◌, ◌<◌, ℕ, IfSome};
ghost use Rattle.match_board.specs.Board.{IsPlace, LiesAgainst};
ghost use Rattle.match_board.specs.declared.figures.Figure.TheVariants.{Rectangle};

/// The place next to this place on the side, and which side of that place lies there.
pub fn beside(width: u16, height: u16, row: u16, place: u16, side: u8) -> Option<(u16, u16, u8)>
    requires row { row < height }
    requires place { place < width }
    requires side { side < 4 }
    ensures side { IfSome result (λ n. n.2 < 4) }
    ensures found { IfSome result
        (λ n. IsPlace (Rectangle width height) n.0 n.1
        × LiesAgainst (Rectangle width height) row place side n.0 n.1 n.2) }
    ensures only { (r p k : ℕ) → IsPlace (Rectangle width height) r p
        → LiesAgainst (Rectangle width height) row place side r p k → result ≡ Some (r, p, k) }
{
    match side {
        0 => if row > 0 {
            Some((row - 1, place, 2))
        } else {
            None
        },
        1 => if place + 1 < width {
            Some((row, place + 1, 3))
        } else {
            None
        },
        2 => if row + 1 < height {
            Some((row + 1, place, 0))
        } else {
            None
        },
        _ => if place > 0 {
            Some((row, place - 1, 1))
        } else {
            None
        },
    }
}
