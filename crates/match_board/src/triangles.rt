//! The cells of a triangle, which are triangles.

ghost use Rattle.std.specs.Prelude.{◌≡◌, ◌<◌, ◌≤◌, ℕ, IfSome};
ghost use Rattle.match_board.specs.Board.{IsPlace, LiesAgainst};
ghost use Rattle.match_board.specs.declared.figures.Figure.TheVariants.{Triangle};

use match_limits::MOST_LENGTH;

/// The place next to this place on the side, and which side of that place lies there.
pub fn beside(size: u16, row: u16, place: u16, side: u8) -> Option<(u16, u16, u8)>
    requires size { size ≤ MOST_LENGTH }
    requires here { IsPlace (Triangle size) row place }
    requires side { side < 3 }
    ensures side { IfSome result (λ n. n.2 < 3) }
    ensures found { IfSome result
        (λ n. IsPlace (Triangle size) n.0 n.1 × LiesAgainst (Triangle size) row place side n.0 n.1 n.2) }
    ensures only { (r p k : ℕ) → IsPlace (Triangle size) r p
        → LiesAgainst (Triangle size) row place side r p k → result ≡ Some (r, p, k) }
{
    let points_up = place % 2 == 0;
    if side == 1 {
        if !points_up {
            Some((row - 1, place - 1, side))
        } else if row + 1 < size {
            Some((row + 1, place + 1, side))
        } else {
            None
        }
    } else if points_up == (side == 0) {
        if place + 1 < 2 * row + 1 {
            Some((row, place + 1, side))
        } else {
            None
        }
    } else if place > 0 {
        Some((row, place - 1, side))
    } else {
        None
    }
}
