//! The cells of a hexagon, which are triangles.

ghost use Rattle.std.specs.Prelude.{◌≡◌, ◌<◌, ◌≤◌, ◌+◌, ◌*◌, ℕ, IfSome};
ghost use Rattle.match_board.specs.Board.{row_length, IsPlace, PointsUp, PointsDown, LiesBelow, LiesAgainst};
ghost use Rattle.match_board.specs.declared.figures.Figure.TheVariants.{Hexagon};

use match_limits::MOST_LENGTH;

/// How many cells the row has.
pub fn row_length(size: u16, row: u16) -> u16
    requires size { size ≤ MOST_LENGTH }
    requires row { row < 2 * size }
    ensures { result ≡ row_length (Hexagon size) row }
{
    2 * size + 1 + 2 * row.min(2 * size - 1 - row)
}

/// The place next to this place on the side, and which side of that place lies there.
pub fn beside(size: u16, row: u16, place: u16, side: u8) -> Option<(u16, u16, u8)>
    requires size { size ≤ MOST_LENGTH }
    requires here { IsPlace (Hexagon size) row place }
    requires side { side < 3 }
    ensures side { IfSome result (λ n. n.2 < 3) }
    ensures found { IfSome result
        (λ n. IsPlace (Hexagon size) n.0 n.1 × LiesAgainst (Hexagon size) row place side n.0 n.1 n.2) }
    ensures only { (r p k : ℕ) → IsPlace (Hexagon size) r p
        → LiesAgainst (Hexagon size) row place side r p k → result ≡ Some (r, p, k) }
{
    let points_up = (place % 2 == 0) == (row < size);
    if side == 1 {
        let (row, place) = if points_up {
            below(size, row, place)?
        } else {
            above(size, row, place)?
        };
        Some((row, place, side))
    } else if points_up == (side == 0) {
        if place + 1 < row_length(size, row) {
            Some((row, place + 1, side))
        } else {
            None
        }
    } else if place > 0 {
        Some((row, place - 1, side))
    } else {
        None
    }
}

// The place below a triangle that points up.
fn below(size: u16, row: u16, place: u16) -> Option<(u16, u16)>
    requires size { size ≤ MOST_LENGTH }
    requires here { IsPlace (Hexagon size) row place }
    requires up { PointsUp (Hexagon size) row place }
    ensures found { IfSome result
        (λ n. IsPlace (Hexagon size) n.0 n.1
        × (n.0 ≡ row + 1)
        × LiesBelow (Hexagon size) row place n.1) }
    ensures only { (p : ℕ) → IsPlace (Hexagon size) (row + 1) p
        → LiesBelow (Hexagon size) row place p → result ≡ Some (row + 1, p) }
{
    if row + 1 < size {
        Some((row + 1, place + 1))
    } else if row + 1 == size {
        Some((row + 1, place))
    } else if row + 1 < 2 * size {
        Some((row + 1, place - 1))
    } else {
        None
    }
}

// The place above a triangle that points down.
fn above(size: u16, row: u16, place: u16) -> Option<(u16, u16)>
    requires size { size ≤ MOST_LENGTH }
    requires here { IsPlace (Hexagon size) row place }
    requires down { PointsDown (Hexagon size) row place }
    ensures found { IfSome result
        (λ n. IsPlace (Hexagon size) n.0 n.1
        × (row ≡ n.0 + 1)
        × PointsUp (Hexagon size) n.0 n.1
        × LiesBelow (Hexagon size) n.0 n.1 place) }
    ensures only { (r p : ℕ) → row ≡ r + 1
        → LiesBelow (Hexagon size) r p place → result ≡ Some (r, p) }
{
    if row > size {
        Some((row - 1, place + 1))
    } else if row == size {
        Some((row - 1, place))
    } else if row > 0 {
        Some((row - 1, place - 1))
    } else {
        None
    }
}
