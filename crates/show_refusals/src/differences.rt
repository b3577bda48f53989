//! What is placed beside what is listed.

use match_puzzle::{Arrangement, Partial, Placement};

// A cell where another tile is placed, or another way round.
#[derive(Clone, Copy)]
pub(crate) struct Difference {
    pub(crate) cell: u16,
    pub(crate) placed: Placement,
    pub(crate) other: Placement,
}

// The first empty cell.
pub(crate) fn first_empty(partial: &Partial<'_>) -> Option<u16> {
    for cell in 0..partial.puzzle().board().cells() {
        if partial.at(cell).is_none() {
            return Some(cell);
        }
    }
    None
}

// The first cell where something else is placed than there.
pub(crate) fn first_difference(
    partial: &Partial<'_>,
    placements: &[Placement],
) -> Option<Difference> {
    for cell in 0..partial.puzzle().board().cells() {
        let placed = partial.at(cell)?;
        let other = *placements.get(usize::from(cell))?;
        if placed != other {
            return Some(Difference {
                cell,
                placed,
                other,
            });
        }
    }
    None
}

// The number of the listed one that is placed.
pub(crate) fn place_in(listed: &[Arrangement], partial: &Partial<'_>) -> Option<usize> {
    for (number, arrangement) in listed.iter().enumerate() {
        if partial.equals(arrangement.placements()) {
            return Some(number);
        }
    }
    None
}
