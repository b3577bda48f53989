//! The rule that each step on a number source keeps.

use atomic_table::{Join, Play, Split, TableRule};
use std::collections::LinkedList;

// What a seat knows of its source. No value of it is made.
pub struct SeatView {
    pub limit: u64,
    pub seats: u64,
    pub parts: u64,
    pub marks: u64,
    pub drawn: LinkedList<u64>,
}

// Each number below the limit is drawn once, and in order.
pub struct EachOnce;

impl TableRule<(), SeatView, (u64, u64)> for EachOnce {
    ghost use Rattle.steal_crew.specs.NumberSource.{Holds, seat_view_with};
    ghost use Rattle.std.specs.Prelude.{[]};

    ghost holds = { Holds };

    ghost first = { λ key. seat_view_with key.0 key.1 key.1 0 [] };
}

// A number is drawn, or the limit is found.
pub struct Draws;

impl Play<(), SeatView> for Draws {
    ghost use Rattle.steal_crew.specs.NumberSource.{IsDraw};

    ghost then = { IsDraw };
}

// The next number is looked at.
pub struct Looks;

impl Play<(), SeatView> for Looks {
    ghost use Rattle.steal_crew.specs.NumberSource.{IsLook};

    ghost then = { IsLook };
}

// One part goes to another seat, or comes back with what was drawn from it.
pub struct Parts;

impl Split<SeatView> for Parts {
    ghost use Rattle.steal_crew.specs.NumberSource.{seat_view_with};
    ghost use Rattle.std.specs.Prelude.{[], ◌-◌};

    ghost left = { λ v. seat_view_with v.limit v.seats (v.parts - 1) v.marks v.drawn };

    ghost right = { λ v. seat_view_with v.limit v.seats 1 0 [] };
}

impl Join<SeatView> for Parts {
    ghost use Rattle.steal_crew.specs.NumberSource.{seat_view_with};
    ghost use Rattle.std.specs.Prelude.{[], ◌+◌, ◌++◌};

    ghost both = { λ v w.
        seat_view_with v.limit v.seats (v.parts + w.parts) (v.marks + w.marks) (v.drawn ++ w.drawn) };

    ghost spent = { seat_view_with 0 0 0 0 [] };
}
