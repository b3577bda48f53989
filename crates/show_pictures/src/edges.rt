//! Edges of colours.

ghost use Rattle.std.specs.Prelude.{◌<◌, IfOk};
ghost use Rattle.std.specs.String.{string_bytes};
ghost use Rattle.match_limits.specs.declared.TheConstants.{MOST_COLOURS};
ghost use Rattle.show_pictures.specs.Edges.{HasArc, HasEdge, IsEdgePath};

use crate::forms::{Form, Next, knob_radius, side_of};
use match_puzzle::Puzzle;
use std::alloc::{AllocError, Global};
use std::cmp::Ordering;

/// How the edge of a colour runs. It is straight where the colour is its own mate. Of two mates, the lesser has a knob,
/// and the greater a hollow for it.
#[derive(Clone, Copy)]
pub(crate) enum Edge {
    Flat,
    Knob,
    Hollow,
}

/// The edge of the colour.
pub(crate) fn edge_of(puzzle: &Puzzle, colour: u8) -> Edge
    requires { colour < MOST_COLOURS }
    ensures { HasEdge puzzle.now colour result }
{
    let mate = puzzle.mate(colour);
    match colour.cmp(&mate) {
        Ordering::Equal => Edge::Flat,
        Ordering::Less => Edge::Knob,
        Ordering::Greater => Edge::Hollow,
    }
}

/// The path along a side, from its beginning.
pub(crate) fn edge_path(
    alloc: Global,
    form: Form,
    side: u8,
    edge: Edge,
) -> Result<String, AllocError>
    ensures { IfOk result (λ path. IsEdgePath edge (string_bytes path)) }
{
    match edge {
        Edge::Flat => {
            let way = side_of(form, side).way.step();
            format!(in alloc; "{way}")
        }
        Edge::Knob => curved_path(alloc, form, side, 1),
        Edge::Hollow => curved_path(alloc, form, side, 0),
    }
}

// The path along a side, from its beginning, with an arc over the neck, clockwise or not, as the flag `sweep` says.
fn curved_path(alloc: Global, form: Form, side: u8, sweep: u8) -> Result<String, AllocError>
    ensures { IfOk result (λ path. HasArc sweep (string_bytes path)) }
{
    let side = side_of(form, side);
    let radius = knob_radius(form);
    let straight = side.straight.step();
    let neck = side.neck.step();
    let (x, y) = (Next { number: neck.x }, Next { number: neck.y });
    let before = format!(in alloc; "{straight}a{radius} {radius}")?;
    let after = format!(in alloc; "{x}{y}{straight}")?;
    let path = format!(in alloc; "{before} 0 1 {sweep}{after}")?;
    Ok(path)
}
