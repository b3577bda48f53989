//! A number source, from which several threads draw.

mod draws;
mod rules;
mod seats;

pub use seats::{AllDrawn, TicketSeat, Tickets};
