//! Which arrangements of a list are drawn.

ghost use Rattle.std.specs.Prelude.{◌≡◌, ◌≢◌, ◌<◌, ◌≤◌, IfOk, IfErr, length};
ghost use Rattle.match_puzzle.specs.Arrangement.{AreArrangements};
ghost use Rattle.show_pictures.specs.Plans.{IsNotDrawn, to_be_drawn};
ghost use Rattle.show_pictures.specs.declared.plans.NotDrawn.TheVariants.{Memory as memory};

use match_limits::{ArrangementNumber, Drawn};
use match_puzzle::{Arrangement, ArrangementFault, Puzzle};
use std::alloc::AllocError;

/// What is drawn of a list.
#[derive(Clone, Copy)]
pub struct PicturePlan {
    /// The number of the first arrangement to draw.
    pub number: ArrangementNumber,
    /// How many to draw at most, on a sheet; or 0 to draw one by itself.
    pub first: Drawn,
    /// Whether each tile has its number.
    pub numbers: bool,
}

/// Why nothing is drawn of a list.
#[derive(Clone, Copy, PartialEq, Eq, Debug)]
pub enum NotDrawn {
    /// The list has no arrangement of this number.
    NoArrangement(u32),
    /// The listed arrangement of this number is none of the puzzle's.
    Arrangement(u32, ArrangementFault),
    Memory,
}

impl From<AllocError> for NotDrawn {
    ghost from_gives = { λ _ e. e ≡ memory };

    fn from(_error: AllocError) -> NotDrawn {
        NotDrawn::Memory
    }
}

/// The arrangements that are to be drawn of the list.
///
/// An `Err` is `NoArrangement` with the number of the first, where the list has no more arrangements than that; or
/// `Arrangement` with the first of those to be drawn that is no arrangement of the puzzle, and its first fault.
pub(crate) fn arrangements_to_draw<'a>(
    puzzle: &Puzzle,
    listed: &'a [Arrangement],
    plan: &PicturePlan,
) -> Result<&'a [Arrangement], NotDrawn>
    ensures drawn { IfOk result (λ drawn. drawn.now ≡ to_be_drawn plan.now.number plan.now.first listed.now) }
    ensures some { IfOk result (λ drawn. 1 ≤ length drawn.now) }
    ensures few { IfOk result (λ drawn. length drawn.now ≤ 100) }
    ensures arrangements { IfOk result (λ drawn. AreArrangements puzzle.now drawn.now) }
    ensures fails { IfErr result (IsNotDrawn plan.now.number plan.now.first puzzle.now listed.now) }
    ensures takes_none { IfErr result (λ fault. fault ≢ memory) }
{
    let number = plan.number.get();
    if listed.len() <= number as usize {
        return Err(NotDrawn::NoArrangement(number));
    }
    let drawn = drawn_of(listed, plan);
    if let Some((index, fault)) = puzzle.first_wrong(drawn) {
        return Err(NotDrawn::Arrangement(number + index, fault));
    }
    Ok(drawn)
}

// Those that are to be drawn of the list.
fn drawn_of<'a>(listed: &'a [Arrangement], plan: &PicturePlan) -> &'a [Arrangement]
    requires { plan.now.number < length listed.now }
    ensures drawn { result.now ≡ to_be_drawn plan.now.number plan.now.first listed.now }
    ensures some { 1 ≤ length result.now }
    ensures few { length result.now ≤ 100 }
{
    let rest = &listed[plan.number.get() as usize..];
    let count = plan.first.get().max(1) as usize;
    &rest[..count.min(rest.len())]
}
