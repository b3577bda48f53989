//! Makes puzzles.

ghost use Rattle.std.specs.Prelude.{◌≡◌, ◌↔◌, IfOk, IsErrOf};
ghost use Rattle.match_puzzle.specs.Puzzle.{Task};
ghost use Rattle.xcc_form.specs.Options.{HasTooManyEntries};
ghost use Rattle.puzzle_drafts.specs.Drafts.{IsFirstMisfit};
ghost use Rattle.puzzle_drafts.specs.declared.misfits.Misfit.{Misfit};
ghost use Rattle.puzzle_maker.specs.Like.{IsFirstMisfitLike, IsLike, IsMadeLike};
ghost use Rattle.puzzle_maker.specs.Made.{AreSearched, IsAsDrafted, IsMade};

use crate::choices::chosen_puzzle;
use crate::faults::MakeFault;
use crate::frames::frame_of;
use crate::like_plans::{misfit_of, plan_like};
use crate::plain_plans::PlainDraft;
use crate::watches::MakerWatch;
use match_puzzle::Puzzle;
use puzzle_drafts::{Draft, PlainRules};
use std::alloc::Global;

/// Makes a puzzle as is asked. It has an arrangement: one is drawn, each inner edge a colour at random, and then cut up,
/// and its tiles are shuffled and turned.
///
/// What was made is checked, and where it won't do, the next candidate is drawn. `GaveUp` comes after as many as the
/// draft allows, which doesn't say that there is no such puzzle. `TooMany` comes where the options of a candidate have
/// over 200,000 items together, and its arrangements are to be counted, its clues chosen or its work guessed. A count has
/// no limit of time: it may take long on a large board where about half of all candidates would do, or fewer.
#[tactic(auto, using(crate::proofs::PlanLemmas::drafted, crate::proofs::PlanLemmas::made, crate::proofs::PlanLemmas::searched))]
pub fn make_puzzle<W: MakerWatch>(
    alloc: Global,
    rules: &PlainRules,
    draft: &Draft,
    watch: &W,
) -> Result<Puzzle, MakeFault>
    ensures made { IfOk result (IsMade rules.now draft.now) }
    ensures misfit { (misfit : Misfit)
        → (result ≡ Err (MakeFault.Misfit misfit)) ↔ IsFirstMisfit rules.now draft.now misfit }
    ensures too_many { IsErrOf result MakeFault.TooMany
        → (p : Task) × IsAsDrafted rules.now draft.now p × HasTooManyEntries p }
    ensures searched { IsErrOf result MakeFault.TooMany → AreSearched draft.now }
{
    let fitting = match PlainDraft::new(rules, draft) {
        Ok(fitting) => fitting,
        Err(misfit) => return Err(MakeFault::Misfit(misfit)),
    };
    let plan = fitting.plan(alloc)?;
    chosen_puzzle(alloc, &plan, watch)
}

/// Makes a puzzle like a model: on its board, with what its border asks for and with its mates; tiles may be turned where
/// the model's may. Its tiles are drawn: outer sides show what the border asks for, or any colour where it asks for
/// nothing, and inner sides any colour. Where the model has a frame (its border asks each outer side for one colour, which
/// its tiles show on no more sides than there are outer sides), that colour and its mate are nowhere inside. Nothing else
/// is taken from the model's tiles, nor from its clues.
///
/// Where arrangements are to be few, there may be as many as turns of the board keep what its border asks for; just one
/// where tiles may not be turned, or there are clues. `GaveUp` and `TooMany` come as for [`make_puzzle`].
#[tactic(auto, using(crate::proofs::LikeLemmas::like, crate::proofs::LikeLemmas::made_like, crate::proofs::PlanLemmas::searched))]
pub fn make_puzzle_like<W: MakerWatch>(
    alloc: Global,
    model: &Puzzle,
    draft: &Draft,
    watch: &W,
) -> Result<Puzzle, MakeFault>
    ensures made { IfOk result (IsMadeLike model.now draft.now) }
    ensures misfit { (misfit : Misfit)
        → (result ≡ Err (MakeFault.Misfit misfit)) ↔ IsFirstMisfitLike model.now draft.now misfit }
    ensures too_many { IsErrOf result MakeFault.TooMany
        → (p : Task) × IsLike model.now draft.now p × HasTooManyEntries p }
    ensures searched { IsErrOf result MakeFault.TooMany → AreSearched draft.now }
{
    let frame = frame_of(model);
    if let Some(misfit) = misfit_of(model, draft, frame) {
        return Err(MakeFault::Misfit(misfit));
    }
    let plan = plan_like(alloc, model, draft, frame)?;
    chosen_puzzle(alloc, &plan, watch)
}
