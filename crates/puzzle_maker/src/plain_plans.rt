//! Plans of puzzles on plain boards, by their rules.

ghost use Rattle.std.specs.Prelude.{◌≡◌, ◌<◌, ◌≤◌, ◌-◌, ◌+◌, ◌*◌, ℕ, IfOk, IfErr, vec_len};
ghost use Rattle.match_limits.specs.declared.TheConstants.{MOST_COLOURS, MOST_PLAIN_CELLS, MOST_TILES};
ghost use Rattle.match_board.specs.Board.{cell_count};
ghost use Rattle.match_board.specs.Borders.{BorderRule};
ghost use Rattle.puzzle_drafts.specs.Drafts.{IsFirstMisfit, figure_of, least_inside, most_arrangements, tiles_of};
ghost use Rattle.puzzle_drafts.specs.Drafts.{version_of};
ghost use Rattle.puzzle_drafts.specs.declared.misfits.Misfit.{Misfit as Reason};
ghost use Rattle.puzzle_drafts.specs.declared.drafts.PlainRules.{PlainRules as AskedRules};
ghost use Rattle.puzzle_drafts.specs.declared.drafts.Draft.{Draft as AskedDraft};
ghost use Rattle.puzzle_maker.specs.Made.{AsksAsDrafted};
ghost use Rattle.puzzle_maker.specs.Plans.{AsksAsPlanned, IsPlanOf};

use crate::mates::mates_of;
use crate::outsides::Outside;
use crate::plans::Plan;
use match_board::{Board, BoardFault, Border, Figure};
use match_limits::{MOST_COLOURS, MOST_TILES};
use puzzle_drafts::{BorderKind, Draft, Misfit, PlainBoard, PlainRules};
use std::alloc::{AllocError, Global};

/// Rules and a draft that have no misfit, and their board.
#[derive(Clone, Copy)]
pub(crate) struct PlainDraft {
    rules: PlainRules,
    draft: Draft,
    board: Board,
    ghost is_board: { board ≡ figure_of rules.board },
    ghost inside: { least_inside rules.border < draft.colours },
    ghost colours: { draft.colours ≤ MOST_COLOURS },
    ghost tiles: { tiles_of rules draft ≤ MOST_TILES },
    ghost clues: { draft.clues ≤ cell_count board },
}

impl PlainDraft {
    /// The draft on its board, or the first reason why there is no such puzzle.
    pub(crate) fn new(rules: &PlainRules, draft: &Draft) -> Result<PlainDraft, Misfit>
        ensures rules { IfOk result (λ made. made.rules ≡ rules.now) }
        ensures draft { IfOk result (λ made. made.draft ≡ draft.now) }
        ensures fits { IfOk result (λ _. (misfit : Reason) → IsFirstMisfit rules.now draft.now misfit → ⊥) }
        ensures misfit { IfErr result (IsFirstMisfit rules.now draft.now) }
    {
        let board = match board_of(&rules.board) {
            Ok(board) => board,
            Err(misfit) => return Err(misfit),
        };
        if board.sides() == 3 && !rules.turns {
            return Err(Misfit::FixedTriangles);
        }
        if draft.colours <= rules.border.least_inside() {
            return Err(Misfit::FewColours);
        }
        if draft.colours > MOST_COLOURS {
            return Err(Misfit::ManyColours);
        }
        if rules.mates && (draft.colours - rules.border.unpaired_colours()) % 2 == 1 {
            return Err(Misfit::OddMates);
        }
        if draft.spare > MOST_TILES - board.cells() {
            return Err(Misfit::ManyTiles);
        }
        if draft.clues > board.cells() {
            return Err(Misfit::ManyClues);
        }
        Ok(PlainDraft {
            rules: *rules,
            draft: *draft,
            board,
        })
    }

    /// The plan of such a puzzle.
    pub(crate) fn plan(&self, alloc: Global) -> Result<Plan, AllocError>
        ensures { IfOk result (IsPlanOf self.now.rules self.now.draft) }
    {
        let rules = &self.rules;
        let draft = &self.draft;
        let outside = outside_of(rules.border);
        let asked = outside.asked(alloc, &self.board)?;
        let inner = colours_from(alloc, rules.border.least_inside(), draft.colours)?;
        let mates = mates_of(alloc, rules, draft.colours)?;
        Ok(Plan {
            draft: *draft,
            board: self.board,
            turns: rules.turns,
            outside,
            asked,
            frame: frame_of(rules.border),
            inner,
            mates,
            version: version(rules, draft),
            most: most(rules, draft),
        })
    }
}

// The board, or why there is none.
fn board_of(board: &PlainBoard) -> Result<Board, Misfit>
    ensures board { IfOk result (λ made. made ≡ figure_of board.now) }
    ensures misfit { IfErr result (λ misfit. (rules : AskedRules) (draft : AskedDraft) → rules.board ≡ board.now
        → IsFirstMisfit rules draft misfit) }
    ensures fits { IfOk result (λ made. (1 ≤ cell_count made) × (cell_count made ≤ MOST_PLAIN_CELLS)) }
{
    let made = match *board {
        PlainBoard::Rectangle { width, height } => Board::of(Figure::Rectangle { width, height }),
        PlainBoard::Triangle { size } => Board::of(Figure::Triangle { size }),
        PlainBoard::Hexagon { size } => Board::of(Figure::Hexagon { size }),
    };
    match made {
        Ok(board) => Ok(board),
        Err(BoardFault::Empty) => Err(Misfit::EmptyBoard),
        Err(BoardFault::TooLarge) => Err(Misfit::LargeBoard),
    }
}

// What outer sides show by this kind of border.
fn outside_of(kind: BorderKind) -> Outside
    ensures { (rule : BorderRule) → AsksAsPlanned result rule → AsksAsDrafted kind rule }
{
    match kind {
        BorderKind::Frame | BorderKind::One => Outside::Asked(Border::One(0)),
        BorderKind::Free => Outside::Asked(Border::Free),
        BorderKind::Each => Outside::Drawn,
    }
}

// The colour that is outside alone, if there is one.
fn frame_of(kind: BorderKind) -> Option<u8>
    ensures { kind ≡ BorderKind.Frame → result ≡ Some 0 }
{
    match kind {
        BorderKind::Frame => Some(0),
        BorderKind::One | BorderKind::Free | BorderKind::Each => None,
    }
}

// The colours from `least` on, below `colours`.
fn colours_from(alloc: Global, least: u8, colours: u8) -> Result<Vec<u8>, AllocError>
    requires { least ≤ colours }
    ensures { IfOk result (λ v. vec_len v ≡ colours - least) }
{
    let mut inner = Vec::new(alloc);
    for colour in least..colours {
        inner.push(colour)?;
    }
    Ok(inner)
}

// The version of the puzzle.
fn version(rules: &PlainRules, draft: &Draft) -> u8
    ensures { result ≡ version_of rules.now draft.now }
{
    if draft.spare > 0 || draft.clues > 0 {
        3
    } else if rules.mates {
        2
    } else {
        1
    }
}

// How many arrangements there may be, where they are to be few.
fn most(rules: &PlainRules, draft: &Draft) -> u8
    ensures { result ≡ most_arrangements rules.now draft.now }
{
    if draft.clues == 0 {
        rules.whole_turns()
    } else {
        1
    }
}
