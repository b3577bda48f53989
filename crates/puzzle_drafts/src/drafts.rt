//! What is asked of a puzzle that is to be made.

ghost use Rattle.std.specs.Prelude.{◌≡◌, ◌≤◌};

/// A rectangle, a triangle or a hexagon.
#[derive(Clone, Copy, PartialEq, Eq, Debug)]
pub enum PlainBoard {
    Rectangle { width: u16, height: u16 },
    Triangle { size: u16 },
    Hexagon { size: u16 },
}

impl PlainBoard {
    ghost use Rattle.puzzle_drafts.specs.Drafts.{board_turns};

    // How many turns take the whole board to itself.
    fn turns(&self) -> u8
        ensures { result ≡ board_turns self.now }
    {
        match *self {
            PlainBoard::Rectangle { width, height } if width == height => 4,
            PlainBoard::Rectangle { .. } => 2,
            PlainBoard::Triangle { .. } => 3,
            PlainBoard::Hexagon { .. } => 6,
        }
    }
}

/// What outer sides show, and what the border asks for.
#[derive(Clone, Copy, PartialEq, Eq, Debug)]
pub enum BorderKind {
    /// Colour 0 is outside and nowhere inside, and the border asks for it.
    Frame,
    /// Colour 0 is outside, and may be inside too. The border asks for it.
    One,
    /// Any colours are outside, and nothing is asked for.
    Free,
    /// Any colours are outside, and the border asks for each.
    Each,
}

impl BorderKind {
    ghost use Rattle.puzzle_drafts.specs.Drafts.{least_inside, unpaired_colours};

    /// How many colours are in no pair of mates: colour 0, where the border asks for it on each outer side.
    pub fn unpaired_colours(&self) -> u8
        ensures count { result ≡ unpaired_colours self.now }
        ensures few { result ≤ 1 }
    {
        match self {
            BorderKind::Frame | BorderKind::One => 1,
            BorderKind::Free | BorderKind::Each => 0,
        }
    }

    /// The least colour inside.
    pub fn least_inside(&self) -> u8
        ensures { result ≡ least_inside self.now }
    {
        match self {
            BorderKind::Frame => 1,
            BorderKind::One | BorderKind::Free | BorderKind::Each => 0,
        }
    }
}

/// The rules that are asked of a puzzle on a plain board.
#[derive(Clone, Copy, PartialEq, Eq, Debug)]
pub struct PlainRules {
    pub board: PlainBoard,
    pub border: BorderKind,
    /// Whether tiles may be turned.
    pub turns: bool,
    /// Whether colours are mates in pairs: 0 and 1, 2 and 3, and so on. Where the border asks for colour 0 alone, that is
    /// its own mate, and the pairs are 1 and 2, 3 and 4, and so on.
    pub mates: bool,
}

impl PlainRules {
    ghost use Rattle.puzzle_drafts.specs.Drafts.{turns_of};

    /// How many arrangements the turns of the whole board make of one: as many as keep what the border asks, or just it
    /// where tiles may not be turned.
    pub fn whole_turns(&self) -> u8
        ensures { result ≡ turns_of self.now }
    {
        if !self.turns {
            return 1;
        }
        match self.border {
            BorderKind::Each => 1,
            BorderKind::Frame | BorderKind::One | BorderKind::Free => self.board.turns(),
        }
    }
}

/// Which of the puzzles that will do is taken.
#[derive(Clone, Copy, PartialEq, Eq, Debug)]
pub enum Choice {
    /// The first.
    First,
    /// Of so many the one with the most work.
    Hardest(u16),
    /// Of so many the one with the least work.
    Easiest(u16),
}

/// What is asked of a puzzle's tiles and arrangements, whatever its rules are.
#[derive(Clone, Copy, PartialEq, Eq, Debug)]
pub struct Draft {
    /// How many colours there are. They are drawn from 0 on.
    pub colours: u8,
    /// How many tiles there are beside those of the arrangement.
    pub spare: u16,
    /// How many cells have a clue, which asks for all that the cell shows.
    pub clues: u16,
    /// Whether no two tiles may be equal, and none its own turn.
    pub is_different: bool,
    /// Whether there may be no more arrangements than the turns of the whole board make of one; just one where there are
    /// clues.
    pub is_unique: bool,
    /// How many candidates are tried at most until one will do, and from then on until the next one does.
    pub tries: u32,
    pub choice: Choice,
    /// With what the random numbers begin. One seed always makes one puzzle.
    pub seed: u64,
}
