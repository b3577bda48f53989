//! Orders: what the program is to do.

use crate::places::{Files, Given, PartPlaces, Place, TwoPlaces};
use match_limits::{
    ArrangementNumber, Colours, Depth, Drawn, Forks, Fuel, MOST_ARRANGEMENTS, OtherParts, Sides,
    Within, Workers,
};
use match_symmetry::Suggested;
use puzzle_drafts::{Draft, PlainRules};

/// One or more consecutive parts of a search that is divided into parts: how many parts come before the first of them,
/// how many more there are of them, and how many come after the last.
#[derive(Clone, Copy)]
pub struct Parts {
    pub before: OtherParts,
    pub more: OtherParts,
    pub behind: OtherParts,
}

impl Parts {
    ghost use Rattle.std.specs.Prelude.{◌≡◌, ◌+◌, ◌<◌, ◌≤◌};
    ghost use Rattle.command_words.specs.Parts.{parts_with};

    /// Returns how many parts come before the first of these, at most 999,999.
    pub fn earlier(&self) -> u32
        ensures before { result ≡ self.now.before }
        ensures few { result ≤ 999999 }
    {
        self.before.get()
    }

    /// Returns how many parts these are, from 1 to 1,000,000.
    pub fn chosen(&self) -> u32
        ensures chosen { result ≡ self.now.more + 1 }
        ensures few { result ≤ 1000000 }
    {
        self.more.get() + 1
    }

    /// Returns how many parts there are, with those before and after these.
    pub fn count(&self) -> u32
        ensures parts { result ≡ parts_with self.now }
        ensures others { self.now.before + self.now.more < result }
    {
        let behind = self.behind;
        self.earlier() + self.chosen() + behind.get()
    }
}

/// Which arrangements a search counts.
#[derive(Clone, Copy)]
pub enum Extent {
    /// All arrangements.
    All,
    /// All arrangements, until more than this many are found; then it says only that there are more.
    Most(u64),
    /// The arrangements in each of these parts of the search.
    Parts(Parts),
}

/// What is shown or drawn.
#[derive(Drop)]
pub enum Subject {
    /// The empty board of the puzzle at this place.
    Board(Place),
    /// The arrangement with this number in the list at this place, of the puzzle there.
    Listed {
        places: TwoPlaces,
        number: ArrangementNumber,
    },
}

/// How many workers are asked for.
#[derive(Clone, Copy)]
pub enum WantedWorkers {
    /// As many as there are processors.
    All,
    /// This many.
    Number(Workers),
}

/// A check of a puzzle, a list and a certificate.
#[derive(Drop)]
pub struct CheckOrder {
    pub given: Given,
    pub workers: WantedWorkers,
    pub forks: Forks,
    /// Whether it says meanwhile how far it is.
    pub progress: bool,
    /// Whether it says what has to be changed in a text that has a fault, even where no terminal shows it.
    pub hints: bool,
}

/// How many arrangements a search is asked for at most.
pub type MostFound = Within<1, 1_000_000>;

// As many as a list may have. A type's bounds can't name the limit, so they have its digits.
const _: () = prove!(MOST_ARRANGEMENTS == 1_000_000);

/// A search for some arrangements of the puzzle at a place. It prints their list.
#[derive(Drop)]
pub struct FindOrder {
    pub puzzle: Place,
    /// How many arrangements it prints at most.
    pub first: MostFound,
    /// The symmetries of which none may take a printed arrangement to another; `None` where these only have to be
    /// different.
    pub orbits: Option<Suggested>,
    /// What the random numbers of the first worker begin with.
    pub seed: u64,
    pub workers: WantedWorkers,
    /// Whether it says meanwhile how far it is.
    pub progress: bool,
}

/// A search for all arrangements of a puzzle. It writes the files of their list and of a certificate.
#[derive(Drop)]
pub struct SolveOrder {
    pub files: Files,
    /// Of how many levels of branches lemmas are made before the search; `None`: of as many as suit the puzzle.
    pub depth: Option<Depth>,
    pub fuel: Fuel,
    pub workers: WantedWorkers,
    /// Which symmetries the certificate names.
    pub symmetries: Suggested,
    /// Whether what was found is checked before its files are put under their names.
    pub check: bool,
    /// Whether it says meanwhile how far it is.
    pub progress: bool,
    /// Whether it says what has to be changed in a text that has a fault, even where no terminal shows it.
    pub hints: bool,
}

/// A check of a puzzle, a list and a certificate, which prints arrangements.
#[derive(Drop)]
pub struct ExpandOrder {
    pub given: Given,
    /// Whether it prints only one arrangement of each orbit (arrangements that the certificate's symmetries take into
    /// each other), and not all.
    pub orbits: bool,
    /// Whether it says what has to be changed in a text that has a fault, even where no terminal shows it.
    pub hints: bool,
}

/// A check of a puzzle, a list and a certificate, which prints a page (HTML) that publishes them.
#[derive(Drop)]
pub struct PageOrder {
    pub given: Given,
    /// The page's heading.
    pub title: String,
    /// How many of the listed arrangements a sheet shows.
    pub first: Drawn,
    /// Whether it says what has to be changed in a text that has a fault, even where no terminal shows it.
    pub hints: bool,
}

/// A search that counts arrangements of the puzzle at a place.
#[derive(Drop)]
pub struct CensusOrder {
    pub puzzle: Place,
    pub extent: Extent,
    pub workers: WantedWorkers,
    /// Whether it says meanwhile how far it is.
    pub progress: bool,
}

/// The rules of a puzzle that is to be made.
#[derive(Drop)]
pub enum WantedRules {
    /// These.
    Plain(PlainRules),
    /// The board, the turns, the border and the mates of the puzzle at this place.
    Like(Place),
}

/// How many puzzles are asked for of which the hardest or the easiest is taken.
pub type ChosenFrom = Within<1, 1_000>;

/// How many candidates are tried at most.
pub type Tries = Within<1, 1_000_000>;

/// A puzzle that is to be made. It prints its text.
#[derive(Drop)]
pub struct GenerateOrder {
    pub rules: WantedRules,
    pub draft: Draft,
    /// Whether it says meanwhile which candidates won't do.
    pub progress: bool,
}

/// A picture of the empty board of a puzzle and its tiles, or of listed arrangements.
#[derive(Drop)]
pub struct DrawOrder {
    pub subject: Subject,
    /// How many arrangements a sheet has, from the one of the subject on; 0 for that one alone, large.
    pub first: Drawn,
    /// Whether each cell has the number of its tile.
    pub numbers: bool,
}

/// A check of a puzzle, a list and a certificate, which prints a picture of all arrangements of the puzzle: of those
/// that are listed, and then of their images under the certificate's symmetries.
#[derive(Drop)]
pub struct DrawAllOrder {
    pub given: Given,
    /// Which arrangement is the first that is drawn, in the order of an expansion.
    pub number: ArrangementNumber,
    /// How many arrangements a sheet has, from that one on; 0 for that one alone, large.
    pub first: Drawn,
    /// Whether each cell has the number of its tile.
    pub numbers: bool,
}

/// How long the side of a tile is on paper, in millimetres.
pub type TileSize = Within<10, 100>;

/// The tiles of a puzzle, each by itself, on pages (HTML) that are printed and cut up; with a list, an arrangement on a
/// last page.
#[derive(Drop)]
pub struct CutOrder {
    pub subject: Subject,
    pub size: TileSize,
    /// Whether each tile has its number.
    pub numbers: bool,
}

/// A list of the tiles with this many sides and colours.
#[derive(Drop)]
pub struct TilesOrder {
    pub sides: Sides,
    pub colours: Colours,
    /// Whether they are printed as lines of a puzzle's text, and not by their words only.
    pub lines: bool,
}

/// What the words of the command line ask for.
#[derive(Drop)]
pub enum Order {
    /// Check the puzzle, list and certificate that standard input has, one after the other. The program without a
    /// command orders this.
    Joined,
    /// Check the documents that are given in this way.
    Check(CheckOrder),
    /// Check the documents that are given in this way, and say why they are refused.
    Explain(Given),
    /// Say whether the text of the puzzle at this place has a fault.
    ExplainPuzzle(Place),
    /// Search for some arrangements of a puzzle, and print their list.
    Find(FindOrder),
    /// Search for all arrangements of a puzzle, and write their list and a certificate. The files that are there stay
    /// until both are written.
    Solve(SolveOrder),
    /// Check documents, and print all arrangements, or one of each orbit.
    Expand(ExpandOrder),
    /// Check documents, and print a page that publishes them.
    Page(PageOrder),
    /// Check the documents that are given in this way, and count all arrangements.
    Count(Given),
    /// Count arrangements of a puzzle by a search.
    Census(CensusOrder),
    /// Add up the counts of all parts of a search, by the lines at these places.
    Total(PartPlaces),
    /// Make a puzzle, and print its text.
    Generate(GenerateOrder),
    /// Draw the empty board of a puzzle, or a listed arrangement, as text.
    Show(Subject),
    /// Draw a puzzle, or listed arrangements, as a picture.
    Draw(DrawOrder),
    /// Check documents, and draw arrangements that the list has or stands for, as a picture.
    DrawAll(DrawAllOrder),
    /// Draw the tiles of a puzzle on pages, to be cut out.
    Cut(CutOrder),
    /// Print symmetries of the puzzle at this place.
    Symmetries(Place),
    /// List tiles.
    Tiles(TilesOrder),
}
