//! Where documents are: in files, or on standard input.

ghost use Rattle.std.specs.Prelude.{◌≡◌, ◌↔◌, IsTrue, MatchOption};
ghost use Rattle.command_words.specs.Places.{AreBothOnInput, AreTwoOnInput};
ghost use Rattle.command_words.specs.declared.places.Place.TheVariants.{Input};

/// Where a document is.
#[derive(Drop)]
pub enum Place {
    /// On standard input, from which the order reads nothing else.
    Input,
    /// In the file with this name.
    File(String),
}

impl Place {
    /// Whether the document is on standard input.
    pub fn is_input(&self) -> bool
        ensures { IsTrue result ↔ (self.now ≡ Input) }
    {
        matches!(self, Place::Input)
    }
}

/// Where a solve reads its puzzle, and the names of the two files that it writes.
#[derive(Drop)]
pub struct Files {
    pub puzzle: Place,
    pub list: String,
    pub certificate: String,
}

/// Where the lines of counted parts are.
#[derive(Drop)]
pub enum PartPlaces {
    /// On standard input.
    Input,
    /// In the files with these names, at least one.
    Files(Vec<String>),
}

/// Where a puzzle and a list are: at most one of them on standard input.
#[derive(Drop)]
pub struct TwoPlaces {
    pub puzzle: Place,
    pub list: Place,
    pub ghost once: { AreBothOnInput puzzle list → ⊥ },
}

impl TwoPlaces {
    // A puzzle and a list at these places; `None` where both are standard input.
    pub(crate) fn new(puzzle: Place, list: Place) -> Option<TwoPlaces>
        ensures { MatchOption result (AreBothOnInput puzzle list)
            (λ places. (places.puzzle ≡ puzzle) × (places.list ≡ list)) }
    {
        if puzzle.is_input() && list.is_input() {
            return None;
        }
        Some(TwoPlaces { puzzle, list })
    }
}

/// Where a puzzle, a list and a certificate are: at most one of them on standard input.
#[derive(Drop)]
pub struct Places {
    pub puzzle: Place,
    pub list: Place,
    pub certificate: Place,
    pub ghost once: { AreTwoOnInput puzzle list certificate → ⊥ },
}

impl Places {
    // A puzzle, a list and a certificate at these places; `None` where two of them are standard input.
    pub(crate) fn new(puzzle: Place, list: Place, certificate: Place) -> Option<Places>
        ensures { MatchOption result (AreTwoOnInput puzzle list certificate) (λ places. (places.puzzle ≡ puzzle)
            × (places.list ≡ list) × (places.certificate ≡ certificate)) }
    {
        if puzzle.is_input() && list.is_input()
            || puzzle.is_input() && certificate.is_input()
            || list.is_input() && certificate.is_input()
        {
            return None;
        }
        Some(Places {
            puzzle,
            list,
            certificate,
        })
    }
}

/// How a puzzle, a list and a certificate are given.
#[derive(Drop)]
pub enum Given {
    /// Joined on standard input, one after the other.
    Joined,
    /// Each by itself, at these places.
    Apart(Places),
}
