//! Why no puzzle can be as is asked.

ghost use Rattle.std.specs.Prelude.{Some};
ghost use Rattle.puzzle_drafts.specs.MisfitText.{misfit_text};

use std::error::Error;
use std::fmt;

/// Why no puzzle can be as is asked. Reasons are looked for in this order.
#[derive(Clone, Copy, PartialEq, Eq, Debug)]
pub enum Misfit {
    EmptyBoard,
    LargeBoard,
    FixedTriangles,
    /// There is no colour for inner sides, or the border asks for a colour that there isn't.
    FewColours,
    ManyColours,
    /// The colours that are to be mates can't be paired.
    OddMates,
    /// The mate of a colour is none of the colours. This comes only where the mates are those of another puzzle.
    LoneMate,
    ManyTiles,
    ManyClues,
}

impl fmt::Display for Misfit {
    ghost output = { λ misfit. Some (misfit_text misfit) };

    fn fmt<W: fmt::Write>(&self, f: &mut fmt::Formatter<W>) -> fmt::Result {
        f.write_str(match self {
            Misfit::EmptyBoard => "a board of no cells",
            Misfit::LargeBoard => "a board of over 100 cells",
            Misfit::FixedTriangles => "triangles that may not be turned",
            Misfit::FewColours => "too few colours",
            Misfit::ManyColours => "over 36 colours",
            Misfit::OddMates => "an odd number of colours for mates",
            Misfit::LoneMate => "a colour without its mate",
            Misfit::ManyTiles => "over 256 tiles",
            Misfit::ManyClues => "more clues than cells",
        })
    }
}

impl Error for Misfit {}
