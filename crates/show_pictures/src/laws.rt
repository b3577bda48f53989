//! What follows for every picture.

ghost use Rattle.show_pictures.specs.Palette.{PaletteLaw};
ghost use Rattle.show_pictures.specs.Laws.{FillLaw, FittingLaw, SeamLaw};

/// Does nothing. Its promises are laws:
///
/// - There are 36 different fills, none of them white.
/// - Where two colours of a puzzle have one fill, they are mates, or the colour is one.
/// - In an arrangement, sides that meet have one fill, and edges that fit: a knob and a hollow, or two flat ones.
/// - Such sides lie on each other: each begins where the other ends.
pub fn picture_laws()
    ensures palette { PaletteLaw }
    ensures fills { FillLaw }
    ensures fitting { FittingLaw }
    ensures seams { SeamLaw }
{}
