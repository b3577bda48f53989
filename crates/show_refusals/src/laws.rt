//! Laws: what holds of all values. The functions do nothing: their contracts say what holds.

ghost use Rattle.show_refusals.specs.Findings.{MissingLaw};

/// Does nothing. Its promise is a law: where an explanation ends with a missing arrangement, the list isn't complete.
pub fn missing_laws()
    ensures { MissingLaw }
{}
