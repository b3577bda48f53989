//! What follows of reasons.

ghost use Rattle.show_reasons.specs.Laws.{ReasonLaw, ToldLaw};

/// Does nothing. Its promises are laws: a puzzle of which a reason holds has no arrangement, and so has one of which a
/// reason is told.
pub fn reason_laws()
    ensures reason { ReasonLaw }
    ensures told { ToldLaw }
{}
