//! Laws: what holds of all values. The functions do nothing: their contracts say what holds.

ghost use Rattle.std.specs.Prelude.{◌↔◌};
ghost use Rattle.cert_check.specs.Setting.{Question, in_second_form};
ghost use Rattle.cert_check.specs.Answer.{IsAnswer, OneAnswer};
ghost use Rattle.cert_check.specs.declared.faults.Answer.{Answer};

/// A law; the call does nothing. There is at most one answer to a puzzle, a list and a certificate.
pub fn one_answer()
    ensures { OneAnswer }
{}

/// A law; the call does nothing. A puzzle and its second form (the puzzle in version 2 or 3, with a shape in place of a
/// rectangle) have the same answer for each list and certificate.
pub fn second_form_has_the_same_answers()
    ensures { (question : Question) (answer : Answer)
        → IsAnswer question answer ↔ IsAnswer (in_second_form question) answer }
{}
