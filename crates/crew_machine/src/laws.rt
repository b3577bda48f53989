//! Laws: what holds of all values. The functions do nothing: their contracts say what holds.

ghost use Rattle.crew_machine.specs.Machine.{EveryRun};

/// A law, for which the call does nothing: in every run, from every opening state, each number that was dealt waits
/// once in one queue or stands once in what one worker took, and no other number does; what was drawn are the numbers
/// below the next, each once, and that is at most the limit; what is done and what workers are busy with is what was
/// taken, each once; and what was posted was taken, and posted once.
pub fn every_run_is_sound()
    ensures { EveryRun }
{}
