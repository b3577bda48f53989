//! Laws: what holds of all values. The functions do nothing: their contracts say what holds.

ghost use Rattle.command_orders.specs.SolvedFiles.{NothingIsLost};

/// A law; the call does nothing. After a solve that is done, the list and the certificate are under their names, and
/// the puzzle's file is as it was. After a solve that was stopped before everything was written, the files under all
/// names are as they were.
pub fn nothing_is_lost()
    ensures { NothingIsLost }
{}
