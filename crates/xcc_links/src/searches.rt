//! Searches over linked lists.

ghost use Rattle.std.specs.Prelude.{◌≡◌, false};

use crate::links::{Links, links_with_nothing_chosen_are_one};
use xcc_dance::SearchOver;

/// A search over linked lists.
pub type Search<'a> = SearchOver<Links<'a>>;

/// A law; the call does nothing. Two searches of one compiled puzzle, neither of which failed, have the same links, in
/// each link and each size. So a search that is done has the links of a new one.
pub fn links_of_ready_searches_are_one(first: &Search<'_>, second: &Search<'_>)
    requires compiled { second.now.engine.compiled ≡ first.now.engine.compiled }
    requires first { first.now.failed ≡ false }
    requires second { second.now.failed ≡ false }
    ensures { second.now.engine ≡ first.now.engine }
{
    links_with_nothing_chosen_are_one(first.engine(), second.engine());
}
