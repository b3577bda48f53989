//! Reads the words of the program's command line as orders.
#![tactic(auto)]

mod commands;
mod draft_words;
mod drawing_words;
mod faults;
mod helps;
mod orders;
mod places;
mod readings;

pub use faults::WordsFault;
pub use orders::{
    CensusOrder, CheckOrder, ChosenFrom, CutOrder, DrawAllOrder, DrawOrder, ExpandOrder, Extent,
    FindOrder, GenerateOrder, MostFound, Order, PageOrder, Parts, SolveOrder, Subject, TileSize,
    TilesOrder, Tries, WantedRules, WantedWorkers,
};
pub use places::{Files, Given, PartPlaces, Place, Places, TwoPlaces};
pub use readings::order;
