//! Tests of the program's runs over readers, writers and files in memory, which move little at once, or fail.
#![tactic(auto)]

#[cfg(test)]
mod checks;
#[cfg(test)]
mod documents;
#[cfg(test)]
mod expansions;
#[cfg(test)]
mod fakes;
#[cfg(test)]
mod faults;
#[cfg(test)]
mod files;
#[cfg(test)]
mod orders;
#[cfg(test)]
mod outcomes;
#[cfg(test)]
mod solves;
#[cfg(test)]
mod streams;
#[cfg(test)]
mod systems;
