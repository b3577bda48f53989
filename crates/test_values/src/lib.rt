//! Tests of puzzles and their texts, symmetries and exact covers, over what their libraries give.
#![tactic(auto)]

#[cfg(test)]
mod assemblies;
#[cfg(test)]
mod checks;
#[cfg(test)]
mod covers;
#[cfg(test)]
mod faults;
#[cfg(test)]
mod fixtures;
#[cfg(test)]
mod limits;
#[cfg(test)]
mod partials;
#[cfg(test)]
mod reports;
#[cfg(test)]
mod second_forms;
#[cfg(test)]
mod symmetries;
#[cfg(test)]
mod texts;
#[cfg(test)]
mod trees;
