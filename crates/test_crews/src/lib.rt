//! Tests of crews of workers, and of searches and checks by them.
#![tactic(auto)]

#[cfg(test)]
mod checks;
#[cfg(test)]
mod crews;
#[cfg(test)]
mod desks;
#[cfg(test)]
mod forks;
#[cfg(test)]
mod joins;
#[cfg(test)]
mod live_crews;
#[cfg(test)]
mod machines;
#[cfg(test)]
mod meetings;
#[cfg(test)]
mod searches;
#[cfg(test)]
mod tickets;
