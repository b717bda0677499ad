//! Tests of the desk, rolls and reports over a book in memory and over SQL tables, by their public calls alone: what no contract says, worked out by hand. They stand in a crate of their own, so that the crates that they
//! test are proved once, and not again with their tests.
#![tactic(auto)]

#[cfg(test)]
mod desk;
#[cfg(test)]
mod empty;
#[cfg(test)]
mod faulty;
#[cfg(test)]
mod growths;
#[cfg(test)]
mod report;
#[cfg(test)]
mod rolls;
#[cfg(test)]
mod tables;
