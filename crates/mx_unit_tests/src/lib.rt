//! Tests of values, purses, the book in memory, the office over it and the wire, by their public calls alone: what no
//! contract says, worked out by hand. They stand in a crate of their own, so that the crates that they test are proved once, and not
//! again with their tests.
#![tactic(auto)]

#[cfg(test)]
mod book;
#[cfg(test)]
mod growths;
#[cfg(test)]
mod office;
#[cfg(test)]
mod pay;
#[cfg(test)]
mod purse;
#[cfg(test)]
mod report;
#[cfg(test)]
mod wire;
