//! Tests over files, by the public calls of the crates below. The program's tasks over real files and connections over a
//! loopback socket: what no contract says, worked out by hand. And what a stop of the disk leaves of the books: files in
//! memory that stop at each of their calls in turn. The crate has no code but its tests.
#![tactic(auto)]

#[cfg(test)]
mod closed;
#[cfg(test)]
mod connections;
#[cfg(test)]
mod disks;
#[cfg(test)]
mod flushes;
#[cfg(test)]
mod folder;
#[cfg(test)]
mod growths;
#[cfg(test)]
mod lives;
#[cfg(test)]
mod made;
#[cfg(test)]
mod migrated;
#[cfg(test)]
mod new_tables;
#[cfg(test)]
mod offices;
#[cfg(test)]
mod requests;
#[cfg(test)]
mod rolls;
#[cfg(test)]
mod scratch;
#[cfg(test)]
mod scripts;
#[cfg(test)]
mod tasks;
#[cfg(test)]
mod unsound;
