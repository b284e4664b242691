//! Tests of the calls of lower crates, of what no run of the program shows: stores and caches, the sides of joins, windows, assignments. The crate has nothing else.
#![tactic(auto)]

#[cfg(test)]
mod assignments;
#[cfg(test)]
mod caches;
#[cfg(test)]
mod calls;
#[cfg(test)]
mod given;
#[cfg(test)]
mod joins;
#[cfg(test)]
mod replies;
#[cfg(test)]
mod stores;
#[cfg(test)]
mod tables;
