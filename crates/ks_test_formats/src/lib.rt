//! Tests of formats: hashes, the bytes of rows and of messages, the layout of topologies. The crate has nothing else.
#![tactic(auto)]

#[cfg(test)]
mod hashes;
#[cfg(test)]
mod rows;
#[cfg(test)]
mod topologies;
#[cfg(test)]
mod wires;
