//! Tests of the lock round a cluster: calls through several passes, on one thread and on two; and of the calls of a partition. The crate
//! has nothing else.
#![tactic(auto)]

#[cfg(test)]
mod calls;
#[cfg(test)]
mod parts;
#[cfg(test)]
mod passes;
#[cfg(test)]
mod tables;
#[cfg(test)]
mod threads;
