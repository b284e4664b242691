//! Tests of the cluster: its calls with ample memory. Beside them stands the work of a task that copies, of which other tests make
//! clusters too.
#![tactic(auto)]

#[cfg(test)]
mod calls;
#[cfg(test)]
mod commit;
pub mod copying;
#[cfg(test)]
mod report;
#[cfg(test)]
mod tables;
