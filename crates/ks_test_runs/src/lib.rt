//! Tests over the top call: worked runs, with devices that fail. The crate has nothing else; whole jobs stand in tests/jobs.
#![tactic(auto)]

#[cfg(test)]
mod cuts;
#[cfg(test)]
mod devices;
#[cfg(test)]
mod endless;
#[cfg(test)]
mod feeding;
#[cfg(test)]
mod meeting;
#[cfg(test)]
mod rows;
#[cfg(test)]
mod runs;
#[cfg(test)]
mod workers;
