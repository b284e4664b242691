//! Tests of workers on one thread, each of which takes a turn or does an act where a scene says so. The crate has nothing else.
#![tactic(auto)]

#[cfg(test)]
mod actors;
#[cfg(test)]
mod crews;
#[cfg(test)]
mod cuts;
#[cfg(test)]
mod jobs;
#[cfg(test)]
mod plays;
#[cfg(test)]
mod scenes;
#[cfg(test)]
mod telling;
#[cfg(test)]
mod workers;
