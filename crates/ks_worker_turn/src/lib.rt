//! The first parts of a worker's turn: it joins its group, asks for the group's status, computes an assignment where there is none, and
//! takes the replicas and tasks that are placed with it.
#![tactic(auto)]

mod assigning;
mod beginning;
mod having;
mod heeding;
mod joining;
mod lists;
mod parking;
mod placing;
mod taking;

pub use beginning::begin_turn;
pub use heeding::heed_status;
pub use joining::join_group;
pub use taking::take_places;
