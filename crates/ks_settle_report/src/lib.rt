//! What a cluster has come to: whether it is settled, and what it lacks where it isn't.
#![tactic(auto)]

pub mod collision_search;
mod collisions;
mod findings;
mod joins;
mod lags;
mod pairs;
mod reports;
mod search;

pub use collisions::first_in_parts;
pub use findings::Report;
pub use joins::{JoinCollision, first_in_joins};
pub use lags::Lag;
pub use pairs::Collision;
pub use reports::report;
pub use search::first_collision;
