//! The query of a whole job, evaluated once over its records: a plain, slow program beside the engine, to compare it with.
#![tactic(auto)]

mod aggregates;
mod answers;
mod groups;
mod item;
mod joins;
mod parts;
mod printing;
mod record;
mod rows;
mod spans;
mod streams;
mod tables;
mod whole;

pub use groups::Groups;
pub use record::JobRecord;
pub use rows::Rows;
pub use spans::Spans;
pub use whole::evaluate;
