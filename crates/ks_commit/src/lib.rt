//! What one worker does to publish the work of several tasks in one transaction (KIP-98, KIP-447).
#![tactic(auto)]

mod accepted;
mod committing;
pub mod laws;
mod markers;
mod numbers;
mod publisher;
mod sending;
mod work;

pub use committing::commit;
pub use markers::write_markers;
pub use numbers::{number_at, with_next_number};
pub use publisher::Publisher;
pub use work::Frozen;
