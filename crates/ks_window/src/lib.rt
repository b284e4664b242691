//! Windowed counts: the windows of a timestamp, and what an item changes in the store (Kafka Streams developer guide,
//! "Windowing": hopping windows with a grace period).
#![tactic(auto)]

mod counting;
mod reading;
mod windows;

pub use counting::apply;
pub use ks_plan::Window;
pub use reading::count;
pub use windows::{first_start, starts};
