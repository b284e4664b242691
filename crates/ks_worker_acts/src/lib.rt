//! A worker's acts: its tasks read, its replicas are fed, and it leaves, tells its positions, or removes another worker.
#![tactic(auto)]

mod commit;
mod dropping;
mod feeding;
mod leaving;
mod places;
mod probing;
mod reading;
mod removing;

pub use commit::{CommitEnd, commit_tasks};
pub use dropping::abort;
pub use feeding::pump;
pub use leaving::{leave, rest_tasks};
pub use places::InputPlace;
pub use probing::probe;
pub use reading::work;
pub use removing::evict;
