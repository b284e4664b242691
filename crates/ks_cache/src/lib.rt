//! A record cache: a store whose newest writes are held back in a bounded list; and the changelogs of a task, with their stores.
#![tactic(auto)]

mod cached_store;
mod calls;
mod changelogs;
mod overlay;
mod pairs;
mod task_store;

pub use cached_store::CachedStore;
pub use calls::run_cached;
pub use changelogs::{Changelog, find_bytes};
pub use task_store::KeptStore;

/// The store that tasks and replicas keep.
pub type TaskStore = KeptStore;
