//! The assignor: which worker of a group runs which task, and where standbys and warmups of a task stand.
#![tactic(auto)]

mod assigning;
mod backing;
mod balancing;
mod clients;
mod conditions;
mod counting;
mod lags;
mod loads;
mod placing;
mod points;
mod spreading;

pub use assigning::{assign, check, good_is_a_test};
pub use clients::{Client, Held, Placing, Wants};
pub use conditions::{are_clients, are_tasks_apart};
pub use counting::load_of;
pub use ks_record::Assignment;
pub use lags::{client_lag, warm_is_small_lag};
