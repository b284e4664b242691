//! What the nodes of a task have in a step: the items that streams pass on, and what tables store at the step's key before and after it.
#![tactic(auto)]

mod changes;
mod foreign;
mod hashes;
mod items;
mod live;
mod step;
mod taken;
mod values;

pub use changes::{changed_value, is_other_row};
pub use hashes::new_hash;
pub use items::{Item, copy_key, item_at, item_into, items_of};
pub use step::{NodeValues, change_at, is_changed, live_value, new_row, node_at, stored_value};
pub use taken::Step;
pub use values::live_values;
