//! The values of nodes that a step goes through.
ghost use Rattle.std.specs.Prelude.{◌≡◌};
ghost use Rattle.ks_task_nodes.specs.Stored.{stored_in, value_view};
ghost use Rattle.ks_task_values.specs.Changes.{is_other};

use ks_task_nodes::{NewValue, StoredValue};

/// What a node that a step goes through stores at the step's key before and after it, and whether the nodes below see another row then.
#[derive(Drop)]
pub struct LiveValue<'v> {
    pub number: u8,
    pub old: Option<StoredValue<'v>>,
    pub new: NewValue<'v>,
    pub is_changed: bool,
    pub ghost told: { is_changed ≡ is_other (stored_in old) (value_view new) },
}
