//! What all lines of a job have in common, their members and their faults, and the line of a record: once JSON has read it, the
//! record, or the first thing that is wrong.
#![tactic(auto)]

mod fault;
mod laws;
mod members;
mod pieces;
mod plain;
mod record;
mod show;

pub use fault::{JobKind, LineError, bad_number, bad_shape, blob_of, too_many};
pub use laws::least_unknown_is_named;
pub use members::{Form, Kind, read_integer, read_integer_of, read_member, read_object, read_text};
pub use plain::read_plain;
pub use record::{Input, read_input};
pub use show::{fault_text, name_text};
