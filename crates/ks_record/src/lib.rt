//! Records, and what they are made of: bytes and lists that are shared, keys, names and texts, partitions and tasks, assignments.
#![tactic(auto)]

mod assignment;
mod builder;
mod chars;
mod equal;
mod lists;
mod record;
mod records;
mod texts;

pub use assignment::{Assignment, Marker, Refused};
pub use builder::BlobBuilder;
pub use equal::{equal_bytes, equal_numbers};
pub use lists::{Blob, Seq};
pub use record::{PartId, Rec, TaskId};
pub use records::{PlacedRecords, RecordList, RecordRef, SharedRecords};
pub use texts::{Key, Name, Text, utf8_text};
