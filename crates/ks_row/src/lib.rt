//! Rows, which have one spelling in bytes. What records are made of (`ks_record`) is handed on.
#![tactic(auto)]

mod codec;
mod field_ref;
mod reading;
mod row;
mod validity;

pub use codec::{decode, encode, reading_undoes_spelling, reread, spelling_is_injective};
pub use field_ref::FieldRef;
pub use ks_record::{Assignment, Blob, Key, Marker, Name, PartId, Rec, Refused, Seq, TaskId, Text};
pub use reading::{read_bytes, read_i64, read_u32, read_u64};
pub use row::{Change, Field, Row, key_of_field};
pub use validity::{is_below, is_name, is_text, spells_row};
