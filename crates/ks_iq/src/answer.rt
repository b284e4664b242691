//! What is answered.
use ks_row::Row;

/// The row of a key, and the position in its changelog at which it is the row.
#[derive(Drop)]
pub struct Answer {
    pub value: Option<Row>,
    pub position: u64,
}
