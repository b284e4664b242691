//! Tables as they are printed.
use ks_record::{Key, Name, Seq};
use ks_row::Row;

/// A key's row; of a windowed count, one for each window.
#[derive(Drop)]
pub struct TableRow {
    pub key: Key,
    /// Where the window starts, in milliseconds; none for a table without windows.
    pub start: Option<u64>,
    pub row: Row,
}

/// The table of a node, by its name.
#[derive(Drop)]
pub struct Table {
    pub name: Name,
    /// In the order of printing.
    pub rows: Seq<TableRow>,
}
