//! What a command line asks for.
use crate::settings::Settings;
use ks_record::{Key, Name};

/// What a command line asks for.
#[derive(Drop, Debug)]
pub enum Command {
    /// The job on the source is run.
    Run(Settings),
    /// The load job of so many orders is run.
    Load(u32, Settings),
    /// The job on the source is run, and a key of a node's store is asked for meanwhile and at the end; of a windowed count with the start
    /// of a window.
    Ask {
        node: Name,
        key: Key,
        start: Option<u64>,
        settings: Settings,
    },
    /// The output on the source is audited.
    Audit,
}
