//! Where reading stands.
ghost use Rattle.std.specs.Prelude.{◌≤◌, ◌+◌};

use ks_record::{Name, Seq};

/// Where reading stands at the start of a line.
#[derive(Drop)]
pub struct Place {
    /// From 1.
    pub line: u64,
    /// The bytes before it.
    pub start: u64,
    /// The names of the topics, once the topology was read.
    pub topics: Option<Seq<Name>>,
    /// The records before it.
    pub records: u64,
    ghost within: { start ≤ 67108864 },
    ghost numbered: { line ≤ start + 1 },
}
