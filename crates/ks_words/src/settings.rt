//! How a job is run.
ghost use Rattle.std.specs.Prelude.{◌≡◌};
ghost use Rattle.ks_words.specs.Grammar.{usual};

/// How a job is run: by how many instances and threads each, with how many standbys of each task, after how many records
/// that were taken and not committed a commit is due, with which seed of chaos, stopped after how many turns, how many pairs each store
/// holds back, and whether the journal is printed.
#[derive(Clone, Copy, PartialEq, Eq, Debug)]
pub struct Settings {
    pub instances: u8,
    pub threads: u8,
    pub standbys: u8,
    pub interval: u32,
    pub chaos: Option<u64>,
    pub stop: Option<u64>,
    pub cache: u32,
    pub journal: bool,
}

impl Settings {
    /// One instance of one thread, no standby, a commit at 100 records, no chaos, no stop, nothing held back, and no journal printed.
    pub fn usual() -> Settings
        ensures { result ≡ usual }
    {
        Settings {
            instances: 1,
            threads: 1,
            standbys: 0,
            interval: 100,
            chaos: None,
            stop: None,
            cache: 0,
            journal: false,
        }
    }
}
