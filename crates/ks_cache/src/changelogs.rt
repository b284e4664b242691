//! The changelogs of a task, with their stores.
ghost use Rattle.std.specs.Prelude.{◌≡◌, option_map};
ghost use Rattle.ks_def_runs.specs.FinMap as fin;
ghost use Rattle.ks_cache.specs.Changelogs.{stores_in};

use crate::TaskStore;
use ks_store::KvStore;

/// A changelog by number, the position in it, and the store that it backs.
#[derive(Drop)]
pub struct Changelog {
    pub topic: u16,
    pub position: u64,
    pub store: TaskStore,
}

/// The bytes at a key of a changelog's store; none where there is no such changelog. Takes no memory.
pub fn find_bytes<'a>(changelogs: &'a [Changelog], number: u16, key: &[u8]) -> Option<&'a [u8]>
    ensures { option_map (λ v. v.now) result ≡ fin.get (stores_in changelogs.now number) key.now }
{
    let mut rest = changelogs;
    while let [changelog, more @ ..] = rest {
        if number == changelog.topic {
            return changelog.store.get(key);
        }
        rest = more;
    }
    None
}
