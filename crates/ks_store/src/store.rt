//! What a store is, however it is kept.
ghost use Rattle.std.specs.Prelude.{◌≡◌, IfOk, OnOk, OnErr, option_map};
ghost use Rattle.ks_def_runs.specs.Bytes.{Store};
ghost use Rattle.ks_def_runs.specs.FinMap as map;
ghost use Rattle.ks_def_runs.specs.Prefixes.{pairs_under};

use ks_record::Blob;
use std::alloc::AllocError;

/// A finite map from bytes to bytes.
pub trait KvStore {
    // The map, however it is kept.
    ghost contents: { Self → Store };

    /// The value of a key; none where the store has no such key. Takes no memory.
    fn get(&self, key: &[u8]) -> Option<&[u8]>
        ensures { option_map (λ v. v.now) result ≡ map.get (contents self.now) key.now };

    /// Sets the value of a key; after want of memory the map is as before.
    fn put(&mut self, key: &[u8], value: &[u8]) -> Result<(), AllocError>
        ensures ok { OnOk result (contents self.new
            ≡ map.insert (contents self.old) key.now value.now) }
        ensures err { OnErr result (contents self.new ≡ contents self.old) };

    /// Takes a key away with its value; where there is no such key nothing changes. Takes no memory.
    fn delete(&mut self, key: &[u8])
        ensures { contents self.new ≡ map.remove (contents self.old) key.now };

    /// The pairs whose key begins so, in order of bytes.
    fn prefix(&self, front: &[u8]) -> Result<Vec<(Blob, Blob)>, AllocError>
        ensures { IfOk result (λ v. v.items ≡ pairs_under front.now (contents self.now)) };

    /// How many keys there are. Takes no memory.
    fn len(&self) -> usize
        ensures { result ≡ map.len (contents self.now) };
}
