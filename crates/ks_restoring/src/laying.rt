//! Pairs that are laid over a store.
ghost use Rattle.std.specs.Prelude.{◌≡◌, OnOk};
ghost use Rattle.ks_restoring.specs.Waiting.{overlaid};

use ks_record::Blob;
use ks_store::{KvStore, PlainStore};
use std::alloc::AllocError;

/// Lays pairs over a store: of two with one key the first counts.
pub fn lay_pairs(store: &mut PlainStore, pairs: Vec<(Blob, Blob)>) -> Result<(), AllocError>
    ensures { OnOk result (store.new ≡ overlaid pairs.items store.old) }
{
    let mut rest = pairs;
    while let Some((key, value)) = rest.pop() {
        store.put(key.as_slice(), value.as_slice())?;
    }
    Ok(())
}
