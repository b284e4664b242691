//! Pairs that are laid over a store.
ghost use Rattle.std.specs.Prelude.{◌≡◌, ◌∷◌, [], OnOk};
ghost use Rattle.ks_store.specs.Pairs.{pairs_of};
ghost use Rattle.ks_cache.specs.Lists.{overlaid, under};

use crate::pairs::Cache;
use ks_record::Blob;
use ks_store::{KvStore, PlainStore};
use std::alloc::AllocError;

/// Lays pairs over a store: of two with one key the first counts.
pub fn lay_pairs(store: &mut PlainStore, pairs: Vec<(Blob, Blob)>) -> Result<(), AllocError>
    ensures { OnOk result (store.new ≡ overlaid pairs.items store.old) }
{
    let mut rest = pairs;
    while let Some((key, value)) = rest.pop() {
        store.put(key.as_slice(), value.as_slice())?;
    }
    Ok(())
}

// Lays a pair over a store, where its key begins so.
fn lay_under(
    store: &mut PlainStore,
    front: &[u8],
    key: &[u8],
    value: &[u8],
) -> Result<(), AllocError>
    ensures { OnOk result (store.new
        ≡ overlaid (under front.now ((key.now, value.now) ∷ [])) store.old) }
{
    if key.starts_with(front) {
        return store.put(key, value);
    }
    Ok(())
}

/// Lays what is cached over a store, of that the pairs whose key begins so; looks at every pair.
pub fn lay_cached(store: &mut PlainStore, cache: &Cache, front: &[u8]) -> Result<(), AllocError>
    ensures { OnOk result (store.new
        ≡ overlaid (under front.now (pairs_of cache.now.entries)) store.old) }
{
    let mut rest = cache.iter();
    while let Some((key, value)) = rest.next_back() {
        lay_under(store, front, key.as_slice(), value.as_slice())?;
    }
    Ok(())
}
