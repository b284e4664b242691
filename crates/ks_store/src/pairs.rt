//! Pairs in a tree, by their keys.
ghost use Rattle.std.specs.Prelude.{◌≡◌, ℕ, List, IfOk, OnOk, OnErr, option_map, length, not, T, ◌==◌};
ghost use Rattle.std.specs.List.{filter, starts_with};
ghost use Rattle.std.specs.Ordering.{eq_by_cmp};
ghost use Rattle.std.specs.FinMap.Entries.{find, put, where_key, is_sorted};
ghost use Rattle.ks_def_runs.specs.Bytes.{by_bytes};
ghost use Rattle.ks_store.specs.Pairs.{pairs_of, Rises};

use ks_record::Blob;
use std::alloc::{AllocError, Global};
use std::collections::BTreeMap;

pub type Pairs = BTreeMap<Vec<u8>, Vec<u8>>;

/// The value of a key; none where no pair has it.
pub fn value_at<'a>(pairs: &'a Pairs, key: &[u8]) -> Option<&'a [u8]>
    ensures { option_map (λ v. v.now) result ≡ find by_bytes key.now (pairs_of pairs.now.entries) }
{
    match pairs.get(key) {
        Some(value) => Some(value.as_slice()),
        None => None,
    }
}

/// Gives a key a value, in place of the one that it had. After want of memory the pairs are as before.
pub fn set_at(pairs: &mut Pairs, key: Vec<u8>, value: Vec<u8>) -> Result<(), AllocError>
    ensures ok { OnOk result (pairs_of pairs.new.entries
        ≡ put by_bytes key.items value.items (pairs_of pairs.old.entries)) }
    ensures err { OnErr result (pairs_of pairs.new.entries ≡ pairs_of pairs.old.entries) }
    ensures rises { Rises (pairs_of pairs.new.entries) }
{
    pairs.insert(key, value)?;
    Ok(())
}

/// Takes a key's pair out, where there is one.
pub fn take_away(pairs: &mut Pairs, key: &[u8])
    requires { Rises (pairs_of pairs.old.entries) }
    ensures gone { pairs_of pairs.new.entries
        ≡ where_key by_bytes (λ k. not (eq_by_cmp by_bytes key.now k))
        (pairs_of pairs.old.entries) }
    ensures rises { Rises (pairs_of pairs.new.entries) }
{
    pairs.remove(key);
}

/// Copies of the pairs whose key begins with these bytes, in order of keys; looks at every pair. Only want of memory stops it.
pub fn pairs_with(
    alloc: Global,
    pairs: &Pairs,
    front: &[u8],
) -> Result<Vec<(Blob, Blob)>, AllocError>
    ensures { IfOk result (λ v. v.items ≡ filter (λ e. starts_with ◌==◌ e.0 front.now)
        (pairs_of pairs.now.entries)) }
{
    let mut found = Vec::new(alloc);
    for (key, value) in pairs {
        if key.starts_with(front) {
            let key = Blob::from_slice(alloc, key.as_slice())?;
            let value = Blob::from_slice(alloc, value.as_slice())?;
            found.push((key, value))?;
        }
    }
    Ok(found)
}

/// Copies of the pairs whose key begins with these bytes, in order of keys; looks up the first key that isn't below them, and stops
/// at the first that doesn't begin so. Only want of memory stops it before.
pub fn pairs_from(
    alloc: Global,
    pairs: &Pairs,
    front: &[u8],
) -> Result<Vec<(Blob, Blob)>, AllocError>
    ensures { IfOk result (λ v. v.items ≡ filter (λ e. starts_with ◌==◌ e.0 front.now)
        (pairs_of pairs.now.entries)) }
{
    let start = Vec::from_slice(alloc, front)?;
    let mut found = Vec::new(alloc);
    for (key, value) in pairs.range(&start..) {
        if !key.starts_with(front) {
            return Ok(found);
        }
        let key = Blob::from_slice(alloc, key.as_slice())?;
        let value = Blob::from_slice(alloc, value.as_slice())?;
        found.push((key, value))?;
    }
    Ok(found)
}
