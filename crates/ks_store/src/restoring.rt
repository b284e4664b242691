//! A store from its changelog.
ghost use Rattle.std.specs.Prelude.{◌≡◌, ◌≤◌, OnOk, OnErr, ℕ, List, Some, map, take, length, option_copied};
ghost use Rattle.ks_def_runs.specs.Bytes.{Store};
ghost use Rattle.ks_history.specs.Machine.{applied, latest_from};
ghost use Rattle.ks_store.specs.Restored.{records_of};

use crate::store::KvStore;
use ks_record::Rec;
use std::alloc::AllocError;

// Puts the value of a key, or deletes it where there is none.
fn apply_at<S: KvStore>(store: &mut S, key: &[u8], value: Option<&[u8]>) -> Result<(), AllocError>
    ensures ok { OnOk result (S.contents store.new
        ≡ applied (S.contents store.old) (Some key.now) (option_copied value.entry)) }
    ensures err { OnErr result (S.contents store.new ≡ S.contents store.old) }
{
    match value {
        Some(value) => store.put(key, value),
        None => {
            store.delete(key);
            Ok(())
        }
    }
}

fn apply<S: KvStore>(store: &mut S, rec: &Rec) -> Result<(), AllocError>
    ensures ok { OnOk result (S.contents store.new
        ≡ applied (S.contents store.old) rec.now.key rec.now.value) }
    ensures err { OnErr result (S.contents store.new ≡ S.contents store.old) }
{
    match rec.key() {
        Some(key) => apply_at(store, key, rec.value()),
        None => Ok(()),
    }
}

/// Applies records of a changelog, each with its offset, in order: a record with a value puts it, one without deletes its
/// key, one without a key changes nothing. After want of memory the first of them were applied, and the store is to be
/// dropped.
pub fn restore<S: KvStore>(store: &mut S, recs: &[(u64, Rec)]) -> Result<(), AllocError>
    ensures ok { OnOk result (S.contents store.new
        ≡ latest_from (S.contents store.old) (records_of recs.now)) }
    ensures err { OnErr result ((n : ℕ) × (n ≤ length recs.now)
        × (S.contents store.new ≡ latest_from (S.contents store.old)
        (take n (records_of recs.now)))) }
{
    for (_, rec) in recs {
        apply(store, rec)?;
    }
    Ok(())
}
