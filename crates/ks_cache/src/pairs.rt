//! The pairs of a cache, and writing them through.
ghost use Rattle.std.specs.Prelude.{◌≡◌, ◌+◌, ◌-◌, ℕ, List, true, false, [], drop, length, option_map, cond, IfOk, OnOk, OnErr, is_some};
ghost use Rattle.std.specs.FinMap.Entries.{find};
ghost use Rattle.ks_def_runs.specs.Bytes.{by_bytes};
ghost use Rattle.ks_def_runs.specs.Pairs.{ArePairs};
ghost use Rattle.ks_store.specs.Pairs.{pairs_of};
ghost use Rattle.ks_cache.specs.Lists.{overlaid, without, put_cached, put_through};

use ks_store::KvStore;
use lru::LruCache;
use std::alloc::AllocError;

/// Pairs in the order of their writing, the newest first.
pub type Cache = LruCache<Vec<u8>, Vec<u8>>;

/// The value of a key; none where it isn't cached. Takes no memory.
pub fn value_in<'a>(cache: &'a Cache, key: &[u8]) -> Option<&'a [u8]>
    ensures { option_map (λ v. v.now) result
        ≡ find by_bytes key.now (pairs_of cache.now.entries) }
{
    match cache.peek(key) {
        Some(value) => Some(value.as_slice()),
        None => None,
    }
}

/// Takes a key out. Takes no memory.
pub fn take_out(cache: &mut Cache, key: &[u8])
    ensures pairs { pairs_of cache.new.entries ≡ without key.now (pairs_of cache.old.entries) }
    ensures cap { cache.new.cap ≡ cache.old.cap }
{
    // No key is there twice.
    let _len = cache.len();
    cache.pop(key);
}

/// A pair goes to the front; what is then too much is let go. After want of memory the pairs are as before.
pub fn put_first(cache: &mut Cache, key: Vec<u8>, value: Vec<u8>) -> Result<(), AllocError>
    ensures ok { OnOk result (pairs_of cache.new.entries
        ≡ put_cached cache.old.cap key.items value.items (pairs_of cache.old.entries)) }
    ensures err { OnErr result (pairs_of cache.new.entries ≡ pairs_of cache.old.entries) }
    ensures cap { cache.new.cap ≡ cache.old.cap }
{
    let _len = cache.len();
    match cache.put(key, value) {
        Ok(_old) => Ok(()),
        Err(_pair) => Err(AllocError),
    }
}

// Writes the last pair through where there is no room for one more.
fn write_last_where_full<S: KvStore>(cache: &Cache, store: &mut S) -> Result<(), AllocError>
    ensures ok { OnOk result (S.contents store.new
        ≡ overlaid (drop (cache.now.cap - 1) (pairs_of cache.now.entries))
        (S.contents store.old)) }
    ensures err { OnErr result (S.contents store.new ≡ S.contents store.old) }
{
    if cache.len() < cache.cap().get() {
        return Ok(());
    }
    match cache.peek_lru() {
        Some((key, value)) => store.put(key.as_slice(), value.as_slice()),
        None => Ok(()),
    }
}

/// Writes through what a put of this key leaves no room for. After want of memory the store is as before.
pub fn make_room<S: KvStore>(cache: &Cache, store: &mut S, key: &[u8]) -> Result<(), AllocError>
    ensures ok { (value : List ℕ) → OnOk result (S.contents store.new
        ≡ overlaid (put_through cache.now.cap key.now value (pairs_of cache.now.entries))
        (S.contents store.old)) }
    ensures err { OnErr result (S.contents store.new ≡ S.contents store.old) }
    ensures same { overlaid (pairs_of cache.now.entries) (S.contents store.new)
        ≡ overlaid (pairs_of cache.now.entries) (S.contents store.old) }
{
    let _len = cache.len();
    if value_in(cache, key).is_some() {
        return Ok(());
    }
    write_last_where_full(cache, store)
}

/// Writes the last pair through; whether there was one.
pub fn write_last<S: KvStore>(cache: &mut Cache, store: &mut S) -> Result<bool, AllocError>
    ensures none { IfOk result (λ more. more ≡ false → pairs_of cache.new.entries ≡ []) }
    ensures less { IfOk result (λ more. more ≡ true
        → length cache.new.entries + 1 ≡ length cache.old.entries) }
    ensures same { overlaid (pairs_of cache.new.entries) (S.contents store.new)
        ≡ overlaid (pairs_of cache.old.entries) (S.contents store.old) }
    ensures bytes { ArePairs (pairs_of cache.old.entries) → ArePairs (pairs_of cache.new.entries) }
    ensures cap { cache.new.cap ≡ cache.old.cap }
{
    let Some((key, value)) = cache.peek_lru() else {
        return Ok(false);
    };
    store.put(key.as_slice(), value.as_slice())?;
    cache.pop_lru();
    Ok(true)
}

/// Writes all pairs through, the last first. After want of memory a part of them was, and the map is as before.
pub fn write_all<S: KvStore>(cache: &mut Cache, store: &mut S) -> Result<(), AllocError>
    ensures none { OnOk result (pairs_of cache.new.entries ≡ []) }
    ensures same { overlaid (pairs_of cache.new.entries) (S.contents store.new)
        ≡ overlaid (pairs_of cache.old.entries) (S.contents store.old) }
    ensures bytes { ArePairs (pairs_of cache.old.entries) → ArePairs (pairs_of cache.new.entries) }
    ensures cap { cache.new.cap ≡ cache.old.cap }
{
    while write_last(cache, store)? {}
    Ok(())
}

/// With one more, where a key is new. A count of 2^64 is want of memory.
pub fn count_on(count: usize, is_there: bool) -> Result<usize, AllocError>
    ensures { IfOk result (λ n. n ≡ cond is_there count (count + 1)) }
{
    if is_there {
        return Ok(count);
    }
    count.checked_add(1).ok_or(AllocError)
}

/// With one less, where a key was there. Takes no memory.
pub fn count_off(count: usize, is_there: bool) -> usize
    ensures { result ≡ cond is_there (count - 1) count }
{
    if is_there {
        return count.saturating_sub(1);
    }
    count
}
