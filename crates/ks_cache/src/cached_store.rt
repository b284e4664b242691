//! A store with a cache.
ghost use Rattle.std.specs.Prelude.{◌≡◌, ◌⊎◌, ◌≤◌, [], length, IfOk, IfErr, OnOk, OnErr};
ghost use Rattle.ks_def_runs.specs.FinMap as map;
ghost use Rattle.ks_def_runs.specs.Pairs.{ArePairs};
ghost use Rattle.ks_cache.specs.Lists.{overlaid, without, put_cached, put_through};
ghost use Rattle.ks_cache.specs.Cached.{cached_store, map_of};

use crate::overlay::{lay_cached, lay_pairs};
use crate::pairs::{
    Cache, count_off, count_on, make_room, put_first, take_out, value_in, write_all,
};
use ks_record::Blob;
use ks_restoring::RestoringStore;
use ks_store::{KvStore, PlainStore};
use lru::LruCache;
use std::alloc::{AllocError, AllocFailed, Global};
use std::marker::Model;
use std::num::NonZeroUsize;

/// A store whose writes are held back in a list of at most so many pairs, the newest first; the last is written through
/// where there are more.
#[derive(Drop)]
pub struct CachedStore<S: KvStore> {
    alloc: Global,
    inner: S,
    cache: Cache,
    // How many keys the map has.
    count: usize,
}

impl<S: KvStore> Model for CachedStore<S> {
    ghost use Rattle.ks_store.specs.Pairs.{pairs_of};
    ghost use Rattle.ks_cache.specs.Cached.{Cached, cached_store, cached_code, IsKept};

    ghost Value = { Cached S };

    ghost coded = { cached_code S.code };

    ghost view = { λ c. cached_store c.inner (pairs_of c.cache.entries) c.cache.cap };

    ghost invariant = { λ c. IsKept S.contents c.inner (pairs_of c.cache.entries) c.count };
}

impl<S: KvStore> CachedStore<S> {
    /// A store with an empty cache of at most so many pairs. On want of memory the store comes back.
    pub fn new(alloc: Global, inner: S, capacity: u32) -> Result<CachedStore<S>, AllocFailed<S>>
        requires { 1 ≤ capacity }
        ensures view { IfOk result (λ c. c ≡ cached_store inner [] capacity) }
        ensures err { IfErr result (λ e. e.value ≡ inner) }
    {
        let Some(most) = NonZeroUsize::new(capacity as usize) else {
            unreachable!()
        };
        let Ok(cache) = LruCache::sparse(alloc, most) else {
            return Err(AllocFailed { value: inner });
        };
        let count = inner.len();
        Ok(CachedStore {
            alloc,
            inner,
            cache,
            count,
        })
    }

    /// How many pairs are cached. Takes no memory.
    pub fn cached(&self) -> usize
        ensures { result ≡ length self.now.cached }
    {
        self.cache.len()
    }

    /// The store without what is cached. Takes no memory.
    pub fn inner(&self) -> &S
        ensures { result.now ≡ self.now.inner }
    {
        &self.inner
    }

    /// The store, where nothing is cached. Takes no memory.
    pub fn into_inner(self) -> S
        requires { self.cached ≡ [] }
        ensures { result ≡ self.inner }
    {
        self.inner
    }

    /// Writes all that is cached through. After want of memory a part of it was written, and the map is as before.
    pub fn flush(&mut self) -> Result<(), AllocError>
        ensures cached { OnOk result (self.new.cached ≡ []) }
        ensures inner { OnOk result (S.contents self.new.inner ≡ map_of S.contents self.old) }
        ensures map { map_of S.contents self.new ≡ map_of S.contents self.old }
        ensures capacity { self.new.capacity ≡ self.old.capacity }
    {
        write_all(&mut self.cache, &mut self.inner)
    }
}

impl CachedStore<RestoringStore> {
    /// Its keys and values are bytes, as a fact for the calls that follow; does nothing.
    pub fn holds_bytes(&self)
        ensures { ArePairs (map.entries (map_of (λ s. s) self.now)) }
    {
        self.inner.holds_bytes();
    }
}

impl<S: KvStore> KvStore for CachedStore<S> {
    ghost contents = { map_of S.contents };

    fn get(&self, key: &[u8]) -> Option<&[u8]> {
        match value_in(&self.cache, key) {
            Some(value) => Some(value),
            None => self.inner.get(key),
        }
    }

    fn put(&mut self, key: &[u8], value: &[u8]) -> Result<(), AllocError>
        ensures ok { OnOk result (map_of S.contents self.new
            ≡ map.insert (map_of S.contents self.old) key.now value.now) }
        ensures err { OnErr result (map_of S.contents self.new ≡ map_of S.contents self.old) }
        ensures cached { OnOk result (self.new.cached
            ≡ put_cached self.old.capacity key.now value.now self.old.cached) }
        ensures through { OnOk result (S.contents self.new.inner
            ≡ overlaid (put_through self.old.capacity key.now value.now self.old.cached)
            (S.contents self.old.inner)) }
        ensures kept { OnErr result ((self.new.cached ≡ self.old.cached)
            × ((S.contents self.new.inner ≡ S.contents self.old.inner)
            ⊎ (S.contents self.new.inner
            ≡ overlaid (put_through self.old.capacity key.now value.now self.old.cached)
            (S.contents self.old.inner)))) }
        ensures capacity { self.new.capacity ≡ self.old.capacity }
    {
        let is_there = self.get(key).is_some();
        let count = count_on(self.count, is_there)?;
        let first = Vec::from_slice(self.alloc, key)?;
        let newest = Vec::from_slice(self.alloc, value)?;
        make_room(&self.cache, &mut self.inner, key)?;
        put_first(&mut self.cache, first, newest)?;
        self.count = count;
        Ok(())
    }

    fn delete(&mut self, key: &[u8])
        ensures map { map_of S.contents self.new ≡ map.remove (map_of S.contents self.old) key.now }
        ensures cached { self.new.cached ≡ without key.now self.old.cached }
        ensures through { S.contents self.new.inner ≡ map.remove (S.contents self.old.inner)
            key.now }
        ensures capacity { self.new.capacity ≡ self.old.capacity }
    {
        let is_there = self.get(key).is_some();
        self.count = count_off(self.count, is_there);
        take_out(&mut self.cache, key);
        self.inner.delete(key);
    }

    fn prefix(&self, front: &[u8]) -> Result<Vec<(Blob, Blob)>, AllocError> {
        let mut merged = PlainStore::new(self.alloc);
        lay_pairs(&mut merged, self.inner.prefix(front)?)?;
        lay_cached(&mut merged, &self.cache, front)?;
        merged.prefix(front)
    }

    fn len(&self) -> usize {
        self.count
    }
}
