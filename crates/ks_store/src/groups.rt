//! The keys that begin with a length, by what they so begin with: a small tree for each such front, and none for a key that is alone.
ghost use Rattle.std.specs.Prelude.{◌≡◌, ◌≤◌, [], IfOk, IfSome, OnOk, OnErr, Some, true, false, is_some, length, option_copied, option_map};
ghost use Rattle.ks_store.specs.Pairs.{pairs_of, Rises};
ghost use Rattle.ks_store.specs.Groups.{front_end, front_in, is_some_of, keys_in, with_key, keys_without, groups_of, listed_under, is_only_key, IsGroup, AreGroups, ListSame, ListSameBut};
ghost use Rattle.ks_store.specs.Hashing.{start_of};

use crate::hashing::KeyHashing;
use crate::pairs::{Pairs, pairs_from, set_at, take_away};
use ks_record::Blob;
use std::alloc::{AllocError, Global};
use std::collections::{BTreeMap, HashMap};

/// The keys of a front: one, or several in order, each with nothing.
#[derive(Drop)]
pub enum Group {
    One(Vec<u8>),
    Many(Pairs),
}

pub type Groups = HashMap<Vec<u8>, Group, KeyHashing>;

// Where the front of a key ends: behind a length of four bytes and as many bytes as it says; none where it has no such front.
fn front_end(key: &[u8]) -> Option<usize>
    ensures end { result ≡ front_end key.now }
    ensures within { IfSome result (λ n. n ≤ length key.now) }
{
    if key.len() < 4 {
        return None;
    }
    let (front, rest) = key.split_at(4);
    let count = u32::from_be_bytes([front[0], front[1], front[2], front[3]]) as usize;
    if count <= rest.len() {
        Some(count + 4)
    } else {
        None
    }
}

/// The front of a key, where it has one.
pub fn front_in(key: &[u8]) -> Option<&[u8]>
    ensures { option_map (λ f. f.now) result ≡ front_in key.now }
{
    let end = front_end(key)?;
    Some(&key[..end])
}

/// Whether these bytes are a front, and nothing behind it.
pub fn is_front(bytes: &[u8]) -> bool
    ensures { result ≡ is_some_of (front_end bytes.now) (length bytes.now) }
{
    match front_end(bytes) {
        Some(end) => end == bytes.len(),
        None => false,
    }
}

// Both of two keys, in order.
fn both_keys(alloc: Global, one: &[u8], other: Vec<u8>) -> Result<Pairs, AllocError>
    ensures { IfOk result (λ p. pairs_of p.entries
        ≡ with_key other.items (with_key one.now [])) }
{
    let key = Vec::from_slice(alloc, one)?;
    let mut pairs = BTreeMap::new(alloc);
    set_at(&mut pairs, key, Vec::new(alloc))?;
    set_at(&mut pairs, other, Vec::new(alloc))?;
    Ok(pairs)
}

// One more key of a front. After want of memory the group is as before.
fn add_key(alloc: Global, group: &mut Group, key: Vec<u8>) -> Result<(), AllocError>
    ensures ok { OnOk result (keys_in group.new ≡ with_key key.items (keys_in group.old)) }
    ensures err { OnErr result (keys_in group.new ≡ keys_in group.old) }
{
    let pairs = match group {
        Group::Many(pairs) => return set_at(pairs, key, Vec::new(alloc)),
        Group::One(one) => both_keys(alloc, one, key)?,
    };
    *group = Group::Many(pairs);
    Ok(())
}

// Lists a key by its front. After want of memory the same keys are listed as before.
fn list_under(
    alloc: Global,
    groups: &mut Groups,
    front: &[u8],
    key: &[u8],
) -> Result<(), AllocError>
    requires front { Some front.now ≡ front_in key.now }
    requires groups { AreGroups (groups_of groups.old.entries) }
    ensures groups { AreGroups (groups_of groups.new.entries) }
    ensures ok { OnOk result (ListSameBut key.now true (groups_of groups.old.entries)
        (groups_of groups.new.entries)) }
    ensures err { OnErr result (ListSame (groups_of groups.old.entries)
        (groups_of groups.new.entries)) }
    ensures start { start_of groups.new ≡ start_of groups.old }
{
    let copy = Vec::from_slice(alloc, key)?;
    if let Some(group) = groups.get_mut(front) {
        return add_key(alloc, group, copy);
    }
    let front = Vec::from_slice(alloc, front)?;
    groups.insert(front, Group::One(copy))?;
    Ok(())
}

/// Lists a key, where it has a front. After want of memory the same keys are listed as before.
pub fn list_key(alloc: Global, groups: &mut Groups, key: &[u8]) -> Result<(), AllocError>
    requires { AreGroups (groups_of groups.old.entries) }
    ensures groups { AreGroups (groups_of groups.new.entries) }
    ensures ok { OnOk result (ListSameBut key.now (is_some (front_in key.now))
        (groups_of groups.old.entries) (groups_of groups.new.entries)) }
    ensures err { OnErr result (ListSame (groups_of groups.old.entries)
        (groups_of groups.new.entries)) }
    ensures start { start_of groups.new ≡ start_of groups.old }
{
    match front_in(key) {
        Some(front) => list_under(alloc, groups, front, key),
        None => Ok(()),
    }
}

// Whether the key is the only one of its group.
fn is_only(group: Option<&Group>, key: &[u8]) -> bool
    ensures { result ≡ is_only_key (option_copied group.entry) key.now }
{
    match group {
        Some(Group::One(own)) => own.as_slice() == key,
        Some(Group::Many(_)) => false,
        None => false,
    }
}

// A key of a group no longer; one that is alone stays.
fn take_key(group: &mut Group, key: &[u8])
    requires { Rises (keys_in group.old) }
    ensures { keys_in group.new ≡ keys_without key.now group.old }
{
    match group {
        Group::Many(pairs) => take_away(pairs, key),
        Group::One(_) => {}
    }
}

// Lists a key with this front no longer.
fn unlist_under(groups: &mut Groups, front: &[u8], key: &[u8])
    requires front { Some front.now ≡ front_in key.now }
    requires groups { AreGroups (groups_of groups.old.entries) }
    ensures groups { AreGroups (groups_of groups.new.entries) }
    ensures gone { ListSameBut key.now false (groups_of groups.old.entries)
        (groups_of groups.new.entries) }
    ensures start { start_of groups.new ≡ start_of groups.old }
{
    if is_only(groups.get(front), key) {
        groups.remove(front);
        return;
    }
    match groups.get_mut(front) {
        Some(group) => take_key(group, key),
        None => {}
    }
}

/// Lists a key no longer; the others are listed as before.
pub fn unlist_key(groups: &mut Groups, key: &[u8])
    requires { AreGroups (groups_of groups.old.entries) }
    ensures groups { AreGroups (groups_of groups.new.entries) }
    ensures gone { ListSameBut key.now false (groups_of groups.old.entries)
        (groups_of groups.new.entries) }
    ensures start { start_of groups.new ≡ start_of groups.old }
{
    if let Some(front) = front_in(key) {
        unlist_under(groups, front, key);
    }
}

// The keys of a group, whose front this is.
fn keys_of_group(
    alloc: Global,
    group: &Group,
    front: &[u8],
) -> Result<Vec<(Blob, Blob)>, AllocError>
    requires { IsGroup front.now (keys_in group.now) }
    ensures { IfOk result (λ v. v.items ≡ keys_in group.now) }
{
    match group {
        Group::Many(pairs) => pairs_from(alloc, pairs, front),
        Group::One(key) => {
            let key = Blob::from_slice(alloc, key.as_slice())?;
            let nothing = Blob::from_slice(alloc, &[])?;
            let mut keys = Vec::with_capacity(alloc, 1)?;
            keys.push((key, nothing))?;
            Ok(keys)
        }
    }
}

/// The keys that are listed of a front, in order, each with nothing.
pub fn keys_under(
    alloc: Global,
    groups: &Groups,
    front: &[u8],
) -> Result<Vec<(Blob, Blob)>, AllocError>
    requires { AreGroups (groups_of groups.now.entries) }
    ensures { IfOk result (λ v. v.items ≡ listed_under front.now (groups_of groups.now.entries)) }
{
    match groups.get(front) {
        Some(group) => keys_of_group(alloc, group, front),
        None => Ok(Vec::new(alloc)),
    }
}
