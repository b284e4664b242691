//! The changelogs of a task, and feeding them.
ghost use Rattle.std.specs.Prelude.{◌≡◌, IfOk, OnOk, map};
ghost use Rattle.ks_cache.specs.Kept.{empty_kept};
ghost use Rattle.ks_standby.specs.Replicas.{positions_in, changelog_place, fed, fed_in};

use ks_cache::{Changelog, TaskStore};
use ks_record::Rec;
use std::alloc::{AllocError, Global};

/// New changelogs, with empty stores, whose hashes of keys begin with this seed.
pub fn new_changelogs(
    alloc: Global,
    numbers: &[u16],
    seed: u64,
) -> Result<Vec<Changelog>, AllocError>
    ensures { IfOk result (λ v. v.items ≡ map
        (λ number. record { topic = number; position = 0; store = empty_kept }) numbers.now) }
{
    let mut changelogs = Vec::new(alloc);
    for number in numbers {
        changelogs.push(Changelog {
            topic: *number,
            position: 0,
            store: TaskStore::new(alloc, seed),
        })?;
    }
    Ok(changelogs)
}

/// The position in a changelog; 0 where there is no such one. Takes no memory.
pub fn position_in_changelog(changelogs: &[Changelog], topic: u16) -> u64
    ensures { result ≡ positions_in changelogs.now topic }
{
    let mut rest = changelogs;
    while let [changelog, more @ ..] = rest {
        if topic == changelog.topic {
            return changelog.position;
        }
        rest = more;
    }
    0
}

// The place of the first changelog of a topic; past the last where there is none.
fn place_of(changelogs: &[Changelog], topic: u16) -> usize
    ensures { result ≡ changelog_place changelogs.now topic }
{
    let mut at = 0;
    let mut rest = changelogs;
    while let [changelog, more @ ..] = rest {
        if topic == changelog.topic {
            return at;
        }
        rest = more;
        at += 1;
    }
    at
}

fn feed_changelog(
    changelog: &mut Changelog,
    recs: Vec<(u64, Rec)>,
    next: u64,
) -> Result<(), AllocError>
    ensures { OnOk result (changelog.new ≡ fed recs.items next changelog.old) }
{
    changelog.store.restore(recs)?;
    changelog.position = next;
    Ok(())
}

/// Feeds the first changelog of a topic records of its partition, from where it goes on at `next`. After want of memory the stores are to be
/// dropped.
pub fn feed_changelogs(
    changelogs: &mut Vec<Changelog>,
    topic: u16,
    recs: Vec<(u64, Rec)>,
    next: u64,
) -> Result<(), AllocError>
    ensures { OnOk result (changelogs.new.items
        ≡ fed_in topic recs.items next changelogs.old.items) }
{
    let at = place_of(changelogs.as_slice(), topic);
    if at < changelogs.len() {
        feed_changelog(&mut changelogs[at], recs, next)?;
    }
    Ok(())
}
