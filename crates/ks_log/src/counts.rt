//! How many records each producer sent to a partition in each epoch.
ghost use Rattle.std.specs.Prelude.{◌≡◌, ◌<◌, length, vec_capacity};
ghost use Rattle.ks_log.specs.Index.{counted, count_place, counted_put};

/// So many records of one producer and epoch.
#[derive(Clone, Copy, Drop)]
pub struct Counted {
    pub producer: u8,
    pub epoch: u64,
    pub count: u64,
}

/// The kept count of a producer and epoch, 0 where none is kept.
pub fn count_of(counts: &[Counted], w: u8, epoch: u64) -> u64
    ensures { result ≡ counted w epoch counts.now }
{
    for kept in counts {
        if w == kept.producer && epoch == kept.epoch {
            return kept.count;
        }
    }
    0
}

/// Where a count is kept, or how many are kept.
fn place_of(counts: &[Counted], w: u8, epoch: u64) -> usize
    ensures { result ≡ count_place w epoch counts.now }
{
    let mut at: usize = 0;
    for kept in counts {
        if w == kept.producer && epoch == kept.epoch {
            return at;
        }
        at += 1;
    }
    at
}

/// A producer and epoch have this count from now on. Takes no memory.
pub fn put_count(counts: &mut Vec<Counted>, w: u8, epoch: u64, count: u64)
    requires { length counts.old.items < vec_capacity counts.old }
    ensures { counts.new.items ≡ counted_put w epoch count counts.old.items }
{
    let at = place_of(counts.as_slice(), w, epoch);
    if at >= counts.len() {
        counts.push_reserved(Counted {
            producer: w,
            epoch,
            count,
        });
        return;
    }
    let kept = &mut counts[at];
    kept.count = count;
}
