//! The markers of a partition.
ghost use Rattle.std.specs.Prelude.{◌≡◌, ◌+◌, ◌≤◌, ◌∷◌, ◌++◌, [], length, vec_capacity};
ghost use Rattle.ks_log.specs.Index.{marks_in, mark_among, visible_one};

use ks_history::Slot;

/// A marker of a partition.
#[derive(Clone, Copy, Drop)]
pub struct Marked {
    pub producer: u8,
    pub epoch: u64,
    pub commit: bool,
}

/// How the first of these markers that is of this producer and epoch decides.
pub fn mark_in(marks: &[Marked], w: u8, epoch: u64) -> Option<bool>
    ensures { result ≡ mark_among w epoch marks.now }
{
    for mark in marks {
        if w == mark.producer && epoch == mark.epoch {
            return Some(mark.commit);
        }
    }
    None
}

/// Whether readers get a slot that these markers follow; none where no marker completes it.
pub fn is_visible(slot: &Slot, marks: &[Marked]) -> Option<bool>
    ensures { result ≡ visible_one slot.now marks.now }
{
    match slot {
        Slot::Plain { rec: _ } => Some(true),
        Slot::Sent {
            producer,
            epoch,
            number: _,
            task: _,
            rec: _,
        } => mark_in(marks, *producer, *epoch),
        _ => Some(false),
    }
}

/// 1 for a marker, 0 for a record.
pub fn mark_count(slot: &Slot) -> usize
    ensures { result ≡ length (marks_in (slot.now ∷ [])) }
{
    match slot {
        Slot::Mark {
            producer: _,
            epoch: _,
            commit: _,
        } => 1,
        _ => 0,
    }
}

/// Puts the marker of a slot behind the others, where it is one. Takes no memory.
pub fn put_mark(marks: &mut Vec<Marked>, slot: &Slot)
    requires { length marks.old.items + length (marks_in (slot.now ∷ [])) ≤ vec_capacity marks.old }
    ensures { marks.new.items ≡ marks.old.items ++ marks_in (slot.now ∷ []) }
{
    match slot {
        Slot::Mark {
            producer,
            epoch,
            commit,
        } => marks.push_reserved(Marked {
            producer: *producer,
            epoch: *epoch,
            commit: *commit,
        }),
        _ => {}
    }
}
