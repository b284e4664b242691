// The lock and its calls.
ghost use Rattle.std.specs.Prelude.{◌≡◌, ◌≢◌, ◌⊎◌, ◌+◌, ◌<◌, ◌≤◌, [], ◌∷◌, length, filter};
ghost use Rattle.std.specs.Prelude.{true, false, Some, Option, IfOk, IfErr};
ghost use mathlib.Core.List.{IsPrefix};
ghost use lib.ListN.{get_elem?};
ghost use mathlib.Core.Option.{some};
ghost use Rattle.ks_growing.specs.Rule.{total};
ghost use Rattle.ks_growing.specs.Passes.{Each, PassView, IsPass, IsFresh, seen_of, made_of};
ghost use Rattle.ks_growing.specs.Passes.{frame_of, pass_with_value, pass_without_value};

use crate::journaled::Journaled;
use crate::pass::Pass;
use crate::seats::{absorb, deal, meet_seats};
use crate::turns::{enter_seat, leave_seat};
use crate::view::{IDLE, LockTable, VALUE};
use atomic_table::{Refused, Table};
use std::alloc::{AllocFailed, Global};
use std::marker::Model;
use std::snapshot::Snapshot;
use std::sync::Wait;
use std::time::Duration;

/// A value that threads use one at a time, each through a pass of its own. To a contract it is a
/// `LockView`: which lock it is, the value that it was made with, and how many passes it has.
pub struct Growing<T: Journaled> {
    table: LockTable<T>,
}

impl<T: Journaled> Model for Growing<T> {
    ghost use Rattle.std.specs.Prelude.{◌≡◌};
    ghost use Rattle.ks_growing.specs.Passes.{LockView, lock_view};

    ghost Value = { LockView T };

    ghost view = { λ g. lock_view g.table.shared.table_id g.table.shared.key.0.value g.table.shared.key.1 };

    ghost invariant = { λ g. (g.table.shared.table_id.words ≡ 3) × (g.table.shared.table_id.slots ≡ 1) };
}

// A slot with the value.
fn slot_of<T>(alloc: Global, value: T) -> Result<Vec<Option<T>>, AllocFailed<T>>
    ensures ok { IfOk result (λ slots. slots.items ≡ Some value ∷ []) }
    ensures err { IfErr result (λ e. e.value ≡ value) }
{
    let Ok(mut slots) = Vec::with_capacity(alloc, 1) else {
        return Err(AllocFailed { value });
    };
    match slots.push(Some(value)) {
        Ok(()) => Ok(slots),
        Err(_) => unreachable!(),
    }
}

// The value back out of its slot.
fn value_of<T>(mut slots: Vec<Option<T>>) -> T
    requires { (value : T) × (slots.items ≡ Some value ∷ []) }
    ensures { slots.items ≡ Some result ∷ [] }
{
    let value = slots.pop().unwrap().unwrap();
    slots.destroy_empty();
    value
}

impl<T: Journaled> Growing<T> {
    /// Puts a value under a lock with 1 to 64 passes, whose numbers are 0, 1, 2 and so on; no other
    /// pass is ever made. Each has seen the whole journal. On want of memory the value comes back.
    pub fn new(
        alloc: Global,
        value: T,
        passes: u8,
    ) -> Result<(Growing<T>, Vec<Pass<T>>), AllocFailed<T>>
        requires { (1 ≤ passes) × (passes ≤ 64) }
        ensures first { IfOk result (λ r. r.0.first ≡ value) }
        ensures passes { IfOk result (λ r. r.0.passes ≡ passes) }
        ensures count { IfOk result (λ r. length r.1.items ≡ passes) }
        ensures fresh { IfOk result (λ r. Each (IsFresh r.0.id (T.journal value) (T.frame value))
            r.1.items) }
        ensures err { IfErr result (λ e. e.value ≡ value) }
    {
        let key = (Snapshot::of(&value), u64::from(passes));
        let count = value.entries();
        let Ok(list) = Vec::with_capacity(alloc, usize::from(passes)) else {
            return Err(AllocFailed { value });
        };
        let slots = match slot_of(alloc, value) {
            Ok(slots) => slots,
            Err(failed) => return Err(failed),
        };
        let (table, dealer) = match Table::new(alloc, &[count, 0, 0], slots, &key) {
            Ok(made) => made,
            Err(Refused { slots }) => {
                let value = value_of(slots);
                return Err(AllocFailed { value });
            }
        };
        let list = deal(&table.shared, dealer, passes, list);
        Ok((Growing { table }, list))
    }

    /// Waits until the value is in its place, and takes it out: nobody else has it until `leave`
    /// puts it back. Its journal begins with what the pass had seen. Takes no memory.
    ///
    /// That the wait ends isn't promised; a thread that calls this with a second pass while it
    /// holds the value waits for itself.
    pub fn enter<R: Wait>(&self, rt: &R, pass: &mut Pass<T>) -> T
        requires own { pass.old.lock ≡ self.now.id }
        requires free { pass.old.holds ≡ false }
        ensures pass { pass.new ≡ pass_with_value (T.journal result) pass.old }
        ensures begins { IsPrefix pass.old.seen (T.journal result) }
        ensures frame { pass.old.frame ≡ Some (T.frame result) }
        ensures reserved { pass.old.number ≡ 0
            → filter T.reserved (T.journal result) ≡ filter T.reserved pass.old.seen }
    {
        enter_seat(rt, &self.table.shared, &mut pass.seat)
    }

    /// Puts the value back, with whatever entries were added. What the pass has seen is then the new
    /// journal, and `made` rises by the number of entries added. Takes no memory.
    pub fn leave(&self, pass: &mut Pass<T>, value: T)
        requires own { pass.old.lock ≡ self.now.id }
        requires holds { pass.old.holds ≡ true }
        requires grown { IsPrefix pass.old.seen (T.journal value) }
        requires frame { pass.old.frame ≡ Some (T.frame value) }
        requires reserved { pass.old.number ≢ 0
            → filter T.reserved (T.journal value) ≡ filter T.reserved pass.old.seen }
        ensures { pass.new ≡ pass_without_value (T.journal value) pass.old }
    {
        leave_seat(&self.table.shared, &mut pass.seat, value);
    }

    /// Sleeps for so long, or less, beside the lock: whoever goes through it meanwhile isn't in the way of the
    /// sleeper, and doesn't wake it. For a thread that has nothing to do before others have. Takes no memory.
    pub fn rest<R: Wait>(&self, rt: &R, longest: Duration) {
        self.table.shared.park_timeout(rt, IDLE, 0, longest);
    }

    /// Tells the first pass what the other has seen: of the two lists one begins the other, and the
    /// first pass then has the longer. The other stays as it was. Takes no memory.
    pub fn meet(&self, pass: &mut Pass<T>, other: &mut Pass<T>)
        requires own { pass.old.lock ≡ self.now.id }
        requires other_own { other.old.lock ≡ self.now.id }
        requires free { pass.old.holds ≡ false }
        requires other_free { other.old.holds ≡ false }
        ensures pass { pass.new ≡ record pass.old { seen = pass.new.seen } }
        ensures other { other.new ≡ other.old }
        ensures begins { IsPrefix pass.old.seen pass.new.seen }
        ensures other_begins { IsPrefix other.old.seen pass.new.seen }
        ensures either { (pass.new.seen ≡ pass.old.seen) ⊎ (pass.new.seen ≡ other.old.seen) }
        ensures reserved { pass.old.number ≡ 0
            → filter T.reserved pass.new.seen ≡ filter T.reserved pass.old.seen }
    {
        meet_seats(&self.table.shared, &mut pass.seat, &mut other.seat);
    }

    /// Gives the value back for all the passes, in the order of their numbers. Its journal begins
    /// with the first value's and with what each pass had seen, and has as many entries more than
    /// the first as were added through the passes: none is lost, none is there twice. Its reserved
    /// entries are those that pass 0 had seen. Takes no memory, and always succeeds.
    pub fn close(self, mut passes: Vec<Pass<T>>) -> T
        requires count { (length passes.items ≡ self.passes) × (0 < length passes.items) }
        requires passes { Each (IsPass self.id) passes.items }
        ensures frame { T.frame result ≡ T.frame self.first }
        ensures frames { Each (λ k p. frame_of p ≡ Some (T.frame result)) passes.items }
        ensures first { IsPrefix (T.journal self.first) (T.journal result) }
        ensures seen { Each (λ k p. IsPrefix (seen_of p) (T.journal result)) passes.items }
        ensures made { length (T.journal result)
            ≡ length (T.journal self.first) + total made_of passes.items }
        ensures reserved { (p : PassView T.Entry T.Frame) → get_elem? passes.items 0 ≡ some p
            → filter T.reserved (T.journal result) ≡ filter T.reserved (seen_of p) }
    {
        let Growing { table } = self;
        let Pass { seat: mut all } = passes.remove(0);
        absorb(&table.shared, &mut all, passes);
        let mut closed = table.close_with(all);
        let value = closed.take(VALUE).unwrap();
        closed.free();
        value
    }
}

impl<T: Journaled + Drop> Drop for Growing<T> {
    fn drop(self) {
        let Self { table } = self;
        drop(table);
    }
}
