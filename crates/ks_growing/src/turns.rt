// Taking the value out and putting it back, over the seat of a pass.
ghost use Rattle.std.specs.Prelude.{◌≡◌, ◌≢◌, [], ◌∷◌, length, filter, None, Some};
ghost use mathlib.Core.List.{IsPrefix};
ghost use Rattle.ks_growing.specs.Steps.{IsFree, IsHolding, TakesSome, view_with_value, view_without_value};

use crate::journaled::Journaled;
use crate::steps::{Count, Enter, Leave};
use crate::view::{COUNT, PassSeat, SharedTable, TURN, VALUE};
use std::hint;
use std::sync::Wait;

// How often a thread tries to take the turn before it sleeps.
const TRIES: u32 = 100;

// Waits for the turn, with which the value is the seat's. A thread that may have slept takes the turn as 2, never
// as 1: others may sleep still, and who leaves a turn of 1 wakes nobody.
fn take_turn<T: Journaled, R: Wait>(rt: &R, table: &SharedTable<T>, seat: &mut PassSeat<T>)
    requires size { (table.now.table_id.words ≡ 3) × (table.now.table_id.slots ≡ 1) }
    requires own { seat.old.table_id ≡ table.now.table_id }
    requires free { IsFree seat.old.me }
    ensures same { (seat.new.table_id ≡ seat.old.table_id) × (seat.new.id ≡ seat.old.id) }
    ensures took { TakesSome T.journal T.reserved T.frame seat.old.me seat.new.me }
{
    'tries: for _ in 0..TRIES {
        let turn = table.compare_exchange::<Enter<T>>(seat, TURN, 0, 1);
        if turn == 0 {
            return;
        }
        hint::spin_loop();
    }
    'sleeps: for _ in rt.forever() {
        let found = table.swap::<Enter<T>>(seat, TURN, 2);
        if found == 0 {
            return;
        }
        table.park(rt, TURN, 2);
    }
    unreachable!()
}

// Waits for the turn, and takes the value out.
pub(crate) fn enter_seat<T: Journaled, R: Wait>(
    rt: &R,
    table: &SharedTable<T>,
    seat: &mut PassSeat<T>,
) -> T
    requires size { (table.now.table_id.words ≡ 3) × (table.now.table_id.slots ≡ 1) }
    requires own { seat.old.table_id ≡ table.now.table_id }
    requires free { IsFree seat.old.me }
    ensures same { (seat.new.table_id ≡ seat.old.table_id) × (seat.new.id ≡ seat.old.id) }
    ensures begins { IsPrefix seat.old.me.0.seen (T.journal result) }
    ensures view { seat.new.me ≡ (
      view_with_value (T.journal result) seat.old.me.0,
      (0, None)
          ∷ [],
    ) }
    ensures frame { seat.old.me.0.frame ≡ Some (T.frame result) }
    ensures reserved { seat.old.me.0.number ≡ 0
        → filter T.reserved (T.journal result) ≡ filter T.reserved seat.old.me.0.seen }
{
    take_turn(rt, table, seat);
    table.exchange(seat, VALUE, None).unwrap()
}

// Writes the number of the value's entries, while the seat holds it.
fn write_count<T: Journaled>(table: &SharedTable<T>, seat: &mut PassSeat<T>, value: &T)
    requires size { (table.now.table_id.words ≡ 3) × (table.now.table_id.slots ≡ 1) }
    requires own { seat.old.table_id ≡ table.now.table_id }
    requires holds { IsHolding seat.old.me }
    ensures same { (seat.new.table_id ≡ seat.old.table_id) × (seat.new.id ≡ seat.old.id) }
    ensures view { seat.new.me
        ≡ (record seat.old.me.0 { count = length (T.journal value.now) }, (0, None) ∷ []) }
{
    let count = value.entries();
    table.store::<Count<T>>(seat, COUNT, count);
}

// Wakes a thread, where the turn that was given back says that one may sleep.
fn wake_after<T: Journaled>(table: &SharedTable<T>, turn: u64)
    requires size { table.now.table_id.words ≡ 3 }
{
    if turn != 1 {
        table.wake_one(TURN);
    }
}

// Puts the value back, with its count, and wakes a thread where one may sleep.
pub(crate) fn leave_seat<T: Journaled>(table: &SharedTable<T>, seat: &mut PassSeat<T>, value: T)
    requires size { (table.now.table_id.words ≡ 3) × (table.now.table_id.slots ≡ 1) }
    requires own { seat.old.table_id ≡ table.now.table_id }
    requires holds { IsHolding seat.old.me }
    requires grown { IsPrefix seat.old.me.0.seen (T.journal value) }
    requires frame { seat.old.me.0.frame ≡ Some (T.frame value) }
    requires reserved { seat.old.me.0.number ≢ 0
        → filter T.reserved (T.journal value) ≡ filter T.reserved seat.old.me.0.seen }
    ensures same { (seat.new.table_id ≡ seat.old.table_id) × (seat.new.id ≡ seat.old.id) }
    ensures view { seat.new.me ≡ (view_without_value (T.journal value) seat.old.me.0, []) }
{
    write_count(table, seat, &value);
    match table.exchange(seat, VALUE, Some(value)) {
        None => {}
        Some(_) => unreachable!(),
    }
    let turn = table.swap::<Leave<T>>(seat, TURN, 0);
    wake_after(table, turn);
}
