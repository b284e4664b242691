// Making passes, telling one what another has seen, and joining them all, over their seats.
ghost use Rattle.std.specs.Prelude.{◌≡◌, ◌⊎◌, ◌+◌, ◌≤◌, [], length, filter, false, Some};
ghost use Rattle.std.specs.Prelude.{vec_capacity};
ghost use mathlib.Core.List.{IsPrefix};
ghost use Rattle.ks_growing.specs.Rule.{total};
ghost use Rattle.ks_growing.specs.Steps.{IsFree, IsDealer, SameSeat, seat_seen};
ghost use Rattle.ks_growing.specs.Passes.{Each, IsPass, IsFresh, seen_of, made_of, frame_of};

use crate::journaled::Journaled;
use crate::pass::Pass;
use crate::steps::{Compare, CopySeen, Deal, TakeIn};
use crate::view::{COUNT, PassSeat, SharedTable};

// The passes with numbers from 0 on; the dealer is the pass 0 in the end.
pub(crate) fn deal<T: Journaled>(
    table: &SharedTable<T>,
    mut dealer: PassSeat<T>,
    passes: u8,
    mut list: Vec<Pass<T>>,
) -> Vec<Pass<T>>
    requires size { (table.now.table_id.words ≡ 3) × (table.now.table_id.slots ≡ 1) }
    requires room { (1 ≤ passes) × (list.items ≡ []) × (passes ≤ vec_capacity list) }
    requires own { (dealer.table_id ≡ table.now.table_id) × (dealer.me.1 ≡ []) }
    requires dealer { IsDealer passes dealer.me.0 }
    ensures count { length result.items ≡ passes }
    ensures fresh { (frame : T.Frame) → dealer.me.0.frame ≡ Some frame
        → Each (IsFresh table.now.table_id dealer.me.0.seen frame) result.items }
{
    'deal: for _ in 1..passes {
        let seat = table.split_seat::<Deal>(&mut dealer);
        match list.push(Pass { seat }) {
            Ok(()) => {}
            Err(_) => unreachable!(),
        }
    }
    match list.insert(0, Pass { seat: dealer }) {
        Ok(()) => {}
        Err(_) => unreachable!(),
    }
    list
}

// Tells the first seat what the other has seen.
pub(crate) fn meet_seats<T: Journaled>(
    table: &SharedTable<T>,
    seat: &mut PassSeat<T>,
    other: &mut PassSeat<T>,
)
    requires size { (table.now.table_id.words ≡ 3) × (table.now.table_id.slots ≡ 1) }
    requires own { seat.old.table_id ≡ table.now.table_id }
    requires other_own { other.old.table_id ≡ table.now.table_id }
    requires free { IsFree seat.old.me × IsFree other.old.me }
    ensures same { SameSeat seat.old seat.new × IsFree seat.new.me }
    ensures made { seat.new.me.0.made ≡ seat.old.me.0.made }
    ensures other { SameSeat other.old other.new × (other.new.me ≡ other.old.me) }
    ensures begins { IsPrefix (seat_seen seat.old) (seat_seen seat.new) }
    ensures other_begins { IsPrefix (seat_seen other.old) (seat_seen seat.new) }
    ensures either { (seat_seen seat.new ≡ seat_seen seat.old)
        ⊎ (seat_seen seat.new ≡ seat_seen other.old) }
    ensures reserved { seat.old.me.0.number ≡ 0
        → filter T.reserved (seat_seen seat.new) ≡ filter T.reserved (seat_seen seat.old) }
{
    let copy = table.split_seat::<CopySeen>(other);
    table.join_seat::<TakeIn>(seat, copy);
    table.load::<Compare<T>>(seat, COUNT);
}

// Joins the other passes to one.
pub(crate) fn absorb<T: Journaled>(
    table: &SharedTable<T>,
    all: &mut PassSeat<T>,
    others: Vec<Pass<T>>,
)
    requires size { (table.now.table_id.words ≡ 3) × (table.now.table_id.slots ≡ 1) }
    requires own { (all.old.table_id ≡ table.now.table_id) × IsFree all.old.me }
    requires others { Each (λ k. IsPass table.now.table_id (k + 1)) others.items }
    ensures same { SameSeat all.old all.new }
    ensures free { (all.new.me.0.holds ≡ false) × (all.new.me.1 ≡ []) }
    ensures parts { all.new.me.0.parts ≡ 1 + length others.items }
    ensures made { all.new.me.0.made ≡ all.old.me.0.made + total made_of others.items }
    ensures begins { IsPrefix (seat_seen all.old) (seat_seen all.new) }
    ensures others { Each (λ k p. IsPrefix (seen_of p) (seat_seen all.new)) others.items }
    ensures frames { Each (λ k p. frame_of p ≡ all.old.me.0.frame) others.items }
    ensures reserved { all.old.me.0.number ≡ 0
        → filter T.reserved (seat_seen all.new) ≡ filter T.reserved (seat_seen all.old) }
{
    for pass in others {
        let Pass { seat } = pass;
        table.join_seat::<TakeIn>(all, seat);
        table.load::<Compare<T>>(all, COUNT);
    }
}
