// A pass: to a contract its lock and what it knows.
ghost use Rattle.std.specs.Prelude.{◌≡◌};

use crate::journaled::Journaled;
use crate::view::PassSeat;
use std::marker::Model;

/// What a thread goes through the lock with. To a contract it is a `PassView`: its lock, its number
/// and its frame, which never change; the part of the journal that it has seen; the number of
/// entries that were added through it; and whether it holds the value.
#[derive(Drop)]
pub struct Pass<T: Journaled> {
    pub(crate) seat: PassSeat<T>,
}

impl<T: Journaled> Model for Pass<T> {
    ghost use Rattle.std.specs.Prelude.{◌≡◌};
    ghost use Rattle.ks_growing.specs.Passes.{PassView, pass_view, slots_out};

    ghost Value = { PassView T.Entry T.Frame };

    ghost view = { λ p. pass_view p.seat.table_id p.seat.me.0 };

    ghost invariant = { λ p. (p.seat.me.0.parts ≡ 1) × (p.seat.me.1 ≡ slots_out p.seat.me.0.holds) };
}
