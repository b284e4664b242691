// What a seat of the lock's table knows, and the rule of that table.
ghost use Rattle.ks_growing.specs.Rule.{IsSound, first_view};

use crate::journaled::Journaled;
use atomic_table::{Seat, Shared, Table, TableRule};
use std::alloc::Global;
use std::collections::LinkedList;
use std::marker::PhantomData;
use std::snapshot::Snapshot;

// The word with the number of entries.
pub(crate) const COUNT: usize = 0;

// The word of the turn: 0 while the value lies in its slot, 1 while a pass holds it, 2 while a pass holds
// it and a thread may sleep that waits for it.
pub(crate) const TURN: usize = 1;

// The word that no step ever changes, on which a thread sleeps that waits for nothing in particular.
pub(crate) const IDLE: usize = 2;

// The slot with the value.
pub(crate) const VALUE: usize = 0;

pub(crate) type Key<T> = (Snapshot<T>, u64);

pub(crate) type LockTable<T> = Table<
    Option<T>,
    View<<T as Journaled>::Entry, <T as Journaled>::Frame>,
    Key<T>,
    Grows<T>,
    Global,
>;

pub(crate) type SharedTable<T> = Shared<
    Option<T>,
    View<<T as Journaled>::Entry, <T as Journaled>::Frame>,
    Key<T>,
    Grows<T>,
>;

pub(crate) type PassSeat<T> = Seat<
    Option<T>,
    View<<T as Journaled>::Entry, <T as Journaled>::Frame>,
>;

/// What a seat knows. It is for proofs alone: no value of it is made.
pub struct View<E, F> {
    /// The number of the pass.
    pub number: u64,
    /// How many passes the seat stands for: 1, or 0 for a copy and for a seat that was joined.
    pub parts: u64,
    /// The number of entries that were added through it.
    pub made: u64,
    /// Whether it holds the value.
    pub holds: bool,
    /// The count of entries as it last wrote or found it.
    pub count: u64,
    /// The number of the pass that is split off next.
    pub next: u64,
    /// The part of the journal that it has seen.
    pub seen: LinkedList<E>,
    /// The frame of the value.
    pub frame: Option<F>,
    /// How many passes the seat that was joined last stood for.
    pub other_parts: u64,
    /// What that seat had seen.
    pub other_seen: LinkedList<E>,
    /// The frame that it knew.
    pub other_frame: Option<F>,
}

/// The rule of the table. Its key is the value that `Growing::new` was given, and the number of passes.
pub struct Grows<T> {
    of: PhantomData<T>,
}

impl<T: Journaled> TableRule<Option<T>, View<T::Entry, T::Frame>, Key<T>> for Grows<T> {
    ghost holds = { λ key. IsSound T.journal T.reserved T.frame key.0.value key.1 };

    ghost first = { λ key. first_view T.journal T.frame key.0.value key.1 };
}
