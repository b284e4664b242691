// What each step on the table tells its caller.
ghost use Rattle.ks_growing.specs.Steps.{TakesValue, WritesCount, ReturnsValue, KeepsLonger};
ghost use Rattle.ks_growing.specs.Steps.{dealer_view, dealt_view, copy_of, both_of, spent_view};

use crate::journaled::Journaled;
use crate::view::View;
use atomic_table::{Join, Play, Split};
use std::marker::PhantomData;

/// Takes the turn, and the value out of its slot.
pub(crate) struct Enter<T> {
    of: PhantomData<T>,
}

impl<T: Journaled> Play<Option<T>, View<T::Entry, T::Frame>> for Enter<T> {
    ghost then = { TakesValue T.journal T.reserved T.frame };
}

/// Writes the count of entries, while the seat holds the value.
pub(crate) struct Count<T> {
    of: PhantomData<T>,
}

impl<T: Journaled> Play<Option<T>, View<T::Entry, T::Frame>> for Count<T> {
    ghost then = { WritesCount };
}

/// Puts the value into its slot, and gives the turn back.
pub(crate) struct Leave<T> {
    of: PhantomData<T>,
}

impl<T: Journaled> Play<Option<T>, View<T::Entry, T::Frame>> for Leave<T> {
    ghost then = { ReturnsValue T.journal };
}

/// Compares what was seen with what the seat that was joined last had seen, and keeps the longer.
pub(crate) struct Compare<T> {
    of: PhantomData<T>,
}

impl<T: Journaled> Play<Option<T>, View<T::Entry, T::Frame>> for Compare<T> {
    ghost then = { KeepsLonger T.reserved };
}

/// A new pass, with the next number.
pub(crate) struct Deal;

impl<E, F> Split<View<E, F>> for Deal {
    ghost left = { dealer_view };

    ghost right = { dealt_view };
}

/// A copy of what a pass has seen.
pub(crate) struct CopySeen;

impl<E, F> Split<View<E, F>> for CopySeen {
    ghost left = { λ v. v };

    ghost right = { copy_of };
}

/// Takes in what another seat has seen and made.
pub(crate) struct TakeIn;

impl<E, F> Join<View<E, F>> for TakeIn {
    ghost both = { both_of };

    ghost spent = { spent_view };
}
