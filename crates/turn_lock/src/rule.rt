//! The rule of a turn and the steps on it, as the table under it takes them.

ghost use Rattle.std.specs.Prelude.{ℕ, List};
ghost use Rattle.turn_lock.specs.Rule as Rule;
ghost use Rattle.turn_lock.specs.Rule.{first_view};
ghost use Rattle.turn_lock.specs.Steps.{Draws, Looks, Leaves, dealer, dealt, taking_in, spent};

use crate::view::View;
use crate::{Kept, Names};
use atomic_table::{Join, Play, Split, TableRule};
use std::marker::PhantomData;

/// What holds between any two steps, told how many passes there are.
pub(crate) struct Law<V>(PhantomData<V>);

impl<V: Kept> TableRule<Option<V>, View<V::Entry>, u64> for Law<V> {
    ghost holds = { Rule.KeptTurns (λ x. V.stands x 0) };

    ghost first = { first_view };
}

/// A ticket is drawn.
pub(crate) struct Draw;

impl<V, E> Play<Option<V>, View<E>> for Draw {
    ghost then = { Draws };
}

/// A pass looks whether its ticket is served.
pub(crate) struct Look<V>(PhantomData<V>);

impl<V: Kept> Play<Option<V>, View<V::Entry>> for Look<V> {
    ghost then = { Looks (λ x. V.stands x 0) };
}

/// The turn is given on with the entry that `N` names.
pub(crate) struct Leave<N>(PhantomData<N>);

impl<V, E, N: Names<E>> Play<Option<V>, View<E>> for Leave<N> {
    ghost then = { Leaves N.entry };
}

/// A pass deals the next one.
pub(crate) struct Deal;

impl<E> Split<View<E>> for Deal {
    ghost left = { dealer };

    ghost right = { dealt };
}

/// A pass takes in another, which has ended.
pub(crate) struct TakeIn;

impl<E> Join<View<E>> for TakeIn {
    ghost both = { taking_in };

    ghost spent = { spent };
}
