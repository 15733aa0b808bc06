//! The kinds of atomic step on the word of a cell: split, join, load, compare and exchange, and fetch and add 1.
use crate::sequential::Sequential;
use crate::view::{Held, Origin, View};
use atomic_table::{Join, Play, Split, TableRule};
use std::marker::{Brand, PhantomData};

/// The rule of the word and the slot, which every step keeps.
pub(crate) struct OneHistory<O> {
    object: PhantomData<O>,
}

impl<O: Sequential> TableRule<
    Option<Held<O::State, O::Entry>>,
    View<O::State, O::Entry>,
    Origin<O::State>,
> for OneHistory<O> {
    ghost use Rattle.cache_lock.specs.Locking.{Kept, first_view};

    ghost holds = { Kept O.possible O.after };

    ghost first = { first_view };
}

/// A load, which changes nothing and tells what holds of the pass.
pub(crate) struct Look<O> {
    object: PhantomData<O>,
}

impl<O: Sequential> Play<Option<Held<O::State, O::Entry>>, View<O::State, O::Entry>> for Look<O> {
    ghost use Rattle.cache_lock.specs.Locking.{Looked};

    ghost then = { Looked O.possible O.after };
}

/// A compare and exchange from an even word to the odd one above, which takes the turn and the slot.
pub(crate) struct Take<O> {
    object: PhantomData<O>,
}

impl<O: Sequential> Play<Option<Held<O::State, O::Entry>>, View<O::State, O::Entry>> for Take<O> {
    ghost use Rattle.cache_lock.specs.Locking.{Took};

    ghost then = { Took O.possible O.after };
}

/// A fetch and add of 1, which commits an entry and gives the slot and the turn back.
pub(crate) struct Commit;

impl<S, E> Play<Option<Held<S, E>>, View<S, E>> for Commit {
    ghost use Rattle.cache_lock.specs.Locking.{Committed};

    ghost then = { Committed };
}

/// How many calls a split hands over. Each call of a program picks it.
pub(crate) trait Amount {
    ghost use Rattle.std.specs.Prelude.{ℕ};

    ghost amount: { ℕ };
}

impl Amount for Brand {
    ghost amount = { 0 };
}

/// A split, which hands over an amount of calls.
pub(crate) struct SplitCalls<N> {
    amount: PhantomData<N>,
}

impl<S, E, N: Amount> Split<View<S, E>> for SplitCalls<N> {
    ghost use Rattle.cache_lock.specs.Locking.{view_keeping, view_given};

    ghost left = { view_keeping N.amount };

    ghost right = { view_given N.amount };
}

/// A join, which adds the allowances and keeps all strands and the longer history.
pub(crate) struct JoinStrands;

impl<S, E> Join<View<S, E>> for JoinStrands {
    ghost use Rattle.cache_lock.specs.Locking.{view_joined, spent_view};

    ghost both = { view_joined };

    ghost spent = { spent_view };
}
