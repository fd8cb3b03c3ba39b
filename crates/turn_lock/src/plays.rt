//! What each step tells. These types are for the proofs alone.
ghost use Rattle.std.specs.Prelude.{ℕ};
ghost use Rattle.turn_lock.specs.Kept.{spent_view};
ghost use Rattle.turn_lock.specs.Told.{Draws, Looks, Counts, Adds, Ends, Agrees, less, given, both};

use crate::rule::View;
use crate::story::Story;
use atomic_table::{Join, Play, Split};
use std::marker::{Brand, PhantomData};

pub(crate) struct Draw;

impl<V: Story> Play<Option<V>, View<V, V::Entry>> for Draw {
    ghost then = { λ s m r n. Draws m r n };
}

pub(crate) struct Look;

impl<V: Story> Play<Option<V>, View<V, V::Entry>> for Look {
    ghost then = { λ s m r n. Looks V.entries V.same_charter m r n };
}

pub(crate) struct Count;

impl<V: Story> Play<Option<V>, View<V, V::Entry>> for Count {
    ghost then = { λ s m r n. Counts m r n };
}

pub(crate) struct Add;

impl<V: Story> Play<Option<V>, View<V, V::Entry>> for Add {
    ghost then = { λ s m r n. Adds V.entries m n };
}

pub(crate) struct End;

impl<V: Story> Play<Option<V>, View<V, V::Entry>> for End {
    ghost then = { λ s m r n. Ends m n };
}

pub(crate) struct Agree;

impl<V: Story> Play<Option<V>, View<V, V::Entry>> for Agree {
    ghost then = { λ s m r n. Agrees m n };
}

/// How many parts a split gives away, for the proof alone. A call at `Brand` picks it.
pub(crate) trait Amount {
    ghost amount: { ℕ };
}

impl Amount for Brand {
    ghost amount = { 0 };
}

pub(crate) struct Cut<A> {
    amount: PhantomData<A>,
}

impl<V, E, A: Amount> Split<View<V, E>> for Cut<A> {
    ghost left = { λ v. less A.amount v };

    ghost right = { λ v. given A.amount v };
}

pub(crate) struct Glue;

impl<V, E> Join<View<V, E>> for Glue {
    ghost both = { λ v w. both v w };

    ghost spent = { spent_view };
}
