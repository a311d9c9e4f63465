// The rule of a turn's table, and what each step tells.
ghost use Rattle.std.specs.Prelude.{[], Some};
ghost use Rattle.turn_lock.specs.Passes.{all_shares};
ghost use Rattle.turn_lock.specs.Views.{view_of, no_view, left_view, split_view, both_views};
ghost use Rattle.turn_lock.specs.Rule.{IsRuled};
ghost use Rattle.turn_lock.specs.Steps.{DrawsTicket, ReadsServing, AddsEntries, PassesTurn, ReadsLength};
ghost use Rattle.turn_lock.specs.declared.view.Stage.TheVariants.{Idle};

use crate::kept::Kept;
use crate::view::View;
use atomic_table::{Join, Play, Split, TableRule};
use std::marker::PhantomData;
use std::snapshot::Snapshot;

pub struct TurnRule<V> {
    marker: PhantomData<V>,
}

impl<V: Kept> TableRule<V, View<V::Entry, V::Tag>, Snapshot<V>> for TurnRule<V> {
    ghost holds = { λ opening. IsRuled V.fits V.history (V.tag opening.value) };

    ghost first = { λ opening. view_of all_shares 0 [] Idle (Some (V.tag opening.value)) };
}

pub struct DrawTicket;

impl<V: Kept> Play<V, View<V::Entry, V::Tag>> for DrawTicket {
    ghost then = { DrawsTicket };
}

pub struct ReadServing;

impl<V: Kept> Play<V, View<V::Entry, V::Tag>> for ReadServing {
    ghost then = { ReadsServing V.fits V.history };
}

pub struct AddEntries;

impl<V: Kept> Play<V, View<V::Entry, V::Tag>> for AddEntries {
    ghost then = { AddsEntries V.history };
}

pub struct PassTurn;

impl<V: Kept> Play<V, View<V::Entry, V::Tag>> for PassTurn {
    ghost then = { PassesTurn };
}

pub struct ReadLength;

impl<V: Kept> Play<V, View<V::Entry, V::Tag>> for ReadLength {
    ghost then = { ReadsLength };
}

/// How a pass is split, and how two are joined.
pub struct Shares;

impl<E, T> Split<View<E, T>> for Shares {
    ghost left = { left_view };

    ghost right = { split_view };
}

impl<E, T> Join<View<E, T>> for Shares {
    ghost both = { both_views };

    ghost spent = { no_view };
}
