//! What each step tells its caller.

use crate::view::View;
use atomic_table::{Join, Play, Split};
use std::marker::{Brand, PhantomData};

/// A number that a step is told, which its caller picks.
pub trait Says {
    ghost use Rattle.std.specs.Prelude.{ℕ};

    ghost says: { ℕ };
}

impl Says for Brand {
    ghost says = { 0 };
}

/// An exchange of the claim word with this index.
pub struct ClaimExchange<B> {
    index: PhantomData<B>,
}

impl<B: Says> Play<(), View> for ClaimExchange<B> {
    ghost use Rattle.cm_yard.specs.Steps.{ExchangesClaim};

    ghost then = { ExchangesClaim B.says };
}

/// A store of a stop word.
pub struct StopStore;

impl Play<(), View> for StopStore {
    ghost use Rattle.cm_yard.specs.Steps.{RaisesStop};

    ghost then = { RaisesStop };
}

/// A load of a stop word.
pub struct StopLoad;

impl Play<(), View> for StopLoad {
    ghost use Rattle.cm_yard.specs.Steps.{FindsStop};

    ghost then = { FindsStop };
}

/// A load that notes the number of the next seat.
pub struct NumberLoad<B> {
    number: PhantomData<B>,
}

impl<B: Says> Play<(), View> for NumberLoad<B> {
    ghost use Rattle.cm_yard.specs.Steps.{NotesNumber};

    ghost then = { NotesNumber B.says };
}

/// How a view is split, and how two views are joined.
pub struct Seating;

impl Split<View> for Seating {
    ghost use Rattle.cm_yard.specs.Views.{child, without_due};

    ghost left = { without_due };

    ghost right = { child };
}

impl Join<View> for Seating {
    ghost use Rattle.cm_yard.specs.Views.{spent_view, with_joined};

    ghost both = { with_joined };

    ghost spent = { spent_view };
}
