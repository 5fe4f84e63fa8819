//! What each step tells its caller.

use crate::view::{Level, View};
use atomic_table::{Join, Play, Split};
use std::marker::{Brand, PhantomData};

/// A load of a held word.
pub struct HeldLoad;

impl Play<(), View> for HeldLoad {
    ghost use Rattle.cm_lock.specs.Steps.{LoadsHeld};

    ghost then = { LoadsHeld };
}

/// A store of a held word.
pub struct HeldStore;

impl Play<(), View> for HeldStore {
    ghost use Rattle.cm_lock.specs.Steps.{StoresHeld};

    ghost then = { StoresHeld };
}

/// A change that a step is told, which its caller picks.
pub trait PicksChange {
    ghost use Rattle.cm_plain.specs.Changes.{Change};

    ghost change: { Change };
}

impl PicksChange for Brand {
    ghost use Rattle.cm_lock.specs.Picks.{no_change};

    ghost change = { no_change };
}

/// The store of an odd change number.
pub struct BeginStore<B> {
    change: PhantomData<B>,
}

impl<B: PicksChange> Play<(), View> for BeginStore<B> {
    ghost use Rattle.cm_lock.specs.Steps.{BeginsChange};

    ghost then = { BeginsChange B.change };
}

/// The store of an even change number.
pub struct FinishStore;

impl Play<(), View> for FinishStore {
    ghost use Rattle.cm_lock.specs.Steps.{EndsChange};

    ghost then = { EndsChange };
}

/// The look of a take's first try.
pub struct FirstLook;

impl Play<(), View> for FirstLook {
    ghost use Rattle.std.specs.Prelude.{true};
    ghost use Rattle.cm_lock.specs.Steps.{Looks};

    ghost then = { Looks true };
}

/// The look of a later try.
pub struct NextLook;

impl Play<(), View> for NextLook {
    ghost use Rattle.std.specs.Prelude.{false};
    ghost use Rattle.cm_lock.specs.Steps.{Looks};

    ghost then = { Looks false };
}

/// A take or a raise: from one level to another.
pub trait Take {
    ghost use Rattle.std.specs.Prelude.{◌≡◌, ◌+◌, MatchOption};
    ghost use Rattle.cm_lock.specs.declared.view.Level.{Level};
    ghost use Rattle.cm_lock.specs.Levels.{Permits, weight};

    ghost from: { Level };

    ghost to: { Level };

    /// The lock word that the take makes of this one, where it is permitted.
    fn next(word: u64) -> Option<u64>
        ensures { MatchOption result (¬ (Permits from to word)) (λ next. Permits from to word × (next + weight from ≡ word + weight to)) };

    /// The level that it takes.
    fn level() -> Level
        ensures { result ≡ to };
}

/// From Free to Read.
pub struct TakeRead;

impl Take for TakeRead {
    ghost use Rattle.cm_lock.specs.declared.view.Level.TheVariants.{Free, Read};

    ghost from = { Free };

    ghost to = { Read };

    fn next(word: u64) -> Option<u64> {
        if word < 1 << 31 { Some(word + 1) } else { None }
    }

    fn level() -> Level {
        Level::Read
    }
}

/// From Free to Update.
pub struct TakeUpdate;

impl Take for TakeUpdate {
    ghost use Rattle.cm_lock.specs.declared.view.Level.TheVariants.{Free, Update};

    ghost from = { Free };

    ghost to = { Update };

    fn next(word: u64) -> Option<u64> {
        if word < 1 << 30 {
            Some(word + (1 << 30))
        } else {
            None
        }
    }

    fn level() -> Level {
        Level::Update
    }
}

/// From Free to Write.
pub struct TakeWrite;

impl Take for TakeWrite {
    ghost use Rattle.cm_lock.specs.declared.view.Level.TheVariants.{Free, Write};

    ghost from = { Free };

    ghost to = { Write };

    fn next(word: u64) -> Option<u64> {
        if word == 0 { Some(1 << 31) } else { None }
    }

    fn level() -> Level {
        Level::Write
    }
}

/// From Update to Write.
pub struct Raise;

impl Take for Raise {
    ghost use Rattle.cm_lock.specs.declared.view.Level.TheVariants.{Update, Write};

    ghost from = { Update };

    ghost to = { Write };

    fn next(word: u64) -> Option<u64> {
        if word == 1 << 30 { Some(1 << 31) } else { None }
    }

    fn level() -> Level {
        Level::Write
    }
}

/// The exchange of a take.
pub struct TakeExchange<L> {
    level: PhantomData<L>,
}

impl<L: Take> Play<(), View> for TakeExchange<L> {
    ghost use Rattle.cm_lock.specs.Steps.{Takes};

    ghost then = { Takes L.to };
}

/// The swap from Write to Update.
pub struct LowerSwap;

impl Play<(), View> for LowerSwap {
    ghost use Rattle.cm_lock.specs.Steps.{Lowers};
    ghost use Rattle.cm_lock.specs.declared.view.Level.TheVariants.{Update};

    ghost then = { Lowers Update };
}

/// The subtraction from Update to Read.
pub struct LowerToReadSubtract;

impl Play<(), View> for LowerToReadSubtract {
    ghost use Rattle.cm_lock.specs.Steps.{Lowers};
    ghost use Rattle.cm_lock.specs.declared.view.Level.TheVariants.{Read};

    ghost then = { Lowers Read };
}

/// The exchange of a release.
pub struct ReleaseExchange;

impl Play<(), View> for ReleaseExchange {
    ghost use Rattle.cm_lock.specs.Steps.{Releases};

    ghost then = { Releases };
}

/// An answer that a step is told, which its caller picks.
pub trait PicksAnswer {
    ghost use Rattle.cm_plain.specs.declared.op.Op.{Op};
    ghost use Rattle.cm_plain.specs.declared.reply.Reply.{Reply};

    ghost op: { Op };

    ghost reply: { Reply };
}

impl PicksAnswer for Brand {
    ghost use Rattle.std.specs.Prelude.{[]};
    ghost use Rattle.cm_plain.specs.declared.op.Op.TheVariants.{Get};
    ghost use Rattle.cm_plain.specs.declared.reply.Reply.TheVariants.{Missing};

    ghost op = { Get [] };

    ghost reply = { Missing };
}

/// The load of the change number that enters an answer.
pub struct AnswerLoad<B> {
    answer: PhantomData<B>,
}

impl<B: PicksAnswer> Play<(), View> for AnswerLoad<B> {
    ghost use Rattle.cm_lock.specs.Steps.{Answers};

    ghost then = { Answers B.op B.reply };
}

/// The first load of a round.
pub struct OpenLoad;

impl Play<(), View> for OpenLoad {
    ghost use Rattle.cm_lock.specs.Steps.{OpensBy};

    ghost then = { OpensBy };
}

/// A load of an open round.
pub struct PeekLoad;

impl Play<(), View> for PeekLoad {
    ghost use Rattle.cm_lock.specs.Steps.{Peeks};

    ghost then = { Peeks };
}

/// An answer to a round that a step is told, and what its caller is to learn of the round, which its caller picks.
pub trait PicksRoundAnswer {
    ghost use Rattle.cm_plain.specs.declared.op.Op.{Op};
    ghost use Rattle.cm_plain.specs.declared.reply.Reply.{Reply};
    ghost use Rattle.cm_lock.specs.declared.view.Round.{Round};

    ghost claim: { Round → Type 0 };

    ghost op: { Op };

    ghost reply: { Reply };
}

impl PicksRoundAnswer for Brand {
    ghost use Rattle.std.specs.Prelude.{[]};
    ghost use Rattle.cm_plain.specs.declared.op.Op.TheVariants.{Get};
    ghost use Rattle.cm_plain.specs.declared.reply.Reply.TheVariants.{Missing};
    ghost use Rattle.cm_lock.specs.Picks.{no_claim};

    ghost claim = { no_claim };

    ghost op = { Get [] };

    ghost reply = { Missing };
}

/// The last load of a round.
pub struct CloseLoad<B> {
    answer: PhantomData<B>,
}

impl<B: PicksRoundAnswer> Play<(), View> for CloseLoad<B> {
    ghost use Rattle.cm_lock.specs.Steps.{ClosesBy};

    ghost then = { ClosesBy B.claim B.op B.reply };
}

/// A number that a step is told, which its caller picks.
pub trait PicksNumber {
    ghost use Rattle.std.specs.Prelude.{ℕ};

    ghost number: { ℕ };
}

impl PicksNumber for Brand {
    ghost number = { 0 };
}

/// A load that notes the number of the next seat.
pub struct NumberLoad<B> {
    number: PhantomData<B>,
}

impl<B: PicksNumber> Play<(), View> for NumberLoad<B> {
    ghost use Rattle.cm_lock.specs.Steps.{NotesNumber};

    ghost then = { NotesNumber B.number };
}

/// A load that tells what a seat counts.
pub struct CountsLoad;

impl Play<(), View> for CountsLoad {
    ghost use Rattle.cm_lock.specs.Steps.{TellsCounts};

    ghost then = { TellsCounts };
}

/// How a view is split, and how two views are joined.
pub struct Seating;

impl Split<View> for Seating {
    ghost use Rattle.cm_lock.specs.Views.{child, without_due};

    ghost left = { without_due };

    ghost right = { child };
}

impl Join<View> for Seating {
    ghost use Rattle.cm_lock.specs.Views.{spent_view, with_joined};

    ghost both = { with_joined };

    ghost spent = { spent_view };
}
