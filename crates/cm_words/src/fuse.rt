//! Fuses: a caller asks one before each event, and makes no further event once it died.

ghost use Rattle.std.specs.Prelude.{◌≡◌};
ghost use Rattle.cm_words.specs.Fuses.{FuseSeen, Admits};
ghost use Rattle.cm_words.specs.KillFuses.{kill_after, kill_seen, never_seen};
ghost use Rattle.cm_words.specs.declared.fuse.KillFuse.TheVariants.{Spent};
ghost use Rattle.cm_words.specs.declared.fuse.Admit.TheVariants.{Die};

/// What a caller is about to do to one word.
#[derive(Clone, Copy, Debug, PartialEq, Eq)]
pub enum EventKind {
    Load,
    Store,
    Exchange,
}

/// What a fuse answers for one event.
#[derive(Clone, Copy, Debug, PartialEq, Eq)]
pub enum Admit {
    /// The event happens.
    Go,
    /// The caller dies in place of it.
    Die,
}

/// The caller died in place of an event.
#[derive(Clone, Copy, Debug, PartialEq, Eq)]
pub struct Dead;

/// What ends a caller between two events.
///
/// A fuse tells whether it can die, which never changes from no to yes, and how often it died. It may
/// tell how many stores, or how many events of all kinds, it still admits: an admitted event that
/// counts lowers this number by one, and it dies exactly where an event counts and the number is 0.
/// After its death it tells none.
pub trait Fuse: Drop {
    ghost fused: { Self → FuseSeen };

    /// Asks for one event. `Die` comes exactly where the count of deaths rises.
    fn admit(&mut self, kind: EventKind) -> Admit
        ensures { Admits kind (fused self.old) (fused self.new) result };
}

/// A fuse that never dies.
#[derive(Clone, Copy, Debug, PartialEq, Eq)]
pub struct Never;

impl Fuse for Never {
    ghost fused = { λ _. never_seen };

    fn admit(&mut self, _kind: EventKind) -> Admit {
        Admit::Go
    }
}

/// A fuse that dies in place of a chosen event.
#[derive(Drop, Debug, PartialEq, Eq)]
pub enum KillFuse {
    /// It never dies.
    Never,
    /// It admits so many stores and every load and exchange between, and dies in place of the next store.
    Stores { left: u32 },
    /// It admits so many events of all kinds, and dies in place of the next.
    Events { left: u32 },
    /// It died so often, and dies at each further event. At the count's last value it admits all.
    Spent { deaths: u64 },
}

impl Fuse for KillFuse {
    ghost fused = { kill_seen };

    fn admit(&mut self, kind: EventKind) -> Admit
        ensures admits { Admits kind (kill_seen self.old) (kill_seen self.new) result }
        ensures next { self.new ≡ kill_after kind self.old }
    {
        match self {
            KillFuse::Never => Admit::Go,
            KillFuse::Stores { left } => {
                if kind != EventKind::Store {
                    return Admit::Go;
                }
                match left.checked_sub(1) {
                    Some(fewer) => {
                        *left = fewer;
                        Admit::Go
                    }
                    None => self.die(),
                }
            }
            KillFuse::Events { left } => match left.checked_sub(1) {
                Some(fewer) => {
                    *left = fewer;
                    Admit::Go
                }
                None => self.die(),
            },
            KillFuse::Spent { deaths } => match deaths.checked_add(1) {
                Some(more) => {
                    *deaths = more;
                    Admit::Die
                }
                None => Admit::Go,
            },
        }
    }
}

impl KillFuse {
    /// The first death.
    fn die(&mut self) -> Admit
        ensures spent { self.new ≡ Spent 1 }
        ensures killed { result ≡ Die }
    {
        *self = KillFuse::Spent { deaths: 1 };
        Admit::Die
    }
}
