//! One caller's token for a store.

ghost use Rattle.std.specs.Prelude.{◌≡◌, ◌↔◌, IsTrue, IsSome};

use cm_lock::SegSeat;
use cm_segment::Cursor;
use cm_words::Fuse;
use cm_yard::YardSeat;

/// A sweep that is open: its segment, where its next step begins to look, and its prefix.
#[derive(Clone, Copy)]
pub struct Sweep {
    pub(crate) segment: u32,
    pub(crate) at: Cursor,
    pub(crate) prefix_len: u32,
    pub(crate) prefix: [u8; 256],
}

/// One caller's token for a store: a seat of each segment and of the yard, the fuse, a number, whether it
/// died, and the sweep that is open, if one is.
#[derive(Drop)]
pub struct Pass<F: Fuse> {
    pub(crate) seats: Vec<SegSeat>,
    pub(crate) claims: YardSeat,
    pub(crate) fuse: F,
    pub(crate) number: u32,
    pub(crate) dead: bool,
    pub(crate) sweep: Option<Sweep>,
}

impl<F: Fuse> Pass<F> {
    ghost use Rattle.cm_store.specs.Passes.{number_of, is_dead, sweep_of};

    /// Its number.
    pub fn number(&self) -> u32
        ensures { result ≡ number_of self.now }
    {
        self.number
    }

    /// Whether a call of it answered Died or Dead.
    pub fn is_dead(&self) -> bool
        ensures { result ≡ is_dead self.now }
    {
        self.dead
    }

    /// Whether it is in a sweep.
    pub fn in_sweep(&self) -> bool
        ensures { IsTrue result ↔ IsSome (sweep_of self.now) }
    {
        self.sweep.is_some()
    }
}
