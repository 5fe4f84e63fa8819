//! Gates that show whether two callers run beside each other: for tests.

use crate::gates::GateMaker;
use cm_command::Kill;
use cm_plain::NoMemory;
use cm_words::{Admit, EventKind, Fuse};
use crossbeam_utils::atomic::AtomicCell;
use std::alloc::Global;
use std::sync::Arc;

/// The flags of caller 0 and of caller 1, and whether one looked for the other's in vain.
#[derive(Drop)]
struct Turns {
    flags: [AtomicCell<bool>; 2],
    timed_out: AtomicCell<bool>,
}

impl Turns {
    /// Raises one flag, and looks for the other, at most so many times.
    fn meet(&self, first: bool, limit: u32) {
        let [one, other] = &self.flags;
        let (own, awaited) = if first { (one, other) } else { (other, one) };
        own.store(true);
        for _ in 0..limit {
            if awaited.load() {
                return;
            }
            std::hint::spin_loop();
        }
        self.timed_out.store(true);
    }
}

/// What a caller waits for at its first event: the other's flag.
#[derive(Drop)]
struct Wait {
    turns: Arc<Turns>,
    first: bool,
    limit: u32,
}

/// A gate that never dies. At the first event of caller 0 and of caller 1 it waits for the other's first event.
#[derive(Drop)]
pub struct TurnGate {
    wait: Option<Wait>,
}

impl Fuse for TurnGate {
    ghost use Rattle.cm_words.specs.KillFuses.{never_seen};

    ghost fused = { λ _. never_seen };

    fn admit(&mut self, _kind: EventKind) -> Admit {
        if let Some(wait) = self.wait.take() {
            wait.turns.meet(wait.first, wait.limit);
        }
        Admit::Go
    }
}

/// Makes gates that never die, and at which callers 0 and 1 wait for each other, once: a runner that runs one caller
/// after the other lets one of them wait in vain.
#[derive(Drop)]
pub struct TurnGates {
    made: [u64; 64],
    last_kills: [Option<Kill>; 64],
    turns: Arc<Turns>,
    limit: u32,
}

impl TurnGates {
    ghost use Rattle.std.specs.Prelude.{IfOk};
    ghost use Rattle.cm_run.specs.GateCounts.{IsNew, turn_gates_seen};

    /// Gates of which none was made, and which look for the other's flag at most so many times. Takes memory.
    pub fn new(alloc: Global, limit: u32) -> Result<TurnGates, NoMemory>
        ensures { IfOk result (λ gates. IsNew (turn_gates_seen gates)) }
    {
        let turns = Turns {
            flags: [AtomicCell::new(false), AtomicCell::new(false)],
            timed_out: AtomicCell::new(false),
        };
        Ok(TurnGates {
            made: [0; 64],
            last_kills: [None; 64],
            turns: Arc::new(alloc, turns)?,
            limit,
        })
    }

    /// What a caller waits for; nothing but for callers 0 and 1, and where no further gate can share the flags.
    fn wait_of(&self, caller: u32) -> Option<Wait> {
        if caller > 1 {
            return None;
        }
        let turns = self.turns.clone().ok()?;
        Some(Wait {
            turns,
            first: caller == 0,
            limit: self.limit,
        })
    }

    /// Whether a gate looked for the other's flag in vain.
    pub fn timed_out(&self) -> bool {
        self.turns.timed_out.load()
    }
}

impl GateMaker for TurnGates {
    ghost use Rattle.cm_run.specs.GateCounts.{turn_gates_seen};

    type Gate = TurnGate;

    ghost seen = { turn_gates_seen };

    fn make(&mut self, caller: u32, kill: Option<Kill>) -> TurnGate {
        let at = caller as usize;
        self.made[at] += 1;
        self.last_kills[at] = kill;
        TurnGate {
            wait: self.wait_of(caller),
        }
    }

    fn back(&mut self, _caller: u32, _gate: TurnGate) {}
}
