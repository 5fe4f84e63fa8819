//! Gates that end their callers.

ghost use Rattle.std.specs.Prelude.{◌≡◌, Some, true};
ghost use Rattle.cm_words.specs.KillFuses.{kill_seen};
ghost use Rattle.cm_run.specs.Gates.{budget_of};

use crate::gates::GateMaker;
use cm_command::{Kill, KillKind};
use cm_words::KillFuse;

/// Makes the gates of kills: each dies in place of the store, or of the event, that its kill names, and one without a
/// kill never.
#[derive(Drop, Debug)]
pub struct KillGates {
    made: [u64; 64],
    last_kills: [Option<Kill>; 64],
    pub(crate) deaths: [u64; 64],
}

impl KillGates {
    ghost use Rattle.cm_run.specs.GateCounts.{IsNew, kill_gates_seen};

    /// Gates of which none was made. Takes no memory.
    pub fn new() -> KillGates
        ensures { IsNew (kill_gates_seen result) }
    {
        KillGates {
            made: [0; 64],
            last_kills: [None; 64],
            deaths: [0; 64],
        }
    }
}

/// The fuse of a kill.
fn fuse_of(kill: Kill) -> KillFuse
    ensures { kill_seen result ≡ record { can_die = true; deaths = 0; budget = budget_of (Some kill) } }
{
    match kill.kind {
        KillKind::Stores => KillFuse::Stores { left: kill.after },
        KillKind::Events => KillFuse::Events { left: kill.after },
    }
}

impl GateMaker for KillGates {
    ghost use Rattle.cm_run.specs.GateCounts.{kill_gates_seen};

    type Gate = KillFuse;

    ghost seen = { kill_gates_seen };

    fn make(&mut self, caller: u32, kill: Option<Kill>) -> KillFuse {
        let at = caller as usize;
        self.made[at] += 1;
        self.last_kills[at] = kill;
        match kill {
            Some(kill) => fuse_of(kill),
            None => KillFuse::Never,
        }
    }

    fn back(&mut self, caller: u32, gate: KillFuse) {
        if let KillFuse::Spent { deaths } = gate
            && deaths > 0
        {
            self.deaths[caller as usize] += 1;
        }
    }
}
