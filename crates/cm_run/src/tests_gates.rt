//! Gates, asked for events as callers ask them.

ghost use Rattle.std.specs.Prelude.{◌<◌};

use crate::{GateMaker, Kill, KillGates, KillKind, TurnGates};
use cm_words::{Admit, EventKind, Fuse};
use std::test::Fail;
use std::thread;
use std::thread::Threads;

/// A gate for a caller of gates of which none was made yet, which is asked for these events and comes back: the events
/// that it admitted, and the deaths that were counted of the caller.
fn used(caller: u32, kill: Option<Kill>, events: &[EventKind]) -> (u32, u64)
    requires { caller < 64 }
{
    let mut gates = KillGates::new();
    let mut gate = gates.make(caller, kill);
    let mut admitted = 0u32;
    for kind in events {
        if gate.admit(*kind) == Admit::Go {
            admitted = admitted.wrapping_add(1);
        }
    }
    gates.back(caller, gate);
    (admitted, gates.deaths[caller as usize])
}

const EVENTS: [EventKind; 5] = [
    EventKind::Load,
    EventKind::Store,
    EventKind::Exchange,
    EventKind::Store,
    EventKind::Load,
];

#[test]
fn a_gate_dies_at_its_kill_and_is_counted(rt: HostRuntime) -> Result<(), Fail> {
    let kill = |kind, after| {
        Some(Kill {
            caller: 3,
            kind,
            after,
        })
    };
    assert_eq!(rt; used(3, None, &EVENTS), (5, 0));
    assert_eq!(rt; used(3, kill(KillKind::Stores, 1), &EVENTS), (3, 1));
    assert_eq!(rt; used(3, kill(KillKind::Stores, 2), &EVENTS), (5, 0));
    assert_eq!(rt; used(3, kill(KillKind::Events, 0), &EVENTS), (0, 1));
    assert_eq!(rt; used(3, kill(KillKind::Events, 4), &EVENTS), (4, 1));
    assert_eq!(rt; used(63, kill(KillKind::Events, 5), &EVENTS), (5, 0));
    Ok(())
}

#[test]
fn two_callers_meet(rt: HostRuntime) -> Result<(), Fail> {
    let mut gates = TurnGates::new(rt.alloc(), 1_000_000_000)?;
    let mut first = gates.make(0, None);
    let mut second = gates.make(1, None);
    let (one, other) = thread::join(
        &rt,
        || -> Admit { first.admit(EventKind::Load) },
        || -> Admit { second.admit(EventKind::Load) },
    );
    assert_eq!(rt; (one, other), (Admit::Go, Admit::Go));
    gates.back(0, first);
    gates.back(1, second);
    assert!(rt; !gates.timed_out());
    Ok(())
}

#[test]
fn a_caller_alone_waits_in_vain(rt: HostRuntime) -> Result<(), Fail> {
    let mut gates = TurnGates::new(rt.alloc(), 3)?;
    let mut third = gates.make(2, None);
    assert_eq!(rt; third.admit(EventKind::Store), Admit::Go);
    assert!(rt; !gates.timed_out());
    let mut first = gates.make(0, None);
    assert_eq!(rt; first.admit(EventKind::Store), Admit::Go);
    assert!(rt; gates.timed_out());
    Ok(())
}
