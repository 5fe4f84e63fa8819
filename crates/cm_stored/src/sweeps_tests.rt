//! A whole sweep, by a caller that knows no more than what the calls of a sweep ensure.

ghost use Rattle.std.specs.Prelude.{◌≡◌, ◌≤◌, false, length};
ghost use Rattle.cm_plain.specs.declared.op.Op.TheVariants as op;
ghost use Rattle.cm_store.specs.Passes.{IsPassOf, IsResting, MayCall, is_dead};
ghost use Rattle.cm_store.specs.Sweeps.{MayStep};

use cm_store::{Answer, Pass, Stop, Store};
use cm_words::{Dead, Fuse};

/// Takes steps until one takes no key away, and a thousand at most.
fn take_steps<F: Fuse>(
    store: &Store,
    pass: &mut Pass<F>,
    out: &mut [u8],
    tries: u32,
) -> Result<(), Stop>
    requires may { MayStep store.now pass.old }
    requires room { 256 ≤ length out.old }
    requires nonzero { 1 ≤ tries }
    ensures its { IsPassOf pass.new store.now }
    ensures may { is_dead pass.new ≡ false → MayStep store.now pass.new }
{
    for _ in 0..1000 {
        let done = store.sweep_step(pass, out, tries)?;
        let Answer::Swept(_) = done.answer else {
            return Ok(());
        };
    }
    Ok(())
}

/// Opens a sweep, takes its steps, and closes it.
fn sweep_all<F: Fuse>(
    store: &Store,
    pass: &mut Pass<F>,
    segment: u32,
    prefix: &[u8],
    out: &mut [u8],
    tries: u32,
) -> Result<(), Stop>
    requires may { MayCall store.now (op.Sweep segment prefix.now) pass.old }
    requires room { 256 ≤ length out.old }
    requires nonzero { 1 ≤ tries }
    ensures its { IsPassOf pass.new store.now }
    ensures resting { is_dead pass.new ≡ false → IsResting pass.new }
{
    store.sweep_open(pass, segment, prefix, tries)?;
    let last = take_steps(store, pass, out, tries);
    if pass.is_dead() {
        return Err(Stop::Died);
    }
    match store.sweep_close(pass) {
        Ok(()) => last,
        Err(Dead) => Err(Stop::Died),
    }
}
