//! A store from its start to its end.

ghost use Rattle.std.specs.Prelude.{◌≡◌, ◌<◌, IfOk};

use cm_geo::Geo;
use cm_lock::Level;
use cm_plain::NoMemory;
use cm_store::{Store, empty_words_are_lawful};
use cm_words::{Never, Words};
use std::alloc::Global;
use std::test::Fail;

/// What a pass told, what it found in a stop word, and the words at the end.
#[derive(Drop)]
struct Ended {
    number: u32,
    dead: bool,
    in_sweep: bool,
    stopped: bool,
    words: Words,
}

/// A store over empty words, a pass that is split off and joined, and the end.
fn split_and_join(alloc: Global, geo: &Geo, number: u32) -> Result<Ended, NoMemory>
    requires { number < 64 }
    ensures { IfOk result (λ ended. ended.words.geo ≡ geo.now) }
{
    empty_words_are_lawful();
    let (store, mut root) = Store::start(alloc, Words::empty(alloc, geo)?)?;
    let mut pass = store.split(alloc, &mut root, number, Never)?;
    let number = pass.number();
    let dead = pass.is_dead();
    let in_sweep = pass.in_sweep();
    let stopped = store.stopped(&mut pass, 0, Level::Write);
    let Never = store.join(&mut root, pass);
    let words = store.close(alloc, root)?;
    Ok(Ended {
        number,
        dead,
        in_sweep,
        stopped,
        words,
    })
}

#[test]
fn a_store_without_a_call_leaves_its_words(rt: HostRuntime) -> Result<(), Fail> {
    let geo = Geo::new(2, 1, 64, 4, 0)?;
    let ended = split_and_join(rt.alloc(), &geo, 3)?;
    assert_eq!(rt; ended.number, 3);
    assert_eq!(rt;
        (ended.dead, ended.in_sweep, ended.stopped),
        (false, false, false)
    );
    for segment in 0..2 {
        for &word in ended.words.segment(segment) {
            assert_eq!(rt; word, 0);
        }
    }
    Ok(())
}
