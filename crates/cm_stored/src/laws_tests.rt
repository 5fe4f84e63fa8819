//! What the laws say along a pass that makes a call, and is taken back.

ghost use Rattle.std.specs.Prelude.{◌≡◌, ◌≤◌, IfOk, length};
ghost use Rattle.cm_plain.specs.declared.op.Op.TheVariants.{Put};
ghost use Rattle.cm_store.specs.Balance.{OwesAtMost};
ghost use Rattle.cm_store.specs.Passes.{IsPassOf, MayCall, claims_view, views_of};
ghost use Rattle.cm_store.specs.Splits.{IsRoot};
ghost use Rattle.cm_laws.specs.StopLaws.{AreLeft};
ghost use Rattle.std.specs.Prelude.{false};

use cm_laws::{
    calls_keep_stops, calls_owe_for_deaths, joins_add_owed, joins_keep_stops, raises_keep_stops,
};
use cm_store::{Done, Pass, Stop, Store};
use cm_words::{Fuse, Never};

/// A put by a pass, which raises a stop word where it died, and is taken back. The put's answer.
fn put_and_join<F: Fuse>(
    store: &Store,
    root: &mut Pass<Never>,
    pass: Pass<F>,
    key: &[u8],
    value: &[u8],
) -> Result<Done, Stop>
    requires its { IsPassOf root.old store.now }
    requires root { IsRoot root.old }
    requires may { MayCall store.now (Put key.now value.now) pass }
    requires many { length (views_of pass) ≡ length (views_of root.old) }
    requires left { AreLeft false (views_of root.old) (claims_view root.old) }
    requires none_left { AreLeft false (views_of pass) (claims_view pass) }
    requires owes { OwesAtMost 0 (views_of root.old) (claims_view root.old) }
    requires none_owed { OwesAtMost 0 (views_of pass) (claims_view pass) }
    ensures left { AreLeft false (views_of root.new) (claims_view root.new) }
    ensures owes { OwesAtMost 1 (views_of root.new) (claims_view root.new) }
{
    calls_keep_stops();
    raises_keep_stops();
    joins_keep_stops();
    calls_owe_for_deaths();
    joins_add_owed();
    let mut pass = pass;
    let told = store.put(&mut pass, key, value, 1);
    if pass.is_dead() {
        store.raise_stop(&mut pass);
    }
    let _fuse = store.join(root, pass);
    told
}
