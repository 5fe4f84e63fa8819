//! The question to a fuse before each event.

ghost use Rattle.std.specs.Prelude.{MatchResult};
ghost use Rattle.cm_words.specs.declared.fuse.Admit.TheVariants.{Go, Die};
ghost use Rattle.cm_words.specs.Fuses.{Admits};

use cm_words::{Admit, Dead, EventKind, Fuse};

/// Asks a fuse for one event.
pub(crate) fn ask_fuse<F: Fuse>(fuse: &mut F, kind: EventKind) -> Result<(), Dead>
    ensures { MatchResult result (λ _. Admits kind (F.fused fuse.old) (F.fused fuse.new) Go) (λ _. Admits kind (F.fused fuse.old) (F.fused fuse.new) Die) }
{
    match fuse.admit(kind) {
        Admit::Go => Ok(()),
        Admit::Die => Err(Dead),
    }
}
