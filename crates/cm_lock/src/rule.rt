//! What holds between any two events.

use crate::view::{Key, View};
use atomic_table::TableRule;

pub struct SegRule;

impl TableRule<(), View, Key> for SegRule {
    ghost use Rattle.cm_lock.specs.Rule.{IsSharedSegment, root_view};

    ghost holds = { λ key s. IsSharedSegment key s.words s.views };

    ghost first = { root_view };
}
