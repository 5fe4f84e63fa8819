//! What holds between any two events.

use crate::view::{Key, View};
use atomic_table::TableRule;

pub struct YardRule;

impl TableRule<(), View, Key> for YardRule {
    ghost use Rattle.cm_yard.specs.Rule.{IsYard};
    ghost use Rattle.cm_yard.specs.Views.{root_view};

    ghost holds = { IsYard };

    ghost first = { λ key. root_view };
}
