//! Laws of the rule. This function does nothing: what it ensures is the law.

ghost use Rattle.cm_lock.specs.Laws.{ChangesAreSteps};

/// Along the one list of a segment's changes each change is a step of its operation: at the number of changes
/// before it, with the grant of a further tier, from the state that those lead to, and with the reply to the
/// change. So it is between any two events of any callers, and of the words and the root's view that are left
/// when a table is closed.
pub fn changes_are_steps()
    ensures { ChangesAreSteps }
{}
