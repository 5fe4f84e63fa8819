//! Laws of a yard. This function does nothing: what it ensures is the law.

ghost use Rattle.cm_yard.specs.Laws.{AreGivenOnce};

/// Between any two events of any callers, an index was given at most once over all seats.
pub fn an_index_is_given_once()
    ensures { AreGivenOnce }
{}
