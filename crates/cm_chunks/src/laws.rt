//! Laws of what is found in bits. This function does nothing: what it ensures are the laws.

ghost use Rattle.cm_chunks.specs.Laws.{FindsAsState, IsFreeAsState};

/// Where the bits of a tier tell the runs of a state's entries, the least free run in the words is the
/// least one in the state, and a run is free in the words just where it is in the state.
pub fn free_runs_are_those_of_the_state()
    ensures fit { FindsAsState }
    ensures free { IsFreeAsState }
{}
