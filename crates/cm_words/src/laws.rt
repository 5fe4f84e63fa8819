//! Laws of what a memory tells. This function does nothing: what it ensures are the laws.

ghost use Rattle.cm_words.specs.Laws.{IsUnderAtMostOne, TellsItsWords};

/// At most one state is under the plan of a list of words. And where each word of a segment is noted, one
/// list alone fits the notes: the segment's words.
pub fn a_memory_tells_one_state()
    ensures once { IsUnderAtMostOne }
    ensures alone { TellsItsWords }
{}
