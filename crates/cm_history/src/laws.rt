//! Laws of the calls of a store at the end, where nobody died. These functions do nothing: what they ensure are the laws.

ghost use Rattle.cm_history.specs.Laws.{CallsEndLawful, CallsEndLegal, NoStopIsFound, SpentAnswersFindAllTiers};

/// The calls that the root has taken over are one legal history of each segment, which leads from its words at the
/// start to those at the end.
pub fn calls_end_legal()
    ensures { CallsEndLegal }
{}

/// The words at the end represent a map, which keeps the allowance of extra tiers.
pub fn calls_end_lawful()
    ensures { CallsEndLawful }
{}

/// Where a call was answered FullSpent, all extra tiers are linked at the end.
pub fn spent_answers_find_all_tiers()
    ensures { SpentAnswersFindAllTiers }
{}

/// No stop word was found with a number.
pub fn no_stop_is_found()
    ensures { NoStopIsFound }
{}
