//! Laws of the words at the end, and of what passes keep until then. These functions do nothing: what they ensure are the laws.

ghost use Rattle.cm_lock.specs.declared.view.Level.TheVariants.{Update};
ghost use Rattle.cm_laws.specs.Laws.{CallsKeepBalance, ChainsGrowByLinks, ChainsKeepLinks, EndsAllowed, EndsLawful, EndsWholeOrTorn, JoinsKeepBalance, ListsKeepBalance, LockWordsCountLevels, QuestionsKeepBalance, SplitsKeepBalance};
ghost use Rattle.cm_turn.specs.Records.{Holds, IsIdle};
ghost use Rattle.cm_laws.specs.SpentLaws.{CallsKeepFound, CallsOweForDeaths, JoinsAddOwed, JoinsKeepFound, SpentFindsAll, SpentIsNear, SplitsOweNothing, StartsOweNothing, UnclaimedCallsOweNothing};
ghost use Rattle.cm_laws.specs.StopLaws.{CallsKeepStops, JoinsKeepStops, LooksKeepStops, RaisesKeepStops, SplitsKeepStops, StartsLeaveStops, StopsStandForLevels, UnclaimedCallsKeepStops};
ghost use Rattle.cm_laws.specs.SweepLaws.{ClosingsKeepBalance, OpeningsKeepBalance};

/// Where nobody died, the words of each segment are lawful at the end, and stand for the whole list of its changes.
pub fn words_end_lawful()
    ensures { EndsLawful }
{}

/// Whoever died, the words of each segment are lawful at the end but for the lock word, or torn for the plan of a
/// level of Write that a dead pass left.
pub fn words_end_whole_or_torn()
    ensures { EndsWholeOrTorn }
{}

/// A chain has at the end at most one tier more for each change that links one, and for each such plan that a dead
/// pass left.
pub fn chains_grow_by_links()
    ensures { ChainsGrowByLinks }
{}

/// A chain has at the end at least one tier more for each change that links one.
pub fn chains_keep_links()
    ensures { ChainsKeepLinks }
{}

/// Where each seat kept the balance of claims and link changes, the words at the end keep the allowance of extra
/// tiers, whoever died.
pub fn words_end_within_the_allowance()
    ensures { EndsAllowed }
{}

/// A pass that is split off has the balance of claims and link changes, and the root keeps it.
pub fn splits_keep_balance()
    ensures { SplitsKeepBalance }
{}

/// The root keeps the balance where it takes back a pass that has it, live or dead.
pub fn joins_keep_balance()
    ensures { JoinsKeepBalance }
{}

/// A call keeps the balance, also where it died.
pub fn calls_keep_balance()
    ensures { CallsKeepBalance IsIdle }
{}

/// A question keeps the balance.
pub fn questions_keep_balance()
    ensures { QuestionsKeepBalance }
{}

/// A listing keeps the balance, whatever it ends with.
pub fn lists_keep_balance()
    ensures { ListsKeepBalance }
{}

/// The opening of a sweep keeps the balance, whatever it answers.
pub fn openings_keep_balance()
    ensures { OpeningsKeepBalance }
{}

/// A step of a sweep keeps the balance, also where it died.
pub fn steps_keep_balance()
    ensures { CallsKeepBalance (Holds Update) }
{}

/// The closing of a sweep keeps the balance, also where it died.
pub fn closings_keep_balance()
    ensures { ClosingsKeepBalance }
{}

/// The root has raised no number in a stop word at the start.
pub fn starts_leave_stops()
    ensures { StartsLeaveStops }
{}

/// A pass that is split off has raised no number in a stop word, and the root keeps what it took over.
pub fn splits_keep_stops()
    ensures { SplitsKeepStops }
{}

/// What a dead pass raises in a stop word is the number of a level that it left in that segment.
pub fn raises_keep_stops()
    ensures { RaisesKeepStops }
{}

/// A look at a stop word raises nothing.
pub fn looks_keep_stops()
    ensures { LooksKeepStops }
{}

/// A call of a live pass raises nothing, whether it dies or not.
pub fn calls_keep_stops()
    ensures calls { CallsKeepStops IsIdle }
    ensures steps { CallsKeepStops (Holds Update) }
{}

/// A listing, the opening of a sweep or its closing raises nothing, whether it dies or not.
pub fn unclaimed_calls_keep_stops()
    ensures { UnclaimedCallsKeepStops }
{}

/// The root takes over the levels that a pass left together with the numbers that it raised for them.
pub fn joins_keep_stops()
    ensures { JoinsKeepStops }
{}

/// At the end, each number that a pass found in a stop word stands for a level that a dead pass left in that
/// segment: 2 for a Write, and 1 for a Read or an Update.
pub fn stops_stand_for_levels()
    ensures { StopsStandForLevels }
{}

/// At the end the lock word of each segment counts the levels that the root holds and took over there, and no other
/// one.
pub fn lock_words_count_levels()
    ensures { LockWordsCountLevels }
{}

/// The root owes no claim at the start.
pub fn starts_owe_nothing()
    ensures { StartsOweNothing }
{}

/// A pass that is split off owes no claim, and the root owes what it owed.
pub fn splits_owe_nothing()
    ensures { SplitsOweNothing }
{}

/// A call that died owes one claim at most, and any other one owes none.
pub fn calls_owe_for_deaths()
    ensures calls { CallsOweForDeaths IsIdle }
    ensures steps { CallsOweForDeaths (Holds Update) }
{}

/// A listing, the opening of a sweep or its closing owes nothing, whether it dies or not.
pub fn unclaimed_calls_owe_nothing()
    ensures { UnclaimedCallsOweNothing }
{}

/// The root takes over what a pass owes.
pub fn joins_add_owed()
    ensures { JoinsAddOwed }
{}

/// A call that answers FullSpent has found each claim word owned.
pub fn spent_finds_all()
    ensures calls { SpentFindsAll IsIdle }
    ensures steps { SpentFindsAll (Holds Update) }
{}

/// What a pass has found owned it has found after any further call.
pub fn calls_keep_found()
    ensures calls { CallsKeepFound IsIdle }
    ensures steps { CallsKeepFound (Holds Update) }
{}

/// What the root or a pass that it takes back has found owned, the root has found.
pub fn joins_keep_found()
    ensures { JoinsKeepFound }
{}

/// Where a pass has found each claim word owned, at the end all extra tiers are linked but one at most for each
/// death.
pub fn spent_is_near()
    ensures { SpentIsNear }
{}
