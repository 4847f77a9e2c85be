//! Laws of the set rule: each is the contract of a function that does nothing.
ghost use Rattle.var_types.specs.SetLaws.{OneCaseAnswers, NoOtherAnswers, DecisionsDecide, OthersLeaveTheState, ChangesTouchTheirKey};
ghost use Rattle.var_types.specs.SetLaws.{RuntimeChangesAreSeen, HiddenStays, AppendsJoin};

/// A set comes to what exactly one case of the rule answers, or to its change where none holds.
pub fn one_case_answers()
    ensures one { OneCaseAnswers }
    ensures no_other { NoOtherAnswers }
{}

/// What a set comes to decides its reply and the state that it leaves, and tells those who carry it out what they may rely on.
pub fn decisions_decide()
    ensures { DecisionsDecide }
{}

/// A set that is answered Ok changes what is stored at its key alone and is counted; any other leaves the state.
pub fn changes_touch_their_key()
    ensures others { OthersLeaveTheState }
    ensures one { ChangesTouchTheirKey }
{}

/// At runtime what a set changes is non-volatile and seen by callers, and what they don't see stays.
pub fn hidden_variables_stay()
    ensures seen { RuntimeChangesAreSeen }
    ensures hidden { HiddenStays }
{}

/// An append makes the variable that a set of the joined bytes makes, but for the stamp.
pub fn appends_join()
    ensures { AppendsJoin }
{}
