//! Laws of the store: each is the contract of a function that does nothing.
ghost use Rattle.nv_store.specs.Laws.{ChangesAreWhole, OpeningsKeepTheVariables};

/// Openings keep the variables of an accepted image, and leave it accepted, however often they are interrupted.
pub fn openings_keep_the_variables()
    ensures { OpeningsKeepTheVariables }
{}

/// A change that is interrupted anywhere leaves the variables of before or those with the change, and openings keep these.
pub fn changes_are_whole()
    ensures { ChangesAreWhole }
{}
