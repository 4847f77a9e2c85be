//! Laws of the judgement: each is the contract of a function that does nothing.
ghost use Rattle.auth_rules.specs.Laws.{JudgesAsTheRule, KeepsAsTheRule};

/// The judgement refuses a time-based set as the set rule does by its signature and its stamp, and keeps the stamp that the rule keeps.
pub fn judgements_are_the_rules()
    ensures judges { JudgesAsTheRule }
    ensures keeps { KeepsAsTheRule }
{}
