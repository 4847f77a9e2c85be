//! Laws of policies and of time stamps: each is the contract of a function that does nothing.
ghost use Rattle.var_types.specs.PolicyLaws.{BestAloneDenies, BestIsBest, LaterNeedsFewer, LockedPoliciesStay, OffDeniesNothing, NoneIsLaterThanItself, LaterIsPassedOn, OneIsLater};

/// The policy that counts for a key is the first of those that cover it with the fewest wildcards.
pub fn best_is_best()
    ensures { BestIsBest }
{}

/// What a set is denied by depends on the policy that counts alone, and one that is registered later counts only with fewer wildcards.
pub fn the_best_policy_decides()
    ensures alone { BestAloneDenies }
    ensures later { LaterNeedsFewer }
{}

/// Policies that are locked stay as they are.
pub fn locked_policies_stay()
    ensures { LockedPoliciesStay }
{}

/// With policy off no set is denied.
pub fn off_denies_nothing()
    ensures { OffDeniesNothing }
{}

/// Stamps are in order: none is later than itself, a later one's later one is later, and of two different times one is later.
pub fn stamps_are_in_order()
    ensures itself { NoneIsLaterThanItself }
    ensures passed_on { LaterIsPassedOn }
    ensures one { OneIsLater }
{}
