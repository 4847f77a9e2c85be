//! Laws of the definitions: each is the contract of a function that does nothing.
ghost use Rattle.std.specs.Prelude.{◌≡◌, ℕ, []};
ghost use Rattle.var_types.specs.Census.{KindsAddUp};
ghost use Rattle.var_types.specs.declared.key.Key.{Key};
ghost use Rattle.var_types.specs.Key.{key_cmp};
ghost use Rattle.var_types.specs.Laws.{RightRepliesFit, RightRepliesStayRight, SteppedRepliesFit, SteppedSessionsAreLegal, LegalSessionsGrow, ChangesLeaveTheState};
ghost use Rattle.var_types.specs.Laws.{SameChangesLeaveTheSameState, GuidsReadBack};
ghost use Rattle.var_types.specs.Laws.{BytesHaveRecords, BytesHaveOneList, MapsStandInKeyOrder, MapsHoldWhatCounts, WhatCountsDecidesTheMap};
ghost use Rattle.var_types.specs.ImageLaws.{BlankSparesHoldNothing, CleanAreasAreClean, GapsNeverMatter, NoOthersAreClean, NoOthersArePending, PendingAreasArePending};
ghost use Rattle.var_types.specs.State.{start};
ghost use Rattle.var_types.specs.TwoRegionsLaws.{JoinedMapsAreOrdered, JoinedLookUps, FirstOfJoinedIsLesser, PartsAreTheMap};
ghost use Rattle.var_types.specs.TwoRegionsLaws.{MeaningStoresAreApart, MeaningStoresAnswerAlike, RegionsOwnTheirMaps};
ghost use Rattle.var_types.specs.Walk.{IsSound, ChangesKeepSoundness, WalksAnswerEachKeyOnce};

/// Replies that are right at a place of a history, and those of stepped calls, are of their calls' kinds.
pub fn replies_are_of_their_calls_kind()
    ensures right { RightRepliesFit }
    ensures stepped { SteppedRepliesFit }
{}

/// A reply that is right at a place of a history stays right there while the history grows.
pub fn right_replies_stay_right()
    ensures { RightRepliesStayRight }
{}

/// A session that the one-thread service stepped is a legal one, of one processor.
pub fn stepped_sessions_are_legal()
    ensures { SteppedSessionsAreLegal }
{}

/// A legal session of any processors grows by a call of one of them that is answered after its history.
pub fn legal_sessions_grow()
    ensures { LegalSessionsGrow }
{}

/// What a session leaves is decided by the calls that made changes, in their order.
pub fn changes_decide_the_state()
    ensures run { ChangesLeaveTheState }
    ensures same { SameChangesLeaveTheSameState }
{}

/// Every state that changes lead to from the start has its variables in key order, each once, under well-formed names.
pub fn changes_keep_soundness()
    ensures start { (limit : ℕ) → IsSound (start [] limit) }
    ensures kept { ChangesKeepSoundness }
{}

/// A walk from an empty name, with room for every name, answers each visible key once, in key order, and no other.
pub fn walks_answer_each_key_once()
    ensures { WalksAnswerEachKeyOnce }
{}

/// The text of a GUID reads back as the GUID.
pub fn guids_read_back()
    ensures { GuidsReadBack }
{}

/// Any bytes have exactly one list of records.
pub fn bytes_have_one_list_of_records()
    ensures have { BytesHaveRecords }
    ensures one { BytesHaveOneList }
{}

/// A map of live records stands in key order and holds what counts for each key, so it depends on nothing else of a region.
pub fn maps_hold_what_counts()
    ensures ordered { MapsStandInKeyOrder }
    ensures holds { MapsHoldWhatCounts }
    ensures same { WhatCountsDecidesTheMap }
{}

/// Keys compare as the definition of their order says.
pub fn keys_are_ordered_as_defined()
    ensures { (a b : Key) → ⟦<crate::Key as Ord>⟧.cmp a b ≡ key_cmp a b }
{}

/// The variables of two regions as one map: it stands in key order, a look-up in it is the one's or the other's, and its first variable that
/// passes a test is the lesser of the two regions' own; a map's two parts by a test are apart, and joined they are the map.
pub fn two_maps_are_one()
    ensures ordered { JoinedMapsAreOrdered }
    ensures look_ups { JoinedLookUps }
    ensures first { FirstOfJoinedIsLesser }
    ensures parts { PartsAreTheMap }
{}

/// Reads of two stores that mean a state answer as reads of the state; no key has a variable in both.
pub fn stores_answer_for_their_state()
    ensures apart { MeaningStoresAreApart }
    ensures alike { MeaningStoresAnswerAlike }
{}

/// Each variable of a region's map has what its records have: a well-formed name, no more data than the region has bytes, and in the
/// non-volatile store the attribute for it.
pub fn regions_own_their_maps()
    ensures { RegionsOwnTheirMaps }
{}

/// The bytes of a work area that is Clean or Pending are known by what it says, and say it; with any others it is Unclean.
pub fn work_areas_are_known_by_their_state()
    ensures clean { CleanAreasAreClean }
    ensures clean_only { NoOthersAreClean }
    ensures pending { PendingAreasArePending }
    ensures pending_only { NoOthersArePending }
{}

/// What an image keeps depends on its volume, its work area and its spare alone, and on the volume alone where the spare is blank.
pub fn contents_depend_on_their_parts()
    ensures gap { GapsNeverMatter }
    ensures blank { BlankSparesHoldNothing }
{}

/// The four kinds of a region's records add up to its records.
pub fn kinds_of_records_add_up()
    ensures { KindsAddUp }
{}
