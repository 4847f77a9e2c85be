//! Laws of the definitions of regions: each is the contract of a function that does nothing.
ghost use Rattle.var_region.specs.Laws.{ErasedRegionsAreEmpty, OnePassFindsWhatCounts};
ghost use Rattle.var_region.specs.StateSteps.{AddedMayGoIntoTransition, AddedPutTheirVariable, LastTakesTheVariable, StateStepsAreOneBit};
ghost use Rattle.var_region.specs.StateSteps.{TwinsBehindWouldCount, TwinsMayGo};
ghost use Rattle.var_region.specs.WritingLaws.{AppendsAddOneLiveRecord, AppendsAddOneRecord, AppendsPutTheirVariable, BegunRecordsStand};
ghost use Rattle.var_region.specs.WritingLaws.{BodiesKeepTheHeader, HeadersBegin, LiveRecordsStandWhole, MarksChangeOneRecord};
ghost use Rattle.var_region.specs.WritingLaws.{MarksRestateOneLiveRecord, StepsLeaveTheirBytes, TornBodiesChangeNoVariable};
ghost use Rattle.var_region.specs.WritingLaws.{TornHeadersAreHeadersAtMost, TornHeadersChangeNoVariable};

/// A region that is erased from its first record's offset on has no records, no variables and a clean tail.
pub fn erased_regions_are_empty()
    ensures { ErasedRegionsAreEmpty }
{}

/// A pass over live records that holds for a key the one that counts so far finds the one that counts among all.
pub fn what_counts_is_found_in_one_pass()
    ensures { OnePassFindsWhatCounts }
{}

/// An append at a clean tail adds one record, and puts its variable into the map where its key has no ADDED one.
pub fn appends_add_one_record()
    ensures record { AppendsAddOneRecord }
    ensures live { AppendsAddOneLiveRecord }
    ensures map { AppendsPutTheirVariable }
{}

/// The pieces of an append, and its state bytes, leave the bytes of an append.
pub fn appends_go_by_steps()
    ensures header { HeadersBegin }
    ensures body { BodiesKeepTheHeader }
    ensures bytes { StepsLeaveTheirBytes }
{}

/// Whatever bits of a header were programmed, it is no record or one of its header only, and changes no variable.
pub fn torn_headers_change_no_variable()
    ensures records { TornHeadersAreHeadersAtMost }
    ensures lives { TornHeadersChangeNoVariable }
{}

/// Behind a header that stands, whatever of its name and data was programmed, its record is one more, and no variable's before it is ADDED.
pub fn torn_bodies_change_no_variable()
    ensures records { BegunRecordsStand }
    ensures lives { TornBodiesChangeNoVariable }
{}

/// Another state byte of a whole record changes that record's state alone; live records stand whole.
pub fn marks_change_one_record()
    ensures record { MarksChangeOneRecord }
    ensures live { MarksRestateOneLiveRecord }
    ensures whole { LiveRecordsStandWhole }
{}

/// Each step of a state byte is one bit, so that an interrupted one leaves the old byte or the new.
pub fn state_steps_are_one_bit()
    ensures { StateStepsAreOneBit }
{}

/// The steps of a write in place, of which one alone changes the map: the twin goes, the old record goes into transition, the new one becomes
/// ADDED, the old one goes.
pub fn one_step_of_a_write_changes_the_map()
    ensures twin { TwinsMayGo }
    ensures old { AddedMayGoIntoTransition }
    ensures new { AddedPutTheirVariable }
{}

/// The steps of a deletion, of which the last changes the map: the twin goes, then the record; and why a twin behind the record goes first.
pub fn last_step_of_a_deletion_changes_the_map()
    ensures twin { TwinsMayGo }
    ensures last { LastTakesTheVariable }
    ensures behind { TwinsBehindWouldCount }
{}
