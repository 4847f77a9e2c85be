//! Laws of compacted regions: each is the contract of a function that does nothing.
ghost use Rattle.region_compact.specs.Laws.{CompactionsHaveTheirSize, CompactionsKeepTheMap, CompactionsKeepTheOrder, CompactionsLeaveAddedAlone};
ghost use Rattle.region_compact.specs.Laws.{CompactionsLeaveOrder};
ghost use Rattle.region_compact.specs.Laws.{CopiesKeepTheirHeaders, SizesAreTheRoom, SizesAreTheRoomNeeded, VariablesFit};

/// A compacted region has the map of before with the replacement, each key's variable once and ADDED, in the order of its record, and a clean tail.
pub fn compactions_keep_the_map()
    ensures map { CompactionsKeepTheMap }
    ensures records { CompactionsKeepTheOrder }
    ensures clean { CompactionsLeaveOrder }
{}

/// The census of a compacted region is that of its variables: as many ADDED records, and no other ones.
pub fn compactions_leave_added_alone()
    ensures { CompactionsLeaveAddedAlone }
{}

/// A record that is copied keeps its header behind the first four bytes.
pub fn copies_keep_their_headers()
    ensures { CopiesKeepTheirHeaders }
{}

/// A compacted region's size is the room of its variables, which the set rule counts.
pub fn sizes_are_the_room()
    ensures bytes { CompactionsHaveTheirSize }
    ensures room { SizesAreTheRoom }
    ensures needed { SizesAreTheRoomNeeded }
{}

/// The variables of a region use at most the room that it has, whatever its bytes.
pub fn variables_fit()
    ensures { VariablesFit }
{}
