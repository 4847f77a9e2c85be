//! Laws of entries: each is the contract of a function that does nothing.
ghost use Rattle.policy_entry.specs.Laws.{EntriesAreWritten, EntriesReadBack};

/// The entry of each policy that entries can spell reads back as the policy, and what is read of an entry is written as the entry, with its
/// padding 0.
pub fn entries_read_back()
    ensures read { EntriesReadBack }
    ensures written { EntriesAreWritten }
{}
