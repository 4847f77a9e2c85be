//! Laws of policy texts: each is the contract of a function that does nothing.
ghost use Rattle.policy_audit.specs.Laws.{EntriesSpellPolicies, LinesReadBack, PoliciesReadBack, SpelledEntriesAreRead};

use policy_entry::entries_read_back;

/// What is read of an entry can be spelled, and is read of the entry that is written of it.
pub fn entries_spell_policies()
    ensures spelled { EntriesSpellPolicies }
    ensures read { SpelledEntriesAreRead }
{
    entries_read_back();
}

/// What is written of policies that entries can spell is read as the policies: line by line, and as a whole text.
pub fn texts_read_back()
    ensures lines { LinesReadBack }
    ensures text { PoliciesReadBack }
{
    entries_read_back();
}
