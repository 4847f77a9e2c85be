//! The texts of replies to calls about the policies.
ghost use Rattle.std.specs.Prelude.{◌≡◌, [], ◌∷◌, decimal};
ghost use Rattle.report_text.specs.Status.{status_text};
ghost use Rattle.report_text.specs.Word.{word_text};
ghost use Rattle.report_text.specs.declared.status.Status.TheVariants as status;
ghost use Rattle.report_text.specs.declared.word.Word.TheVariants as word;
ghost use Rattle.var_types.specs.Texts.{spaced};
ghost use Rattle.var_types.specs.Values.{AreBytes};
ghost use Rattle.var_types.specs.declared.policy_reply.PolicyReply.TheVariants as policy;
ghost use Rattle.report_text.specs.PolicyReplies.{entry_fault_text, policy_reason_text, policy_reply_text};
ghost use Rattle.report_text.specs.PolicyValues.{HasValuesOfEntryFault, HasValuesOfPolicy, HasValuesOfPolicyReason};

use crate::replies::{write_number_reason, write_two};
use crate::{Part, Status, Word, write_parts};
use var_types::{Bytes, EntryFault, PolicyReason, PolicyReply, Put};

/// Puts the refusal of an entry for a reason without a number.
fn write_entry_word<P: Put>(reason: Word, out: &mut P)
    ensures { P.Puts out.old out.new (spaced (status_text status.InvalidParameter ∷ word_text word.Entry ∷ word_text reason ∷ [])) }
{
    write_parts(
        &[
            Part::Status(Status::InvalidParameter),
            Part::Word(Word::Entry),
            Part::Word(reason),
        ],
        out,
    )
}

/// Puts the refusal of an entry for a reason with a number.
fn write_entry_number<P: Put>(reason: Word, n: u64, out: &mut P)
    ensures { P.Puts out.old out.new (spaced (status_text status.InvalidParameter ∷ word_text word.Entry ∷ word_text reason ∷ decimal n ∷ [])) }
{
    write_parts(
        &[
            Part::Status(Status::InvalidParameter),
            Part::Word(Word::Entry),
            Part::Word(reason),
            Part::Number(n),
        ],
        out,
    )
}

#[tactic(auto, unfolding(crate::specs::PolicyReplies::entry_fault_text))]
fn write_entry_fault<P: Put>(fault: EntryFault, out: &mut P)
    ensures text { P.Puts out.old out.new (entry_fault_text fault) }
    ensures values { HasValuesOfEntryFault fault }
{
    match fault {
        EntryFault::Size => write_entry_word(Word::Size, out),
        EntryFault::Version => write_entry_word(Word::Version, out),
        EntryFault::LockType { value } => {
            write_entry_number(Word::LockType, u64::from(value), out)
        }
        EntryFault::NameForm => write_entry_word(Word::Name, out),
        EntryFault::Offset => write_entry_word(Word::Offset, out),
        EntryFault::Wildcards { count } => {
            write_entry_number(Word::Wildcards, u64::from(count), out)
        }
        EntryFault::MinAboveMax => write_entry_word(Word::MinAboveMax, out),
        EntryFault::OutOfMemory => write_parts(&[Part::Status(Status::NoMemory)], out),
    }
}

#[tactic(auto, unfolding(crate::specs::PolicyReplies::policy_reason_text))]
fn write_policy_reason<P: Put>(reason: PolicyReason, out: &mut P)
    ensures text { P.Puts out.old out.new (policy_reason_text reason) }
    ensures values { HasValuesOfPolicyReason reason }
{
    match reason {
        PolicyReason::Locked => write_two(Status::WriteProtected, Word::Locked, out),
        PolicyReason::Entry(fault) => write_entry_fault(fault, out),
        PolicyReason::Already { place } => {
            write_number_reason(Status::AlreadyStarted, Word::Entry, u64::from(place), out)
        }
        PolicyReason::TableFull { entries } => {
            write_number_reason(Status::OutOfResources, Word::Table, u64::from(entries), out)
        }
        PolicyReason::HistoryFull { made } => {
            write_number_reason(Status::OutOfResources, Word::History, made, out)
        }
        PolicyReason::AlreadyOff => write_two(Status::AlreadyStarted, Word::Off, out),
        PolicyReason::NoEntry { entries } => {
            write_number_reason(Status::NotFound, Word::Entries, u64::from(entries), out)
        }
        PolicyReason::OutOfMemory => write_parts(&[Part::Status(Status::NoMemory)], out),
    }
}

/// Puts the bytes of a policy's entry.
#[tactic(auto, unfolding(crate::specs::PolicyReplies::policy_reply_text))]
fn write_entry<P: Put>(bytes: &Bytes, out: &mut P)
    ensures text { P.Puts out.old out.new (policy_reply_text (policy.Entry bytes.now)) }
    ensures values { AreBytes bytes.now }
{
    let bytes = Part::Bytes(bytes.as_slice());
    write_parts(&[Part::Status(Status::Success), bytes], out)
}

/// Puts the text of a reply to a call about the policies.
#[tactic(auto, unfolding(crate::specs::PolicyReplies::policy_reply_text))]
pub fn write_policy_reply<P: Put>(reply: &PolicyReply, out: &mut P)
    ensures text { P.Puts out.old out.new (policy_reply_text reply.now) }
    ensures values { HasValuesOfPolicy reply.now }
{
    match reply {
        PolicyReply::Ok => write_parts(&[Part::Status(Status::Success)], out),
        PolicyReply::On => write_two(Status::Success, Word::On, out),
        PolicyReply::Off => write_two(Status::Success, Word::Off, out),
        PolicyReply::Entry(bytes) => write_entry(bytes, out),
        PolicyReply::Refused(reason) => write_policy_reason(*reason, out),
        PolicyReply::OutOfMemory => write_parts(&[Part::Status(Status::NoMemory)], out),
    }
}
