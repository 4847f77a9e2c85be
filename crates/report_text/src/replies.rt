ghost use Rattle.std.specs.Prelude.{◌≡◌, [], ◌∷◌, decimal};
ghost use Rattle.report_text.specs.Status.{status_text};
ghost use Rattle.report_text.specs.Word.{word_text};
ghost use Rattle.report_text.specs.declared.word.Word.TheVariants as word;
ghost use Rattle.var_types.specs.Guid.{IsGuid, guid_text};
ghost use Rattle.var_types.specs.Texts.{attributes_text, name_text, spaced};
ghost use Rattle.var_types.specs.declared.set_reason.SetReason.TheVariants as reason;
ghost use Rattle.var_types.specs.Values.{AreBytes, AreUnits};
ghost use Rattle.report_text.specs.Replies.{exit_reply_text, get_reply_text, next_reply_text, name_fault_text, reason_text, rule_status, set_reply_text, reply_text};
ghost use Rattle.report_text.specs.Values.{HasValues, HasValuesOfExit, HasValuesOfFault, HasValuesOfGet, HasValuesOfNext, HasValuesOfReason, HasValuesOfSet};

use crate::policy_replies::write_policy_reply;
use crate::{Part, Status, Word, write_parts};
use var_types::text::write_name;
use var_types::{
    ExitReply, GetReply, Key, NameFault, NextReply, Put, Reply, Rule, SetReason, SetReply, Stamp,
};

#[tactic(auto, unfolding(crate::specs::Replies::get_reply_text))]
fn write_get_reply<P: Put>(reply: &GetReply, out: &mut P)
    ensures text { P.Puts out.old out.new (get_reply_text reply.now) }
    ensures values { HasValuesOfGet reply.now }
{
    match reply {
        GetReply::NotFound => write_parts(&[Part::Status(Status::NotFound)], out),
        GetReply::TooSmall { attributes, needed } => {
            let attributes = Part::Attributes(*attributes);
            let needed = Part::Number(u64::from(*needed));
            write_parts(
                &[Part::Status(Status::BufferTooSmall), attributes, needed],
                out,
            )
        }
        GetReply::Ok { attributes, bytes } => {
            let attributes = Part::Attributes(*attributes);
            let bytes = Part::Bytes(bytes.as_slice());
            write_parts(&[Part::Status(Status::Success), attributes, bytes], out)
        }
        GetReply::OutOfMemory => write_parts(&[Part::Status(Status::NoMemory)], out),
    }
}

fn write_key<P: Put>(key: &Key, out: &mut P)
    ensures text { P.Puts out.old out.new (spaced (guid_text key.now.guid ∷ name_text key.now.name ∷ [])) }
    ensures values { IsGuid key.now.guid × AreUnits key.now.name }
{
    key.guid.write(out);
    out.put(b" ");
    write_name(key.name.as_slice(), out);
}

#[tactic(auto, unfolding(crate::specs::Replies::next_reply_text))]
fn write_next_reply<P: Put>(reply: &NextReply, out: &mut P)
    ensures text { P.Puts out.old out.new (next_reply_text reply.now) }
    ensures values { HasValuesOfNext reply.now }
{
    match reply {
        NextReply::NoSuch => {
            write_parts(
                &[
                    Part::Status(Status::InvalidParameter),
                    Part::Word(Word::NoSuch),
                ],
                out,
            )
        }
        NextReply::End => {
            write_parts(
                &[Part::Status(Status::NotFound), Part::Word(Word::End)],
                out,
            )
        }
        NextReply::TooSmall { needed } => {
            let needed = Part::Number(u64::from(*needed));
            write_parts(&[Part::Status(Status::BufferTooSmall), needed], out)
        }
        NextReply::Ok { key } => {
            write_parts(&[Part::Status(Status::Success)], out);
            out.put(b" ");
            write_key(key, out)
        }
        NextReply::OutOfMemory => write_parts(&[Part::Status(Status::NoMemory)], out),
    }
}

#[tactic(auto, unfolding(crate::specs::Replies::name_fault_text))]
fn write_name_fault<P: Put>(fault: NameFault, out: &mut P)
    ensures text { P.Puts out.old out.new (name_fault_text fault) }
    ensures values { HasValuesOfFault fault }
{
    let invalid = Part::Status(Status::InvalidParameter);
    let name = Part::Word(Word::Name);
    match fault {
        NameFault::Empty => write_parts(&[invalid, name, Part::Word(Word::Empty)], out),
        NameFault::TooLong { units } => {
            write_parts(
                &[invalid, name, Part::Word(Word::Long), Part::Number(units)],
                out,
            )
        }
        NameFault::InnerNul { at } => {
            let at = Part::Number(u64::from(at));
            write_parts(&[invalid, name, Part::Word(Word::Nul), at], out)
        }
    }
}

fn rule_status(rule: Rule) -> Status
    ensures { result ≡ rule_status rule }
{
    match rule {
        Rule::MinSize | Rule::MaxSize | Rule::Must | Rule::Cant => Status::InvalidParameter,
        Rule::LockNow | Rule::LockOnCreate | Rule::LockOnState => Status::WriteProtected,
    }
}

/// Puts a status and a reason without numbers.
pub(crate) fn write_two<P: Put>(status: Status, reason: Word, out: &mut P)
    ensures { P.Puts out.old out.new (spaced (status_text status ∷ word_text reason ∷ [])) }
{
    write_parts(&[Part::Status(status), Part::Word(reason)], out)
}

/// Puts a status, a reason, and a number.
pub(crate) fn write_number_reason<P: Put>(status: Status, reason: Word, n: u64, out: &mut P)
    ensures { P.Puts out.old out.new (spaced (status_text status ∷ word_text reason ∷ decimal n ∷ [])) }
{
    write_parts(
        &[Part::Status(status), Part::Word(reason), Part::Number(n)],
        out,
    )
}

/// Puts a status, a reason, and two numbers.
fn write_numbers_reason<P: Put>(status: Status, reason: Word, m: u64, n: u64, out: &mut P)
    ensures { P.Puts out.old out.new (spaced (status_text status ∷ word_text reason ∷ decimal m ∷ decimal n ∷ [])) }
{
    write_parts(
        &[
            Part::Status(status),
            Part::Word(reason),
            Part::Number(m),
            Part::Number(n),
        ],
        out,
    )
}

/// Puts a status and bits.
fn write_bits<P: Put>(status: Status, bits: u32, out: &mut P)
    ensures { P.Puts out.old out.new (spaced (status_text status ∷ word_text word.Bits ∷ attributes_text bits ∷ [])) }
{
    write_parts(
        &[
            Part::Status(status),
            Part::Word(Word::Bits),
            Part::Attributes(bits),
        ],
        out,
    )
}

#[tactic(auto, unfolding(crate::specs::Replies::reason_text))]
fn write_attributes_reason<P: Put>(stored: u32, asked: u32, out: &mut P)
    ensures { P.Puts out.old out.new (reason_text (reason.AttributesDiffer stored asked)) }
{
    write_parts(
        &[
            Part::Status(Status::InvalidParameter),
            Part::Word(Word::Attributes),
            Part::Attributes(stored),
            Part::Attributes(asked),
        ],
        out,
    )
}

#[tactic(auto, unfolding(crate::specs::Replies::reason_text))]
fn write_denied<P: Put>(place: u32, rule: Rule, out: &mut P)
    ensures { P.Puts out.old out.new (reason_text (reason.Denied place rule)) }
{
    write_parts(
        &[
            Part::Status(rule_status(rule)),
            Part::Word(Word::Denied),
            Part::Number(u64::from(place)),
            Part::Rule(rule),
        ],
        out,
    )
}

/// The bytes of a stamp, as a type tells them.
fn stamp_bytes(stamp: &Stamp) -> &[u8]
    ensures items { result.now ≡ stamp.now.bytes }
    ensures values { AreBytes stamp.now.bytes }
{
    let bytes = stamp.bytes.as_slice();
    bytes
}

/// Puts the refusal of an old stamp: both with all their digits, also where one is none.
#[tactic(auto, unfolding(crate::specs::Replies::reason_text))]
fn write_stamps<'x, P: Put>(stored: &'x Stamp, new: &'x Stamp, out: &mut P)
    ensures text { P.Puts out.old out.new (reason_text (reason.Stamp stored.now new.now)) }
    ensures values { AreBytes stored.now.bytes × AreBytes new.now.bytes }
{
    write_parts(
        &[
            Part::Status(Status::SecurityViolation),
            Part::Word(Word::Stamp),
            Part::Bytes(stamp_bytes(stored)),
            Part::Bytes(stamp_bytes(new)),
        ],
        out,
    )
}

#[tactic(auto, unfolding(crate::specs::Replies::reason_text))]
fn write_reason<P: Put>(reason: SetReason, out: &mut P)
    ensures text { P.Puts out.old out.new (reason_text reason) }
    ensures values { HasValuesOfReason reason }
{
    let invalid = Status::InvalidParameter;
    let locked = Status::WriteProtected;
    let insecure = Status::SecurityViolation;
    match reason {
        SetReason::Name(fault) => write_name_fault(fault, out),
        SetReason::Unsupported { bits } => write_bits(Status::Unsupported, bits, out),
        SetReason::Unknown { bits } => write_bits(invalid, bits, out),
        SetReason::RuntimeWithoutBoot => write_two(invalid, Word::RuntimeWithoutBoot, out),
        SetReason::Hidden => write_two(invalid, Word::Hidden, out),
        SetReason::VolatileAtRuntime => write_two(locked, Word::Volatile, out),
        SetReason::RuntimeNeedsNonVolatile => {
            write_two(invalid, Word::RuntimeNeedsNonVolatile, out)
        }
        SetReason::Descriptor { at } => {
            write_number_reason(insecure, Word::Descriptor, u64::from(at), out)
        }
        SetReason::Size { have, limit } => {
            write_numbers_reason(invalid, Word::Size, have, u64::from(limit), out)
        }
        SetReason::Denied { place, rule } => write_denied(place, rule, out),
        SetReason::Missing => write_two(Status::NotFound, Word::Missing, out),
        SetReason::NeedsAuthentication => write_two(locked, Word::Authentication, out),
        SetReason::AttributesDiffer { stored, asked } => {
            write_attributes_reason(stored, asked, out)
        }
        SetReason::Verdict => write_two(insecure, Word::Verdict, out),
        SetReason::Stamp { stored, new } => write_stamps(&stored, &new, out),
        SetReason::AppendSize { have, limit } => {
            write_numbers_reason(invalid, Word::AppendSize, have, u64::from(limit), out)
        }
        SetReason::Room { need, have } => write_numbers_reason(
            Status::OutOfResources,
            Word::Room,
            u64::from(need),
            u64::from(have),
            out,
        ),
        SetReason::HistoryFull { made } => {
            write_number_reason(Status::OutOfResources, Word::History, made, out)
        }
    }
}

#[tactic(auto, unfolding(crate::specs::Replies::set_reply_text))]
fn write_set_reply<P: Put>(reply: &SetReply, out: &mut P)
    ensures text { P.Puts out.old out.new (set_reply_text reply.now) }
    ensures values { HasValuesOfSet reply.now }
{
    match reply {
        SetReply::Ok => write_parts(&[Part::Status(Status::Success)], out),
        SetReply::Same => write_parts(
            &[Part::Status(Status::Success), Part::Word(Word::Same)],
            out,
        ),
        SetReply::Refused(reason) => write_reason(*reason, out),
        SetReply::Device => write_parts(&[Part::Status(Status::DeviceError)], out),
        SetReply::OutOfMemory => write_parts(&[Part::Status(Status::NoMemory)], out),
    }
}

#[tactic(auto, unfolding(crate::specs::Replies::exit_reply_text))]
fn write_exit_reply<P: Put>(reply: ExitReply, out: &mut P)
    ensures text { P.Puts out.old out.new (exit_reply_text reply) }
    ensures values { HasValuesOfExit reply }
{
    match reply {
        ExitReply::Ok => write_parts(&[Part::Status(Status::Success)], out),
        ExitReply::Same => write_two(Status::Success, Word::Same, out),
        ExitReply::HistoryFull { made } => {
            write_number_reason(Status::OutOfResources, Word::History, made, out)
        }
    }
}

/// Puts the text of a reply.
#[tactic(auto, unfolding(crate::specs::Replies::reply_text))]
pub fn write_reply<P: Put>(reply: &Reply, out: &mut P)
    ensures text { P.Puts out.old out.new (reply_text reply.now) }
    ensures values { HasValues reply.now }
{
    match reply {
        Reply::Get(reply) => write_get_reply(reply, out),
        Reply::Next(reply) => write_next_reply(reply, out),
        Reply::Set(reply) => write_set_reply(reply, out),
        Reply::Policy(reply) => write_policy_reply(reply, out),
        Reply::Exit(reply) => write_exit_reply(*reply, out),
    }
}
