//! Replies from what a read answered and put into its caller's buffer.
ghost use Rattle.std.specs.Prelude.{◌≡◌, ◌≤◌, length, IfOk};
ghost use Rattle.runtime_cache.specs.Copies.{IsGetAnswered, IsNextAnswered};
ghost use Rattle.var_types.specs.Layout.{most_units};
ghost use Rattle.var_types.specs.declared.reply.GetReply.{GetReply as GetReplied};
ghost use Rattle.var_types.specs.declared.reply.NextReply.{NextReply as NextReplied};

use std::alloc::Global;
use var_types::{Bytes, GetAnswer, GetReply, Key, NextAnswer, NextReply, OutOfMemory, Units};

/// The reply of GetVariable for an answer, with the data copied from the buffer that took them.
pub fn copied_get(alloc: Global, answer: GetAnswer, buffer: &[u8]) -> Result<GetReply, OutOfMemory>
    requires answered { (reply : GetReplied) × IsGetAnswered answer buffer.now reply }
    ensures reply { (reply : GetReplied) → IsGetAnswered answer buffer.now reply → IfOk result (λ r. r ≡ reply) }
{
    match answer {
        GetAnswer::NotFound => Ok(GetReply::NotFound),
        GetAnswer::TooSmall { attributes, needed } => Ok(GetReply::TooSmall { attributes, needed }),
        GetAnswer::Ok { attributes, length } => {
            let bytes = Bytes::copy(alloc, &buffer[..length as usize])?;
            Ok(GetReply::Ok { attributes, bytes })
        }
    }
}

fn units_of(alloc: Global, units: &[u16]) -> Result<Units, OutOfMemory>
    requires { length units.now ≤ most_units }
    ensures { IfOk result (λ u. u ≡ units.now) }
{
    Ok(Units::from_vec(units.to_vec(alloc)?))
}

/// The reply of GetNextVariableName for an answer, with the name copied from the buffer that took it.
pub fn copied_next(
    alloc: Global,
    answer: NextAnswer,
    buffer: &[u16],
) -> Result<NextReply, OutOfMemory>
    requires few { length buffer.now ≤ most_units }
    requires answered { (reply : NextReplied) × IsNextAnswered answer buffer.now reply }
    ensures reply { (reply : NextReplied) → IsNextAnswered answer buffer.now reply → IfOk result (λ r. r ≡ reply) }
{
    match answer {
        NextAnswer::NoSuch => Ok(NextReply::NoSuch),
        NextAnswer::End => Ok(NextReply::End),
        NextAnswer::TooSmall { needed } => Ok(NextReply::TooSmall { needed }),
        NextAnswer::Ok { guid, units } => {
            let name = units_of(alloc, &buffer[..units as usize])?;
            Ok(NextReply::Ok {
                key: Key { guid, name },
            })
        }
    }
}
