//! The types of the variable services: names, keys, variables, calls and replies, and the definitions that every layer above cites.
#![tactic(auto)]

mod answered;
mod answers;
mod ask;
pub mod attributes;
mod auth_fault;
mod blank;
mod bytes;
mod call;
mod decision;
mod descriptor;
mod entry_fault;
mod guid;
mod key;
mod laws;
mod name;
mod out_of_memory;
mod policy;
mod policy_call;
mod policy_laws;
mod policy_reason;
mod policy_reply;
mod put;
mod record;
mod record_kind;
mod record_state;
mod reply;
mod room;
mod set_laws;
mod set_reason;
mod span;
mod stamp;
mod store;
#[cfg(test)]
mod tests;
pub mod text;
mod text_buffer;
mod units;
mod variable;
mod verdict;
mod work_state;

pub use answered::{Answered, Route};
pub use answers::{GetAnswer, NextAnswer};
pub use ask::{Ask, Denied, Rule};
pub use auth_fault::AuthFault;
pub use blank::is_blank;
pub use bytes::Bytes;
pub use call::{Call, GetCall, NextCall, SetCall};
pub use decision::Decision;
pub use descriptor::{Descriptor, DescriptorFault};
pub use entry_fault::EntryFault;
pub use guid::{Guid, NotAGuid};
pub use key::Key;
pub use laws::{
    bytes_have_one_list_of_records, changes_decide_the_state, changes_keep_soundness,
    contents_depend_on_their_parts, guids_read_back, keys_are_ordered_as_defined,
    kinds_of_records_add_up, legal_sessions_grow, maps_hold_what_counts, regions_own_their_maps,
    replies_are_of_their_calls_kind, right_replies_stay_right, stepped_sessions_are_legal,
    stores_answer_for_their_state, two_maps_are_one, walks_answer_each_key_once,
    work_areas_are_known_by_their_state,
};
pub use name::{LONGEST_NAME, NameFault, check_name};
pub use out_of_memory::OutOfMemory;
pub use policy::{Lock, Policy};
pub use policy_call::PolicyCall;
pub use policy_laws::{
    best_is_best, locked_policies_stay, off_denies_nothing, stamps_are_in_order,
    the_best_policy_decides,
};
pub use policy_reason::PolicyReason;
pub use policy_reply::PolicyReply;
pub use put::Put;
pub use record::Record;
pub use record_kind::RecordKind;
pub use record_state::RecordState;
pub use reply::{ExitReply, GetReply, NextReply, Reply, SetReply};
pub use room::{LARGEST_RECORD, align4, record_size, room_of};
pub use set_laws::{
    appends_join, changes_touch_their_key, decisions_decide, hidden_variables_stay,
    one_case_answers,
};
pub use set_reason::SetReason;
pub use span::Span;
pub use stamp::Stamp;
pub use store::Store;
pub use text_buffer::TextBuffer;
pub use units::{MOST_UNITS, Units, UnitsFault};
pub use variable::Variable;
pub use verdict::Verdict;
pub use work_state::WorkState;
