//! A store's region as a value: its records one after the other, which of them are variables', and the offset behind them.
#![tactic(auto)]

mod above;
mod appending;
mod find;
mod found;
mod laws;
mod lives;
mod marking;
mod name;
mod name_bytes;
mod new_record;
mod order;
mod records;
mod region;
mod store_region;
mod tail;
mod tally;
#[cfg(test)]
mod tally_tests;
#[cfg(test)]
mod tests;
mod walk;
mod wanted;
#[cfg(test)]
mod writing_tests;

pub use appending::{append, append_body, append_header};
pub use find::counting;
pub use found::Found;
pub use laws::{
    appends_add_one_record, appends_go_by_steps, erased_regions_are_empty,
    last_step_of_a_deletion_changes_the_map, marks_change_one_record,
    one_step_of_a_write_changes_the_map, state_steps_are_one_bit, torn_bodies_change_no_variable,
    torn_headers_change_no_variable, what_counts_is_found_in_one_pass,
};
pub use lives::Lives;
pub use marking::mark;
pub use new_record::NewRecord;
pub use order::order_of;
pub use region::Region;
pub use store_region::region_in;
pub use tail::Tail;
pub use tally::Tally;
pub use var_types::Record;
pub use walk::Walk;
pub use wanted::has_key;
