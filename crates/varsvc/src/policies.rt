//! Policy texts: the entries of their policies, and images that are held against them.
mod policy_plan;

pub use policy_plan::{plan_audit, plan_entries};
