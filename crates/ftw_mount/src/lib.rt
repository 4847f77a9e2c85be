//! Fault-tolerant writes as a whole: the mount that finishes one or gives it up, what an image keeps, and the write of a volume's content. None
//! of them takes memory.
#![tactic(auto)]

mod kept;
mod looking;
mod mount_fault;
mod mounting;
#[cfg(test)]
mod tests;
mod writing;

pub use kept::Kept;
pub use looking::read_kept;
pub use mount_fault::MountFault;
pub use mounting::{mount, mount_by};
pub use writing::{free_slot, write_volume};
