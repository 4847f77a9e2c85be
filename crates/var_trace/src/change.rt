use crate::{Delta, Entry};

/// A change as it was recorded: what made it, and what it turned in the stores' bytes.
#[derive(Debug, Drop)]
pub struct Change {
    pub entry: Entry,
    pub delta: Delta,
}
