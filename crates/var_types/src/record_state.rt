ghost use Rattle.std.specs.Prelude.{◌≡◌};
ghost use Rattle.var_types.specs.RecordState.{record_state};

use var_header::{VAR_ADDED, VAR_IN_DELETED_TRANSITION};

/// The state of a record that can hold a variable: ADDED, the state byte 0x3F (EDK II, VAR_ADDED), or in transition to deleted, the state
/// byte 0x3E (VAR_ADDED & VAR_IN_DELETED_TRANSITION).
#[derive(Clone, Copy, Debug, PartialEq, Eq)]
pub enum RecordState {
    Added,
    InDeletedTransition,
}

impl RecordState {
    /// The state that a state byte says; a record with any other byte holds no variable.
    pub fn of(state: u8) -> Option<RecordState>
        ensures { result ≡ record_state state }
    {
        if state == VAR_ADDED {
            return Some(RecordState::Added);
        }
        if state == VAR_ADDED & VAR_IN_DELETED_TRANSITION {
            return Some(RecordState::InDeletedTransition);
        }
        None
    }
}
