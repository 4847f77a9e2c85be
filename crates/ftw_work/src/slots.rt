ghost use Rattle.std.specs.Prelude.{◌≡◌, ◌<◌, ◌≤◌, IfErr, IfOk};
ghost use Rattle.var_types.specs.WorkArea.{IsClean};
ghost use Rattle.var_types.specs.declared.work_state.WorkState.TheVariants.{Clean};

use crate::layout::SLOTS;
use thiserror::Error;
use var_types::WorkState;

/// All slots of a work area are used, of which there are so many.
#[derive(Clone, Copy, Debug, PartialEq, Eq, Error)]
#[error("all slots of the work area are used")]
pub struct Full {
    pub slots: u32,
}

/// The slot that the next write takes.
pub fn allot(state: WorkState) -> Result<u32, Full>
    requires { IsClean state }
    ensures slot { IfOk result (λ slot. (state ≡ Clean slot) × (slot < 255)) }
    ensures full { IfErr result (λ fault. (state ≡ Clean fault.slots) × (255 ≤ fault.slots)) }
{
    match state {
        WorkState::Clean { slots } if slots < SLOTS => Ok(slots),
        WorkState::Clean { slots } => Err(Full { slots }),
        WorkState::Pending { .. } | WorkState::Unclean => unreachable!(),
    }
}
