ghost use Rattle.std.specs.Prelude.{◌≡◌, false, true, List, ℕ};
ghost use Rattle.ftw_mount.specs.Mount.{Describes};
ghost use Rattle.var_types.specs.Kept.{IsForeign, IsSound};

use var_types::WorkState;

/// What decides which part of an image counts: what its work area says, and whether its spare is blank.
#[derive(Clone, Copy, Debug, PartialEq, Eq)]
pub struct Kept {
    pub state: WorkState,
    pub blank: bool,
}

impl Kept {
    /// Whether an image that is so is foreign work.
    pub fn is_foreign(self) -> bool
        ensures foreign { result ≡ true → (image : List ℕ) → Describes self image → IsForeign image }
        ensures sound { result ≡ false → (image : List ℕ) → Describes self image → IsSound image }
    {
        match self.state {
            WorkState::Unclean => !self.blank,
            WorkState::Clean { .. } | WorkState::Pending { .. } => false,
        }
    }
}
