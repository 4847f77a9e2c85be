ghost use Rattle.std.specs.Prelude.{◌≡◌};
ghost use Rattle.ftw_mount.specs.declared.mount_fault.MountFault.TheVariants.{Device as DeviceFault};

use flash_dev::Device;
use thiserror::Error;

/// Why an image is not mounted.
#[derive(Clone, Copy, Debug, PartialEq, Eq, Error)]
pub enum MountFault {
    /// The spare is used, and the work area is none of this program's, so that it isn't known whether a write is pending.
    #[error("the spare is used by another program's work area")]
    ForeignWork,
    #[error("a call of the flash failed")]
    Device,
}

impl From<Device> for MountFault {
    ghost from_gives = { λ _ e. e ≡ DeviceFault };

    fn from(_: Device) -> Self {
        MountFault::Device
    }
}
