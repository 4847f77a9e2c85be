ghost use Rattle.std.specs.Prelude.{◌≡◌};
ghost use Rattle.flash_dev.specs.declared.image_fault.ImageFault.TheVariants.{Device as DeviceFault};

use crate::Device;
use thiserror::Error;

/// Why an image is not accepted. Offsets are in bytes from the image's front.
#[derive(Clone, Copy, Debug, PartialEq, Eq, Error)]
pub enum ImageFault {
    #[error("{have} bytes, where an image has {want}")]
    ImageSize { have: u64, want: u64 },
    /// The field of the volume header at this offset is none of a variable volume.
    #[error("the field at {at} is none of a variable volume")]
    NotAVolume { at: u32 },
    #[error("blocks of {value} bytes")]
    BlockSize { value: u32 },
    /// The 16-bit numbers of the volume header come to this sum, modulo 65,536, and not to 0.
    #[error("the volume header's sum is {sum}")]
    BadSum { sum: u16 },
    /// The field of the store header at this offset is none of a variable store.
    #[error("the field at {at} is none of a variable store")]
    NotAStore { at: u32 },
    #[error("a call of the flash failed")]
    Device,
}

impl From<Device> for ImageFault {
    ghost from_gives = { λ _ e. e ≡ DeviceFault };

    fn from(_: Device) -> Self {
        ImageFault::Device
    }
}
