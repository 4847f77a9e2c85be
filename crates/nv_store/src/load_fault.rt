use flash_dev::{Flash, ImageFault};
use thiserror::Error;

/// Why no store is opened over a flash.
#[derive(Clone, Copy, Debug, PartialEq, Eq, Error)]
pub enum LoadWhy {
    /// The flash's length, or a field of the headers of what counts in it, is none of an image; never `ImageFault::Device`.
    #[error("the image is not accepted")]
    Image(ImageFault),
    /// The spare is used, and the work area is none of this program's, so that it isn't known whether a write is pending.
    #[error("the spare is used by another program's work area")]
    ForeignWork,
    #[error("a call of the flash failed")]
    Device,
    #[error("out of memory")]
    OutOfMemory,
}

/// The flash over which no store is opened, and why.
#[derive(Drop)]
pub struct LoadFault<F: Flash> {
    pub why: LoadWhy,
    pub flash: F,
}
