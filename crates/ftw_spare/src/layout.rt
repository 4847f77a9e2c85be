/// The offset of the spare in an image, whose rest it is.
pub const SPARE_OFFSET: u32 = 65_536;

/// The first block of the spare.
pub(crate) const SPARE_BLOCK: u32 = 16;

/// How many blocks the volume has, from the first of the image on.
pub(crate) const VOLUME_BLOCKS: u32 = 14;
