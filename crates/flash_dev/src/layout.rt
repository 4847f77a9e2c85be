/// How many bytes an image has (OVMF's variable stores of 128 KiB).
pub const IMAGE_BYTES: u64 = 131_072;

/// How many bytes a block has, the unit of erasing.
pub const BLOCK_BYTES: usize = 4096;

/// How many blocks an image has.
pub const BLOCKS: u32 = 32;

/// How many bytes at the front of an image are its variable volume.
pub const VOLUME_BYTES: usize = 57_344;

/// How many bytes the headers of volume and store have; the first record stands behind them.
pub const HEADERS_BYTES: usize = 100;
