/// The offset of the work area in an image.
pub const WORK_AREA_OFFSET: u32 = 61_440;

/// How many bytes the work area has, one block.
pub const WORK_AREA_BYTES: usize = 4096;

/// The block that is the work area.
pub(crate) const WORK_AREA_BLOCK: u32 = 15;

/// How many slots the work area has.
pub(crate) const SLOTS: u32 = 255;

/// How many bytes a slot has, and the header in front of the slots.
pub(crate) const SLOT_BYTES: usize = 16;

/// What stands at the front of the header, before its gate.
pub(crate) const SIGNATURE: [u8; 15] = *b"VARSVC-FTW-0001";

/// A gate that is open; a closed one is 0xFF.
pub(crate) const OPEN: u8 = 0xFE;
