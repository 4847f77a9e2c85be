use var_types::Bytes;

/// One step of the flash.
#[derive(Debug, Drop)]
pub enum FlashStep {
    /// Clears the bits of the range from an offset on that are clear in the bytes.
    Program { at: u32, bytes: Bytes },
    /// Sets all bits of a block of 4,096 bytes.
    Erase { block: u32 },
}
