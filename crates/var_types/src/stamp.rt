/// The time stamp of a variable, an `EFI_TIME` of 16 bytes; all zero where the variable has none (UEFI 2.10, 8.2).
#[derive(Clone, Copy, Debug, PartialEq, Eq)]
pub struct Stamp {
    pub bytes: [u8; 16],
}
