/// What a work area says of fault-tolerant writes (this project's own).
#[derive(Clone, Copy, Debug, PartialEq, Eq)]
pub enum WorkState {
    /// No write is pending, and so many of the 255 slots are used.
    Clean { slots: u32 },

    /// The write of a slot is pending: its content stands in the spare, and not yet in the volume.
    Pending { slot: u32 },

    /// The bytes are none that this program leaves in a work area that it has made.
    Unclean,
}
