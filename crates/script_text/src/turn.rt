/// What a line of a schedule lets a processor do.
#[derive(Clone, Copy, Debug, PartialEq, Eq)]
pub enum Turn {
    /// It takes so many steps, or fewer, up to the first that changes nothing.
    Steps { processor: u8, count: u32 },
    /// It takes steps until its current call is answered, or a step changes nothing.
    End { processor: u8 },
}
