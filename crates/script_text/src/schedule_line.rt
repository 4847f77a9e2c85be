use crate::PowerLoss;

/// What a line of a schedule says, before it is known whether there is such a processor.
#[derive(Clone, Copy, Debug, PartialEq, Eq)]
pub enum ScheduleLine {
    Steps { processor: u32, count: u32 },
    End { processor: u32 },
    Power { loss: PowerLoss },
}
