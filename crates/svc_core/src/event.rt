use flash_dev::Torn;

/// What happens in the world.
#[derive(Clone, Copy, Debug, PartialEq, Eq)]
pub enum Event {
    /// A processor takes its next step.
    Step { processor: u8 },
    /// Power is lost: the flash step that comes next, where the writer's next step is one, has no effect, half of its effect, or all of it.
    Power { torn: Torn },
}

/// What an event did.
#[derive(Clone, Copy, Debug, PartialEq, Eq)]
pub enum Stepped {
    Moved,
    /// Nothing: the processor isn't one of the world's, has no call left or has to wait, or power was lost before.
    Still,
    /// Nothing, for want of memory; the world takes no further event.
    OutOfMemory,
}
