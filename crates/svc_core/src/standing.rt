/// How it stands with a world.
#[derive(Clone, Copy, Debug, PartialEq, Eq)]
pub(crate) enum Standing {
    Running,
    PowerLost,
    /// For want of memory, the world takes no further event.
    GivenUp,
    /// The same, where the writer failed.
    Spoiled,
}
