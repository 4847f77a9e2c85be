/// How much of its effect the flash step that comes next has where power is lost.
#[derive(Clone, Copy, Debug, PartialEq, Eq)]
pub enum PowerLoss {
    /// None.
    Before,
    /// Half of it.
    Half,
    /// All of it.
    After,
}
