/// What the second word of a script's line asks for.
#[derive(Clone, Copy, Debug, PartialEq, Eq)]
pub enum Verb {
    Get,
    Next,
    Set,
    Register,
    Lock,
    Disable,
    Enabled,
    Policy,
    ExitBoot,
}
