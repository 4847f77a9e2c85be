use crate::output::Plan;

/// What a call of the program is to print, and the image that it was given.
#[derive(Drop)]
pub struct Planned<F> {
    pub plan: Plan,
    pub image: F,
}
