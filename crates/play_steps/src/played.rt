use var_trace::Session;
use var_types::Bytes;

/// A play's session, and what of the image holds the non-volatile variables where power was lost.
#[derive(Debug, Drop)]
pub struct Played {
    pub session: Session,
    pub kept: Option<Bytes>,
}
