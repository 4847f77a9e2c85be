use crate::image::Content;
use var_trace::Session;

/// What is printed while it is written.
#[derive(Debug, Drop)]
pub enum Streamed {
    /// The report of a session.
    Report {
        session: Session,
    },
    /// The report of a session that was played, and the listing of what a loss of power left, if it was lost.
    Play {
        session: Session,
        left: Option<Content>,
    },
    /// The listing of the variables of a content.
    Listing {
        content: Content,
    },
    /// The script of a number.
    Script {
        number: u32,
    },
}
