/// Where lines of calls end: with their text, or at the line behind which a schedule begins.
#[derive(Clone, Copy, Debug, PartialEq, Eq)]
pub enum CallsEnd {
    Text,
    Schedule,
}
