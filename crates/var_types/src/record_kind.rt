/// What a record of a region is to a census: a variable's that is ADDED or in transition to deleted; one that is no variable's and is deleted;
/// or any other, as one of a header only or of foreign attributes.
#[derive(Clone, Copy, Debug, PartialEq, Eq)]
pub enum RecordKind {
    Added,
    InTransition,
    Deleted,
    Other,
}
