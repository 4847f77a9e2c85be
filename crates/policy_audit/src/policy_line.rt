use thiserror::Error;

/// Why a line of a policy text is refused.
#[derive(Clone, Copy, Debug, PartialEq, Eq, Error)]
pub enum PolicyLine {
    #[error("a byte is neither a tab nor a printable ASCII character")]
    Text,
    #[error("the number of words is wrong")]
    Words,
    #[error("the namespace is no GUID")]
    Guid,
    #[error("the name is none")]
    Name,
    #[error("a size or attributes are no number below 2^32")]
    Number,
    #[error("the lock is none")]
    Lock,
    #[error("the policy is no entry that can be registered")]
    Entry,
    #[error("an earlier line has the same namespace and name")]
    Duplicate,
    #[error("there are more than 1,024 policies")]
    Table,
}
