/// The names of an entry, as the bytes before each NUL: that of the variable whose state locks, which has no bytes for any other lock, and
/// the entry's own.
#[derive(Clone, Copy)]
pub(crate) struct Names<'a> {
    pub(crate) state: &'a [u8],
    pub(crate) own: Option<&'a [u8]>,
}
