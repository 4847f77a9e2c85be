use var_region::NewRecord;
use var_types::Guid;

/// What a compaction changes in the map. A name is without its NUL.
#[derive(Clone, Copy, Debug)]
pub enum Replace<'a> {
    /// Nothing.
    None,
    /// The new record's variable is put at its key.
    Put(NewRecord<'a>),
    /// The variable of this key goes, where there is one.
    Drop { guid: Guid, name: &'a [u16] },
}
