use var_region::NewRecord;
use var_types::Guid;

/// What a set changes in its store: a variable is put at its key, or that of a key goes. A name is without its NUL.
#[derive(Clone, Copy, Debug)]
pub enum Edit<'a> {
    Put(NewRecord<'a>),
    Remove { guid: Guid, name: &'a [u16] },
}
