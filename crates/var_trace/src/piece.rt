ghost use Rattle.std.specs.Prelude.{◌≡◌, ◌+◌, ◌-◌, ◌≤◌, length, IfOk};

use std::alloc::Global;
use var_types::{Bytes, OutOfMemory, Span, Store};

/// Bytes of a store from an offset on.
#[derive(Debug, Drop)]
pub struct Piece {
    pub store: Store,
    pub at: u32,
    pub bytes: Bytes,
}

impl Piece {
    ghost use Rattle.var_trace.specs.Pieces.{IsWithin, piece_of, refreshed};

    /// Copies the bytes of a range of a store.
    pub fn copy(alloc: Global, store: Store, bytes: &[u8], span: Span) -> Result<Piece, OutOfMemory>
        requires order { span.from ≤ span.to }
        requires within { span.to ≤ length bytes.now }
        ensures { IfOk result (λ piece. piece ≡ piece_of store bytes.now span) }
    {
        Ok(Piece {
            store,
            at: span.from,
            bytes: Bytes::copy(alloc, &bytes[span.from as usize..span.to as usize])?,
        })
    }

    pub(crate) fn duplicate(&self) -> Result<Piece, OutOfMemory>
        ensures { IfOk result (λ piece. piece ≡ self.now) }
    {
        Ok(Piece {
            store: self.store,
            at: self.at,
            bytes: self.bytes.clone()?,
        })
    }

    /// Takes the bytes that stand at its place now, as many as it has.
    pub fn refresh(&mut self, bytes: &[u8])
        requires { IsWithin (length bytes.now) self.old }
        ensures { self.new ≡ refreshed bytes.now self.old }
    {
        let at = self.at as usize;
        let count = self.bytes.as_slice().len();
        self.bytes.overwrite(&bytes[at..at + count]);
    }
}
