ghost use Rattle.std.specs.Prelude.{◌≡◌, ◌≤◌, [], length, map, All, IfOk};
ghost use Rattle.var_types.specs.Spans.{AreWithin};
ghost use Rattle.var_trace.specs.Pieces.{IsWithin, piece_of, refreshed};

use crate::Piece;
use std::alloc::Global;
use std::marker::Model;
use var_types::{OutOfMemory, Span, Store};

/// What a change turned in the stores' bytes: pieces of bytes as they are afterwards, and whether the phase is runtime then.
#[derive(Debug, Drop)]
pub struct Delta {
    pieces: Vec<Piece>,
    phase: bool,
}

impl Model for Delta {
    ghost use Rattle.var_trace.specs.StoreChange.{StoreChange};

    ghost Value = { StoreChange };

    ghost view = { λ d. record { pieces = d.pieces.items; phase = d.phase } };
}

impl Delta {
    /// No bytes; takes no memory.
    pub fn none(alloc: Global, phase: bool) -> Delta
        ensures { result ≡ record { pieces = []; phase = phase } }
    {
        Delta {
            pieces: Vec::new(alloc),
            phase,
        }
    }

    /// The bytes that now stand in these ranges of a store.
    pub fn of(
        alloc: Global,
        store: Store,
        bytes: &[u8],
        spans: &[Span],
        phase: bool,
    ) -> Result<Delta, OutOfMemory>
        requires { AreWithin spans.now (length bytes.now) }
        ensures { IfOk result (λ delta. delta ≡ record { pieces = map (piece_of store bytes.now) spans.now; phase = phase }) }
    {
        Ok(Delta {
            pieces: pieces_of(alloc, store, bytes, spans)?,
            phase,
        })
    }

    /// Takes the bytes that stand at the pieces' places now, as many as they have; takes no memory.
    pub fn refresh(&mut self, bytes: &[u8])
        requires { All (IsWithin (length bytes.now)) self.old.pieces }
        ensures { self.new ≡ record self.old { pieces = map (refreshed bytes.now) self.old.pieces } }
    {
        refresh_all(&mut self.pieces, bytes);
    }

    pub fn copy(&self, alloc: Global) -> Result<Delta, OutOfMemory>
        ensures { IfOk result (λ delta. delta ≡ self.now) }
    {
        Ok(Delta {
            pieces: copies_of(alloc, &self.pieces)?,
            phase: self.phase,
        })
    }

    pub fn pieces(&self) -> &[Piece]
        ensures { result.now ≡ self.now.pieces }
    {
        self.pieces.as_slice()
    }

    /// Whether the phase is runtime afterwards.
    pub fn phase(&self) -> bool
        ensures { result ≡ self.now.phase }
    {
        self.phase
    }
}

// The bytes in some ranges of a store.
fn pieces_of(
    alloc: Global,
    store: Store,
    bytes: &[u8],
    spans: &[Span],
) -> Result<Vec<Piece>, OutOfMemory>
    requires { AreWithin spans.now (length bytes.now) }
    ensures { IfOk result (λ pieces. pieces.items ≡ map (piece_of store bytes.now) spans.now) }
{
    let mut pieces = Vec::with_capacity(alloc, spans.len())?;
    for span in spans {
        pieces.push(Piece::copy(alloc, store, bytes, *span)?)?;
    }
    Ok(pieces)
}

// Lets each piece take the bytes that stand at its place now.
fn refresh_all(pieces: &mut [Piece], bytes: &[u8])
    requires { All (IsWithin (length bytes.now)) pieces.old }
    ensures { pieces.new ≡ map (refreshed bytes.now) pieces.old }
{
    for piece in pieces.iter_mut() {
        piece.refresh(bytes);
    }
}

fn copies_of(alloc: Global, pieces: &[Piece]) -> Result<Vec<Piece>, OutOfMemory>
    ensures { IfOk result (λ copies. copies.items ≡ pieces.now) }
{
    let mut copies = Vec::with_capacity(alloc, pieces.len())?;
    for piece in pieces {
        copies.push(piece.duplicate()?)?;
    }
    Ok(copies)
}
