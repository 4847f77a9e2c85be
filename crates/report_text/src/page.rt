ghost use Rattle.std.specs.Prelude.{◌≡◌, ◌<◌, ◌+◌, ◌*◌, ◌++◌, [], true, false, length, IfOk, vec_len};
ghost use Rattle.hex.specs.Hex.{encode_lower};

use std::alloc::{AllocError, Global};
use std::marker::Model;
use var_types::OutOfMemory;

/// How many bytes a page has.
pub(crate) const PAGE_BYTES: usize = 65_536;

/// A fixed room for texts on their way to a sink. Once a write of the sink has failed, the page is broken, and nothing is put to it.
#[derive(Debug, Drop)]
pub struct Page {
    room: Vec<u8>,
    filled: usize,
    broken: bool,
}

impl Model for Page {
    ghost use Rattle.std.specs.Prelude.{◌≡◌, ◌≤◌, take, vec_len};
    ghost use Rattle.report_text.specs.Flow.{Kept};

    ghost Value = { Kept };

    ghost view = { λ p. record { bytes = take p.filled p.room.items; broken = p.broken } };

    ghost invariant = { λ p. (p.filled ≤ vec_len p.room) × (vec_len p.room ≡ 65536) };
}

// So many bytes 0.
fn zeros(alloc: Global, len: usize) -> Result<Vec<u8>, AllocError>
    ensures { IfOk result (λ v. vec_len v ≡ len) }
{
    vec![in alloc; 0u8; len]
}

impl Page {
    ghost use Rattle.report_text.specs.Flow.{empty};

    /// An empty page, with all the memory that it ever takes.
    pub fn new(alloc: Global) -> Result<Self, OutOfMemory>
        ensures { IfOk result (λ page. page ≡ empty) }
    {
        Ok(Page {
            room: zeros(alloc, PAGE_BYTES)?,
            filled: 0,
            broken: false,
        })
    }

    /// Whether a write of the sink failed.
    pub fn is_broken(&self) -> bool
        ensures { result ≡ self.now.broken }
    {
        self.broken
    }

    // The bytes that it keeps.
    pub(crate) fn bytes(&self) -> &[u8]
        ensures { result.now ≡ self.now.bytes }
    {
        &self.room[..self.filled]
    }

    // Keeps the bytes too, if they fit.
    pub(crate) fn keep(&mut self, bytes: &[u8]) -> bool
        ensures kept { result ≡ true → self.new ≡ record self.old { bytes = self.old.bytes ++ bytes.now } }
        ensures full { result ≡ false → self.new ≡ self.old }
        ensures room { result ≡ false → 65536 < length self.old.bytes + length bytes.now }
    {
        if self.room.len() - self.filled < bytes.len() {
            return false;
        }
        let end = self.filled + bytes.len();
        self.room[self.filled..end].copy_from_slice(bytes);
        self.filled = end;
        true
    }

    // Keeps the digits of the bytes too, made in their place, if they fit.
    pub(crate) fn keep_hex(&mut self, bytes: &[u8]) -> bool
        ensures kept { result ≡ true → self.new ≡ record self.old { bytes = self.old.bytes ++ encode_lower bytes.now } }
        ensures full { result ≡ false → self.new ≡ self.old }
        ensures room { result ≡ false → 65536 < length self.old.bytes + 2 * length bytes.now }
    {
        if (self.room.len() - self.filled) / 2 < bytes.len() {
            return false;
        }
        let end = self.filled + 2 * bytes.len();
        hex::encode_to_slice(bytes, &mut self.room[self.filled..end]).unwrap();
        self.filled = end;
        true
    }

    // Keeps nothing any more.
    pub(crate) fn clear(&mut self)
        ensures { self.new ≡ record self.old { bytes = [] } }
    {
        self.filled = 0;
    }

    pub(crate) fn break_off(&mut self)
        ensures { self.new ≡ record self.old { broken = true } }
    {
        self.broken = true;
    }
}
