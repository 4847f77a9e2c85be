ghost use Rattle.std.specs.Prelude.{◌≡◌, [], true, false, IfOk, OnOk, OnErr};
ghost use Rattle.var_types.specs.Put.{PutsText, PutsText-none, PutsText-joined};

use crate::{Bytes, OutOfMemory, Put};
use std::alloc::Global;
use std::marker::Model;

/// A text in memory that texts are put to; where memory is too short for one, it holds what was put before.
#[derive(Debug, Drop)]
pub struct TextBuffer {
    bytes: Bytes,
    lacks: bool,
}

impl Model for TextBuffer {
    ghost use Rattle.var_types.specs.Put.{Text};

    ghost Value = { Text };

    ghost view = { λ t. record { bytes = t.bytes; lacks = t.lacks } };
}

impl TextBuffer {
    /// An empty text; takes no memory.
    pub fn new(alloc: Global) -> Self
        ensures { result ≡ record { bytes = []; lacks = false } }
    {
        TextBuffer {
            bytes: Bytes::new(alloc),
            lacks: false,
        }
    }

    /// The whole text, unless memory was too short for a part of it.
    pub fn finish(self) -> Result<Bytes, OutOfMemory>
        ensures whole { IfOk result (λ bytes. bytes ≡ self.bytes) }
        ensures ok { OnOk result (self.lacks ≡ false) }
        ensures err { OnErr result (self.lacks ≡ true) }
    {
        if self.lacks {
            return Err(OutOfMemory);
        }
        Ok(self.bytes)
    }
}

impl Put for TextBuffer {
    ghost Puts = { PutsText };

    #[tactic(auto, unfolding(crate::specs::Put::PutsText))]
    fn put(&mut self, bytes: &[u8]) {
        if self.lacks {
            return;
        }
        self.lacks = self.bytes.append(bytes).is_err();
    }

    #[tactic(auto, unfolding(crate::specs::Put::PutsText))]
    fn put_hex(&mut self, bytes: &[u8]) {
        if self.lacks {
            return;
        }
        self.lacks = self.bytes.append_hex(bytes).is_err();
    }

    ghost none = { PutsText-none };

    ghost joined = { PutsText-joined };
}
