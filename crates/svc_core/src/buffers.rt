use std::alloc::{AllocError, Global};
use std::marker::Model;

/// Room for what a look finds, before it is copied: the largest data, and the longest name with a unit more.
#[derive(Drop)]
pub(crate) struct Buffers {
    pub(crate) bytes: Vec<u8>,
    pub(crate) units: Vec<u16>,
}

impl Model for Buffers {
    ghost use Rattle.std.specs.Prelude.{◌≡◌, ℕ, length};

    ghost Value = { ℕ };

    // What is in the buffers between two looks is nobody's matter.
    ghost view = { λ _. 0 };

    ghost invariant = { λ b. (length b.bytes.items ≡ 65536) × (length b.units.items ≡ 513) };
}

impl Buffers {
    pub(crate) fn new(alloc: Global) -> Result<Buffers, AllocError> {
        Ok(Buffers {
            bytes: vec![in alloc; 0; 65_536]?,
            units: vec![in alloc; 0; 513]?,
        })
    }
}
