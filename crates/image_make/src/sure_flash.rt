ghost use Rattle.std.specs.Prelude.{◌≡◌, Some, length, refl};
ghost use Rattle.flash_dev.specs.Told.{bytes_told};

use flash_dev::{Device, Flash, fill_block, program_at};
use std::marker::Model;

/// A flash in memory of which no call fails.
#[derive(Debug, Drop)]
pub struct SureFlash {
    bytes: Vec<u8>,
}

impl Model for SureFlash {
    ghost use Rattle.std.specs.Prelude.{ℕ, List};

    ghost Value = { List ℕ };

    ghost view = { λ f. f.bytes.items };
}

impl SureFlash {
    /// A flash of these bytes.
    pub fn new(bytes: Vec<u8>) -> Self
        ensures { result ≡ bytes.items }
    {
        SureFlash { bytes }
    }

    /// The bytes now, without a copy.
    pub fn release(self) -> Vec<u8>
        ensures { result.items ≡ self }
    {
        self.bytes
    }
}

impl Flash for SureFlash {
    ghost size = { λ bytes. length bytes };

    ghost holds = { λ bytes. Some bytes };

    ghost fault_count = { λ _. 0 };

    ghost moment = { λ _. 0 };

    // What a power loss may have left is told as the bytes now.
    ghost left_since = { λ bytes _ left. left ≡ bytes };

    fn len(&self) -> u64 {
        self.bytes.len() as u64
    }

    fn faults(&self) -> u64 {
        0
    }

    fn read(&mut self, at: u32, into: &mut [u8]) -> Result<(), Device> {
        into.copy_from_slice(&self.bytes[at as usize..][..into.len()]);
        Ok(())
    }

    fn program(&mut self, at: u32, bytes: &[u8]) -> Result<(), Device> {
        program_at(&mut self.bytes, at, bytes);
        Ok(())
    }

    fn erase(&mut self, block: u32) -> Result<(), Device> {
        fill_block(&mut self.bytes, block, 0xFF);
        Ok(())
    }

    ghost sized = { λ bytes. refl };

    ghost counts_now = { λ bytes t left early now. bytes_told bytes left now };

    ghost only_now = { λ bytes left since. since };
}
