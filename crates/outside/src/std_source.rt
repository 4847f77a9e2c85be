ghost use Rattle.std.specs.Prelude.{◌≡◌, ◌≤◌, None, length, IfOk, OnErr};
ghost use Rattle.std.specs.Io.KnownBytes.{ReadConsumes};
ghost use Rattle.outside.specs.Faults.{HasCause, one_more};

use crate::{Failed, Source};
use std::io::Read;
use std::marker::Model;

/// A source over a reader of std, which tells none of its bytes.
#[derive(Drop)]
pub struct StdSource<T: Read + Drop> {
    reader: T,
    faults: u64,
}

impl<T: Read + Drop> Model for StdSource<T> {
    ghost use Rattle.outside.specs.Stream.{Stream};

    ghost Value = { Stream };

    ghost view = { λ s. record { known = T.remaining s.reader; faults = s.faults } };
}

impl<T: Read + Drop> StdSource<T> {
    /// A source over this reader, of which no call has failed.
    pub fn on(reader: T) -> Self
        ensures { result ≡ record { known = T.remaining reader; faults = 0 } }
    {
        StdSource { reader, faults: 0 }
    }
}

impl<T: Read + Drop> Source for StdSource<T> {
    ghost left = { λ _. None };

    ghost fault_count = { λ s. s.faults };

    /// Makes one call of the reader, and fails where that fails.
    fn read(&mut self, into: &mut [u8]) -> Result<usize, Failed>
        // What the reader's own type tells is used up by what was given.
        ensures given { ReadConsumes self.old.known self.new.known result into.new }
        ensures counted_one { OnErr result (self.new.faults ≡ one_more self.old.faults) }

        ensures bound { IfOk result (λ n. n ≤ length into.new) }
        ensures cause { HasCause self.old.faults self.new.faults result }
    {
        match self.reader.read(into) {
            Ok(count) => Ok(count),
            Err(_) => {
                self.faults = self.faults.saturating_add(1);
                Err(Failed)
            }
        }
    }
}
