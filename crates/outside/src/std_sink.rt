ghost use Rattle.std.specs.Prelude.{◌≡◌, None, OnOk, OnErr};
ghost use Rattle.std.specs.Io.KnownBytes.{Appends};
ghost use Rattle.outside.specs.Faults.{HasCause, one_more};
ghost use Rattle.outside.specs.Written.{AppendsPart};

use crate::{Failed, Sink};
use std::io::Write;
use std::marker::Model;

/// A sink over a writer of std, which tells none of its bytes.
#[derive(Drop)]
pub struct StdSink<T: Write + Drop> {
    writer: T,
    faults: u64,
}

impl<T: Write + Drop> Model for StdSink<T> {
    ghost use Rattle.outside.specs.Stream.{Stream};

    ghost Value = { Stream };

    ghost view = { λ s. record { known = T.contents s.writer; faults = s.faults } };
}

impl<T: Write + Drop> StdSink<T> {
    /// A sink over this writer, of which no call has failed.
    pub fn on(writer: T) -> Self
        ensures { result ≡ record { known = T.contents writer; faults = 0 } }
    {
        StdSink { writer, faults: 0 }
    }
}

impl<T: Write + Drop> Sink for StdSink<T> {
    ghost holds = { λ _. None };

    ghost fault_count = { λ s. s.faults };

    /// Calls the writer until it has taken all, and fails where a call of it fails or takes nothing.
    fn write(&mut self, bytes: &[u8]) -> Result<(), Failed>
        // What the writer's own type tells has grown by what was taken.
        ensures taken { OnOk result (Appends self.old.known self.new.known bytes.now) }
        ensures taken_part { OnErr result (AppendsPart self.old.known self.new.known bytes.now) }
        ensures counted_one { OnErr result (self.new.faults ≡ one_more self.old.faults) }

        ensures cause { HasCause self.old.faults self.new.faults result }
    {
        let outcome = write_whole(&mut self.writer, bytes);
        if outcome.is_err() {
            self.faults = self.faults.saturating_add(1);
        }
        outcome
    }
}

// The loop is over the writer alone, so that the count stays out of its invariant.
fn write_whole<T: Write>(writer: &mut T, bytes: &[u8]) -> Result<(), Failed>
    ensures ok { OnOk result (Appends (T.contents writer.old) (T.contents writer.new) bytes.now) }
    ensures part { OnErr result (AppendsPart (T.contents writer.old) (T.contents writer.new) bytes.now) }
{
    let mut taken = 0;
    while taken < bytes.len() {
        match writer.write(&bytes[taken..]) {
            Ok(0) | Err(_) => return Err(Failed),
            Ok(count) => taken += count,
        }
    }
    Ok(())
}
