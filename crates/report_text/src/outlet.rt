ghost use Rattle.std.specs.Prelude.{◌≡◌, ◌≤◌, [], true, false, length, OnOk, OnErr, refl};
ghost use Rattle.std.proofs.Common.{◌∙◌};
ghost use Rattle.hex.specs.Hex.{encode_lower};
ghost use Rattle.report_text.specs.Flow.{Flow, PutsThrough, PutsThrough-none, PutsThrough-joined, empty};

use crate::page::Page;
use outside::{Failed, Sink};
use var_types::Put;

/// How many bytes are made digits at a time, where the page is too short for all of them.
const PIECE: usize = 1024;

/// A sink behind a page: texts go to the page, and the page to the sink where it is full. A text that is longer than the page goes past it.
#[derive(Drop)]
pub struct Outlet<'a, K: Sink> {
    pub sink: &'a mut K,
    pub page: &'a mut Page,
}

impl<'a, K: Sink> Outlet<'a, K> {
    // Hands what the page keeps to the sink.
    fn flush(&mut self)
        requires whole { self.old.page.now.broken ≡ false }
        ensures flushed { PutsThrough (record { held = K.holds self.old.sink.now; faults = K.fault_count self.old.sink.now; kept = self.old.page.now }) (record { held = K.holds self.new.sink.now; faults = K.fault_count self.new.sink.now; kept = self.new.page.now }) [] }
        ensures empty { self.new.page.now.broken ≡ false → self.new.page.now ≡ empty }
        ensures same_sink { self.new.sink.ghost_name ≡ self.old.sink.ghost_name }
        ensures same_page { self.new.page.ghost_name ≡ self.old.page.ghost_name }
    {
        match self.sink.write(self.page.bytes()) {
            Ok(()) => self.page.clear(),
            Err(_) => self.page.break_off(),
        }
    }

    // Hands bytes to the sink, past a page that keeps nothing.
    fn send(&mut self, bytes: &[u8])
        requires empty { self.old.page.now ≡ empty }
        ensures sent { PutsThrough (record { held = K.holds self.old.sink.now; faults = K.fault_count self.old.sink.now; kept = self.old.page.now }) (record { held = K.holds self.new.sink.now; faults = K.fault_count self.new.sink.now; kept = self.new.page.now }) bytes.now }
        ensures same_sink { self.new.sink.ghost_name ≡ self.old.sink.ghost_name }
        ensures same_page { self.new.page.ghost_name ≡ self.old.page.ghost_name }
    {
        match self.sink.write(bytes) {
            Ok(()) => {}
            Err(_) => self.page.break_off(),
        }
    }

    // Puts a text for which the page has no room.
    fn push_behind(&mut self, bytes: &[u8])
        requires whole { self.old.page.now.broken ≡ false }
        ensures pushed { PutsThrough (record { held = K.holds self.old.sink.now; faults = K.fault_count self.old.sink.now; kept = self.old.page.now }) (record { held = K.holds self.new.sink.now; faults = K.fault_count self.new.sink.now; kept = self.new.page.now }) bytes.now }
        ensures same_sink { self.new.sink.ghost_name ≡ self.old.sink.ghost_name }
        ensures same_page { self.new.page.ghost_name ≡ self.old.page.ghost_name }
    {
        self.flush();
        if self.page.is_broken() {
            return;
        }
        if self.page.keep(bytes) {
            return;
        }
        self.send(bytes);
    }

    /// Puts a text.
    pub fn push(&mut self, bytes: &[u8])
        ensures pushed { PutsThrough (record { held = K.holds self.old.sink.now; faults = K.fault_count self.old.sink.now; kept = self.old.page.now }) (record { held = K.holds self.new.sink.now; faults = K.fault_count self.new.sink.now; kept = self.new.page.now }) bytes.now }
        ensures same_sink { self.new.sink.ghost_name ≡ self.old.sink.ghost_name }
        ensures same_page { self.new.page.ghost_name ≡ self.old.page.ghost_name }
    {
        if self.page.is_broken() {
            return;
        }
        if self.page.keep(bytes) {
            return;
        }
        self.push_behind(bytes);
    }

    // Puts the digits of a piece for which the page has no room, but an empty one has.
    fn push_piece_behind(&mut self, piece: &[u8])
        requires whole { self.old.page.now.broken ≡ false }
        requires piece { length piece.now ≤ 1024 }
        ensures pushed { PutsThrough (record { held = K.holds self.old.sink.now; faults = K.fault_count self.old.sink.now; kept = self.old.page.now }) (record { held = K.holds self.new.sink.now; faults = K.fault_count self.new.sink.now; kept = self.new.page.now }) (encode_lower piece.now) }
        ensures same_sink { self.new.sink.ghost_name ≡ self.old.sink.ghost_name }
        ensures same_page { self.new.page.ghost_name ≡ self.old.page.ghost_name }
    {
        self.flush();
        if self.page.is_broken() {
            return;
        }
        let _ = self.page.keep_hex(piece);
    }

    // Puts the digits of a piece.
    fn push_piece(&mut self, piece: &[u8])
        requires piece { length piece.now ≤ 1024 }
        ensures pushed { PutsThrough (record { held = K.holds self.old.sink.now; faults = K.fault_count self.old.sink.now; kept = self.old.page.now }) (record { held = K.holds self.new.sink.now; faults = K.fault_count self.new.sink.now; kept = self.new.page.now }) (encode_lower piece.now) }
        ensures same_sink { self.new.sink.ghost_name ≡ self.old.sink.ghost_name }
        ensures same_page { self.new.page.ghost_name ≡ self.old.page.ghost_name }
    {
        if self.page.is_broken() {
            return;
        }
        if self.page.keep_hex(piece) {
            return;
        }
        self.push_piece_behind(piece);
    }

    // Puts the digits of bytes piece by piece.
    fn push_pieces(&mut self, bytes: &[u8])
        ensures pushed { PutsThrough (record { held = K.holds self.old.sink.now; faults = K.fault_count self.old.sink.now; kept = self.old.page.now }) (record { held = K.holds self.new.sink.now; faults = K.fault_count self.new.sink.now; kept = self.new.page.now }) (encode_lower bytes.now) }
        ensures same_sink { self.new.sink.ghost_name ≡ self.old.sink.ghost_name }
        ensures same_page { self.new.page.ghost_name ≡ self.old.page.ghost_name }
    {
        let mut rest = bytes;
        'pieces: while !rest.is_empty() {
            let (piece, behind) = rest.split_at(rest.len().min(PIECE));
            self.push_piece(piece);
            rest = behind;
        }
    }

    /// Puts the lower-case hexadecimal digits of bytes, made in the page where it has the room.
    pub fn push_hex(&mut self, bytes: &[u8])
        ensures pushed { PutsThrough (record { held = K.holds self.old.sink.now; faults = K.fault_count self.old.sink.now; kept = self.old.page.now }) (record { held = K.holds self.new.sink.now; faults = K.fault_count self.new.sink.now; kept = self.new.page.now }) (encode_lower bytes.now) }
        ensures same_sink { self.new.sink.ghost_name ≡ self.old.sink.ghost_name }
        ensures same_page { self.new.page.ghost_name ≡ self.old.page.ghost_name }
    {
        if self.page.is_broken() {
            return;
        }
        if self.page.keep_hex(bytes) {
            return;
        }
        self.push_pieces(bytes);
    }

    /// Hands what the page keeps to the sink; `Err` where this write failed, or one before it.
    pub fn finish(&mut self) -> Result<(), Failed>
        ensures finished { PutsThrough (record { held = K.holds self.old.sink.now; faults = K.fault_count self.old.sink.now; kept = self.old.page.now }) (record { held = K.holds self.new.sink.now; faults = K.fault_count self.new.sink.now; kept = self.new.page.now }) [] }
        ensures ok { OnOk result (self.new.page.now ≡ empty) }
        ensures err { OnErr result (self.new.page.now.broken ≡ true) }
        ensures same_sink { self.new.sink.ghost_name ≡ self.old.sink.ghost_name }
        ensures same_page { self.new.page.ghost_name ≡ self.old.page.ghost_name }
    {
        if self.page.is_broken() {
            return Err(Failed);
        }
        self.flush();
        if self.page.is_broken() {
            return Err(Failed);
        }
        Ok(())
    }
}

impl<'a, K: Sink> Put for Outlet<'a, K> {
    ghost Puts = { λ a b text. PutsThrough (record { held = K.holds a.sink.now; faults = K.fault_count a.sink.now; kept = a.page.now }) (record { held = K.holds b.sink.now; faults = K.fault_count b.sink.now; kept = b.page.now }) text × (b.sink.ghost_name ≡ a.sink.ghost_name) × (b.page.ghost_name ≡ a.page.ghost_name) };

    fn put(&mut self, bytes: &[u8]) {
        self.push(bytes);
    }

    fn put_hex(&mut self, bytes: &[u8]) {
        self.push_hex(bytes);
    }

    ghost none = { λ a. (PutsThrough-none _, refl, refl) };

    ghost joined = { λ a b c t u first next. (PutsThrough-joined _ _ _ t u first.0 next.0, next.1 ∙ first.1, next.2 ∙ first.2) };
}
