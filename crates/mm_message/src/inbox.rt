ghost use Rattle.std.specs.Prelude.{◌≡◌, ◌≤◌, ◌<◌, ◌+◌, ◌-◌, [], ◌++◌, length, take, drop, min, IfOk};
ghost use Rattle.mm_message.specs.Messages.{IfRequest, Takes, ended_in, left_by, most_held, taken_in};
ghost use Rattle.mm_message.specs.declared.taken.Taken.TheVariants.{More};
ghost use Rattle.var_types.specs.Values.{AreBytes};

use crate::front::take_front;
use crate::{MessageFault, Taken};
use std::alloc::Global;
use std::marker::Model;
use var_types::OutOfMemory;

/// The most bytes that are held: the longest message and its length.
const ROOM: usize = 65540;

/// Holds the bytes of a stream until the messages at their front are taken.
#[derive(Debug, Drop)]
pub struct Inbox {
    alloc: Global,
    room: Vec<u8>,
    from: usize,
    to: usize,
}

impl Model for Inbox {
    ghost use Rattle.std.specs.Prelude.{◌≡◌, ℕ, List, length, take, drop, ◌-◌, ◌≤◌};

    ghost Value = { List ℕ };

    ghost view = { λ i. take (i.to - i.from) (drop i.from i.room.items) };

    ghost invariant = { λ i. (i.from ≤ i.to) × (i.to ≤ length i.room.items) × (length i.room.items ≡ 65540) };
}

// Moves the bytes of a part to the front.
fn shift(room: &mut Vec<u8>, from: usize, to: usize)
    requires order { from ≤ to }
    requires within { to ≤ length room.old.items }
    ensures front { take (to - from) room.new.items ≡ take (to - from) (drop from room.old.items) }
    ensures size { length room.new.items ≡ length room.old.items }
{
    room.copy_within(from..to, 0);
}

// Writes bytes behind the first ones.
fn write_behind(room: &mut [u8], to: usize, piece: &[u8])
    requires { to + length piece.now ≤ length room.old }
    ensures written { take (to + length piece.now) room.new ≡ take to room.old ++ piece.now }
    ensures size { length room.new ≡ length room.old }
{
    room[to..to + piece.len()].copy_from_slice(piece);
}

// Writes bytes behind those of a part.
#[tactic(auto, using(crate::proofs::Parts::part_more))]
fn write_at(room: &mut [u8], from: usize, to: usize, piece: &[u8])
    requires order { from ≤ to }
    requires within { to + length piece.now ≤ length room.old }
    ensures held { take (to + length piece.now - from) (drop from room.new) ≡ take (to - from) (drop from room.old) ++ piece.now }
    ensures size { length room.new ≡ length room.old }
{
    write_behind(room, to, piece);
}

impl Inbox {
    /// An empty inbox, with room for 65,540 bytes.
    pub fn make(alloc: Global) -> Result<Self, OutOfMemory>
        ensures { IfOk result (λ inbox. inbox ≡ []) }
    {
        let room = vec![in alloc; 0; ROOM]?;
        Ok(Inbox {
            alloc,
            room,
            from: 0,
            to: 0,
        })
    }

    /// How many bytes more it takes.
    pub fn free(&self) -> usize
        ensures { result ≡ most_held - length self.now }
    {
        ROOM - (self.to - self.from)
    }

    /// Takes in the longest front of a piece that there is room for, and says its length; takes no memory.
    pub fn feed(&mut self, piece: &[u8]) -> usize
        ensures count { result ≡ min (length piece.now) (most_held - length self.old) }
        ensures held { self.new ≡ self.old ++ take result piece.now }
        ensures values { AreBytes piece.now }
    {
        let count = piece.len().min(self.free());
        if self.room.len() - self.to < count {
            shift(&mut self.room, self.from, self.to);
            self.to -= self.from;
            self.from = 0;
        }
        write_at(&mut self.room, self.from, self.to, &piece[..count]);
        self.to += count;
        count
    }

    /// Takes the message at the front. A fault and what is out of memory leave all bytes, so that they are answered again.
    pub fn take(&mut self) -> Taken
        ensures taken { Takes result (taken_in self.old) }
        ensures left { self.new ≡ left_by result self.old }
        ensures processor { IfRequest result (λ processor call. processor ≤ 7) }
        ensures more { result ≡ More → length self.new < most_held }
    {
        let (taken, used) = take_front(self.alloc, &self.room[self.from..self.to]);
        self.from += used;
        taken
    }

    /// Whether the input may end here: no byte is left.
    pub fn ended(&self) -> Result<(), MessageFault>
        ensures { result ≡ ended_in self.now }
    {
        let have = (self.to - self.from) as u32;
        if have == 0 {
            Ok(())
        } else {
            Err(MessageFault::Cut { have })
        }
    }
}
