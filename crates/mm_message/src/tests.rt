use crate::{Call, Inbox, MessageFault, Taken, write_request};
use std::alloc::Global;
use std::test::Fail;
use var_types::{PolicyCall, TextBuffer, Verdict};

/// A get of `A` of UEFI's own namespace, 8be4df61-93ca-11d2-aa0d-00e098032b8c, into 9 bytes, by processor 0.
const GET: [u8; 28] = [
    0x18, 0, 0, 0, 0, 0, 0x61, 0xdf, 0xe4, 0x8b, 0xca, 0x93, 0xd2, 0x11, 0xaa, 0x0d, 0x00, 0xe0,
    0x98, 0x03, 0x2b, 0x8c, 9, 0, 0, 0, 0x41, 0,
];

/// The variable after `B`, into 64 bytes, by processor 1.
const NEXT: [u8; 28] = [
    0x18, 0, 0, 0, 1, 1, 0x61, 0xdf, 0xe4, 0x8b, 0xca, 0x93, 0xd2, 0x11, 0xaa, 0x0d, 0x00, 0xe0,
    0x98, 0x03, 0x2b, 0x8c, 0x40, 0, 0, 0, 0x42, 0,
];

/// `A` is set to the bytes 1 and 2, with the attributes 7, by processor 2.
const SET: [u8; 33] = [
    0x1d, 0, 0, 0, 2, 2, 0x61, 0xdf, 0xe4, 0x8b, 0xca, 0x93, 0xd2, 0x11, 0xaa, 0x0d, 0x00, 0xe0,
    0x98, 0x03, 0x2b, 0x8c, 7, 0, 0, 0, 0, 1, 0, 0x41, 0, 1, 2,
];

/// `A` is set to no bytes, with the attributes 6 and a bad verdict, by processor 7.
const BAD_SET: [u8; 31] = [
    0x1b, 0, 0, 0, 7, 2, 0x61, 0xdf, 0xe4, 0x8b, 0xca, 0x93, 0xd2, 0x11, 0xaa, 0x0d, 0x00, 0xe0,
    0x98, 0x03, 0x2b, 0x8c, 6, 0, 0, 0, 1, 1, 0, 0x41, 0,
];

/// The entry 1, 2, 3 is registered, by processor 3.
const REGISTER: [u8; 9] = [5, 0, 0, 0, 3, 3, 1, 2, 3];

/// An entry of no bytes is registered.
const REGISTER_NOTHING: [u8; 6] = [2, 0, 0, 0, 3, 3];

const LOCK: [u8; 6] = [2, 0, 0, 0, 4, 4];

const DISABLE: [u8; 6] = [2, 0, 0, 0, 5, 5];

const ENABLED: [u8; 6] = [2, 0, 0, 0, 6, 6];

/// The entry at the place 5.
const POLICY: [u8; 10] = [6, 0, 0, 0, 7, 7, 5, 0, 0, 0];

const EXIT_BOOT: [u8; 6] = [2, 0, 0, 0, 0, 8];

/// All of them, one behind the other.
fn all_messages(alloc: Global) -> Result<Vec<u8>, Fail> {
    let mut stream = Vec::new(alloc);
    for message in [GET.as_slice(), &NEXT, &SET, &BAD_SET, &REGISTER] {
        stream.extend_from_slice(message)?;
    }
    for message in [REGISTER_NOTHING, LOCK, DISABLE, ENABLED, EXIT_BOOT] {
        stream.extend_from_slice(&message)?;
    }
    stream.extend_from_slice(&POLICY)?;
    Ok(stream)
}

/// Takes what is whole and writes it again; answers the fault behind it, if there is one.
fn take_all(inbox: &mut Inbox, out: &mut TextBuffer) -> Result<Option<MessageFault>, Fail> {
    for _ in 0..20 {
        match inbox.take() {
            Taken::Request { processor, call } => write_again(processor, &call, out)?,
            Taken::More => return Ok(None),
            Taken::Fault(fault) => return Ok(Some(fault)),
            Taken::OutOfMemory => return Err(Fail::new("out of memory")),
        }
    }
    Err(Fail::new("too many messages"))
}

/// Writes a request, of less than the longest message.
fn write_again(processor: u8, call: &Call, out: &mut TextBuffer) -> Result<(), Fail> {
    if processor > 7 || crate::message_size(call) > 65536 {
        return Err(Fail::new("no request"));
    }
    write_request(processor, call, out);
    Ok(())
}

/// Feeds pieces, takes all messages after each, and writes them again: whether that gives these bytes, and none are left.
fn comes_back(alloc: Global, pieces: &[&[u8]], want: &[u8]) -> Result<bool, Fail> {
    let mut inbox = Inbox::make(alloc)?;
    let mut out = TextBuffer::new(alloc);
    for piece in pieces {
        if inbox.feed(piece) != piece.len() || take_all(&mut inbox, &mut out)?.is_some() {
            return Ok(false);
        }
    }
    Ok(inbox.ended().is_ok() && out.finish()?.as_slice() == want)
}

#[test]
fn messages_come_back_in_any_pieces(rt: HostRuntime) -> Result<(), Fail> {
    let alloc = rt.alloc();
    let stream = all_messages(alloc)?;
    for size in [1, 2, 3, 7, 1000] {
        let mut pieces = Vec::new(alloc);
        for piece in stream.chunks(size) {
            pieces.push(piece)?;
        }
        assert!(rt; comes_back(alloc, &pieces, &stream)?, "in pieces of {size}");
    }
    for at in 0..=stream.len() {
        let (front, back) = stream.split_at(at);
        assert!(rt; comes_back(alloc, &[front, back], &stream)?, "cut at {at}");
    }
    Ok(())
}

/// What a stream that is fed whole gives in the end: its fault, or how it may end.
fn end_of(alloc: Global, stream: &[u8]) -> Result<Result<(), MessageFault>, Fail> {
    let mut inbox = Inbox::make(alloc)?;
    let mut out = TextBuffer::new(alloc);
    inbox.feed(stream);
    match take_all(&mut inbox, &mut out)? {
        Some(fault) => Ok(Err(fault)),
        None => Ok(inbox.ended()),
    }
}

#[test]
fn the_end_within_each_field_is_a_cut(rt: HostRuntime) -> Result<(), Fail> {
    let alloc = rt.alloc();
    for have in 1..SET.len() {
        let fault = end_of(alloc, SET.get(..have).unwrap_or(&[]))?;
        let want = MessageFault::Cut { have: have as u32 };
        assert_eq!(rt; fault, Err(want), "{have} bytes");
    }
    assert_eq!(rt; end_of(alloc, &SET)?, Ok(()));
    assert_eq!(rt;
        end_of(alloc, &[0x18, 0, 0])?,
        Err(MessageFault::Cut { have: 3 })
    );
    Ok(())
}

/// The bytes of a message by processor 0.
fn message_of(alloc: Global, kind: u8, body: &[u8]) -> Result<Vec<u8>, Fail> {
    let size = (body.len() % 65536) as u32 + 2;
    let mut message = size.to_le_bytes().as_slice().to_vec(alloc)?;
    message.extend_from_slice(&[0, kind])?;
    message.extend_from_slice(body)?;
    Ok(message)
}

/// Whether a message of this kind, with a body of so many bytes 0 and then these, is of its form.
fn is_formed(alloc: Global, kind: u8, zeros: usize, end: &[u8]) -> Result<bool, Fail> {
    let mut body = vec![in alloc; 0; zeros]?;
    body.extend_from_slice(end)?;
    let fault = end_of(alloc, &message_of(alloc, kind, &body)?)?;
    if fault == Err(MessageFault::Form { kind }) {
        return Ok(false);
    }
    assert_ok(fault)
}

fn assert_ok(fault: Result<(), MessageFault>) -> Result<bool, Fail> {
    fault?;
    Ok(true)
}

/// A kind, how many bytes 0 its body begins with, what follows, and whether that is of its form. A set's number of units stands at 21.
const BODIES: [(u8, usize, &[u8], bool); 34] = [
    (0, 19, &[], false),
    (0, 20, &[], true),
    (0, 21, &[], false),
    (0, 22, &[], true),
    (0, 20 + 2047, &[], false),
    (0, 20 + 2048, &[], true),
    (0, 20 + 2049, &[], false),
    (0, 20 + 2050, &[], false),
    (1, 19, &[], false),
    (1, 20, &[], true),
    (1, 21, &[], false),
    (1, 20 + 2048, &[], true),
    (1, 20 + 2050, &[], false),
    (2, 22, &[], false),
    (2, 23, &[], true),
    (2, 21, &[1, 0], false),
    (2, 21, &[1, 0, 0x41], false),
    (2, 21, &[1, 0, 0x41, 0], true),
    (2, 21, &[1, 0, 0x41, 0, 9], true),
    (2, 20, &[1, 0, 0], true),
    (2, 20, &[2, 0, 0], false),
    (2, 20, &[255, 0, 0], false),
    (3, 0, &[], true),
    (3, 1, &[], true),
    (4, 0, &[], true),
    (4, 1, &[], false),
    (5, 0, &[], true),
    (5, 1, &[], false),
    (6, 0, &[], true),
    (6, 1, &[], false),
    (7, 3, &[], false),
    (7, 4, &[], true),
    (7, 5, &[], false),
    (8, 1, &[], false),
];

#[test]
fn bodies_have_their_forms(rt: HostRuntime) -> Result<(), Fail> {
    for (kind, zeros, end, want) in BODIES {
        let have = is_formed(rt.alloc(), kind, zeros, end)?;
        assert_eq!(rt; have, want, "{zeros} bytes and {end:?} of kind {kind}");
    }
    Ok(())
}

/// Whether a set whose name has this number of units, with so many bytes behind the number, is of its form.
fn is_set(alloc: Global, units: u16, bytes: usize) -> Result<bool, Fail> {
    let mut end = units.to_le_bytes().as_slice().to_vec(alloc)?;
    end.extend_from_slice(&vec![in alloc; 0x41; bytes]?)?;
    is_formed(alloc, 2, 21, &end)
}

#[test]
fn a_set_has_a_name_of_1024_units_at_most(rt: HostRuntime) -> Result<(), Fail> {
    let alloc = rt.alloc();
    assert!(rt; is_set(alloc, 1024, 2048)?);
    assert!(rt; is_set(alloc, 1024, 2049)?);
    assert!(rt; !is_set(alloc, 1024, 2047)?);
    assert!(rt; !is_set(alloc, 1025, 2050)?);
    assert!(rt; !is_set(alloc, 65535, 60000)?);
    Ok(())
}

#[test]
fn the_first_broken_field_is_told(rt: HostRuntime) -> Result<(), Fail> {
    let alloc = rt.alloc();
    for kind in 9..=255 {
        let want = MessageFault::Kind { value: kind };
        assert_eq!(rt; end_of(alloc, &[2, 0, 0, 0, 7, kind])?, Err(want));
    }
    for value in [8, 255] {
        let want = MessageFault::Processor { value };
        assert_eq!(rt; end_of(alloc, &[2, 0, 0, 0, value, 4])?, Err(want));
        assert_eq!(rt; end_of(alloc, &[3, 0, 0, 0, value, 9, 0])?, Err(want));
    }
    // A broken message that isn't whole yet.
    assert_eq!(rt;
        end_of(alloc, &[3, 0, 0, 0, 8, 9])?,
        Err(MessageFault::Cut { have: 6 })
    );
    Ok(())
}

#[test]
fn a_length_is_told_once_it_is_there(rt: HostRuntime) -> Result<(), Fail> {
    let alloc = rt.alloc();
    for value in [0u32, 1, 65537, 0x0100_0000, u32::MAX] {
        let want = MessageFault::Length { value };
        assert_eq!(rt; end_of(alloc, &value.to_le_bytes())?, Err(want));
    }
    for value in [2u32, 65536] {
        let want = MessageFault::Cut { have: 4 };
        assert_eq!(rt; end_of(alloc, &value.to_le_bytes())?, Err(want));
    }
    Ok(())
}

/// Feeds pieces, of which so many bytes are to be taken in, and takes all messages after each: how many bytes these have.
fn taken_size(alloc: Global, feeds: &[(&[u8], usize)]) -> Result<Option<usize>, Fail> {
    let mut inbox = Inbox::make(alloc)?;
    let mut out = TextBuffer::new(alloc);
    for (piece, count) in feeds {
        if inbox.feed(piece) != *count || take_all(&mut inbox, &mut out)?.is_some() {
            return Ok(None);
        }
    }
    Ok(Some(out.finish()?.as_slice().len()))
}

#[test]
fn the_longest_message_is_taken(rt: HostRuntime) -> Result<(), Fail> {
    let alloc = rt.alloc();
    let longest = message_of(alloc, 3, &vec![in alloc; 5; 65534]?)?;
    let front = longest.get(..40000).unwrap_or(&[]);
    let back = longest.get(40000..).unwrap_or(&[]);
    let feeds = [
        (LOCK.as_slice(), 6),
        (front, 40000),
        (back, 25540),
        (&LOCK, 6),
    ];
    assert_eq!(rt; taken_size(alloc, &feeds)?, Some(65552));
    Ok(())
}

#[test]
fn a_full_inbox_takes_in_nothing(rt: HostRuntime) -> Result<(), Fail> {
    let alloc = rt.alloc();
    let longest = message_of(alloc, 3, &vec![in alloc; 5; 65534]?)?;
    let mut inbox = Inbox::make(alloc)?;
    assert_eq!(rt; inbox.feed(&LOCK), 6);
    assert_eq!(rt; inbox.feed(&longest), 65534);
    assert_eq!(rt; (inbox.free(), inbox.feed(&LOCK)), (0, 0));
    Ok(())
}

#[test]
fn a_fault_stays(rt: HostRuntime) -> Result<(), Fail> {
    let alloc = rt.alloc();
    let mut inbox = Inbox::make(alloc)?;
    let mut out = TextBuffer::new(alloc);
    let want = Some(MessageFault::Form { kind: 4 });
    inbox.feed(&LOCK);
    inbox.feed(&[3, 0, 0, 0, 0, 4, 9]);
    assert_eq!(rt; take_all(&mut inbox, &mut out)?, want);
    assert_eq!(rt; inbox.feed(&LOCK), 6);
    assert_eq!(rt; take_all(&mut inbox, &mut out)?, want);
    assert_eq!(rt; inbox.ended(), Err(MessageFault::Cut { have: 13 }));
    assert_eq!(rt; out.finish()?.as_slice(), LOCK.as_slice());
    Ok(())
}

fn is_the_get(taken: &Taken) -> bool {
    match taken {
        Taken::Request {
            processor: 0,
            call: Call::Get(get),
        } => get.room == 9 && get.name.as_slice() == [0x41].as_slice() && get.guid.bytes[0] == 0x61,
        _ => false,
    }
}

fn is_the_set(taken: &Taken) -> bool {
    match taken {
        Taken::Request {
            processor: 7,
            call: Call::Set(set),
        } => set.attributes == 6 && set.verdict == Verdict::Bad && set.bytes.as_slice().is_empty(),
        _ => false,
    }
}

fn is_the_policy(taken: &Taken) -> bool {
    match taken {
        Taken::Request {
            processor: 7,
            call: Call::Policy(PolicyCall::At(place)),
        } => *place == 5,
        _ => false,
    }
}

#[test]
fn the_fields_of_a_message_are_the_calls(rt: HostRuntime) -> Result<(), Fail> {
    let mut inbox = Inbox::make(rt.alloc())?;
    inbox.feed(&GET);
    inbox.feed(&BAD_SET);
    inbox.feed(&POLICY);
    assert!(rt; is_the_get(&inbox.take()));
    assert!(rt; is_the_set(&inbox.take()));
    assert!(rt; is_the_policy(&inbox.take()));
    Ok(())
}
