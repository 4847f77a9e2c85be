ghost use Rattle.std.specs.Prelude.{◌≡◌, ◌≤◌, ◌+◌, ◌++◌, length, take, drop, false};
ghost use Rattle.var_header.specs.Header.{authenticated_header_size, back_bytes, front_bytes, has_start_id, header_bytes, header_of, header_read};

use crate::HeaderFault;
use byteorder::{ByteOrder, LittleEndian};

/// How many bytes the header of an authenticated record has (EDK II, AUTHENTICATED_VARIABLE_HEADER).
pub const HEADER_BYTES: usize = 60;

/// The fields of a record's header that a variable's meaning rests on (EDK II, AUTHENTICATED_VARIABLE_HEADER). Sizes are in bytes, and
/// NameSize counts the NUL. MonotonicCount and PubKeyIndex are not kept: they are read over, and written 0.
#[derive(Clone, Copy, Debug, PartialEq, Eq)]
pub struct Header {
    pub state: u8,
    pub attributes: u32,
    pub time_stamp: [u8; 16],
    pub name_size: u32,
    pub data_size: u32,
    pub vendor_guid: [u8; 16],
}

#[tactic(auto, unfolding(crate::specs::Header::has_start_id))]
fn has_start_id(bytes: &[u8]) -> bool
    requires { 2 ≤ length bytes.now }
    ensures { result ≡ has_start_id bytes.now }
{
    bytes[0] == 0xAA && bytes[1] == 0x55
}

fn sixteen(bytes: &[u8]) -> [u8; 16]
    requires { length bytes.now ≡ 16 }
    ensures { result ≡ bytes.now }
{
    let mut copy = [0; 16];
    copy.copy_from_slice(bytes);
    copy
}

#[tactic(auto, unfolding(crate::specs::Header::header_of))]
fn fields(bytes: &[u8]) -> Header
    requires { authenticated_header_size ≤ length bytes.now }
    ensures { result ≡ header_of bytes.now }
{
    Header {
        state: bytes[2],
        attributes: LittleEndian::read_u32(&bytes[4..]),
        time_stamp: sixteen(&bytes[16..32]),
        name_size: LittleEndian::read_u32(&bytes[36..]),
        data_size: LittleEndian::read_u32(&bytes[40..]),
        vendor_guid: sixteen(&bytes[44..60]),
    }
}

/// The header at an offset of some bytes. Only the authenticated form is read yet.
#[tactic(auto, unfolding(crate::specs::Header::header_read))]
pub fn read_header(bytes: &[u8], at: usize, plain: bool) -> Result<Header, HeaderFault>
    requires { plain ≡ false }
    ensures { result ≡ header_read bytes.now at }
{
    if bytes.len().saturating_sub(at) < HEADER_BYTES {
        return Err(HeaderFault::PastEnd { at: at as u64 });
    }
    let found = &bytes[at..];
    if has_start_id(found) {
        Ok(fields(found))
    } else {
        Err(HeaderFault::NoStart)
    }
}

// Writes bytes at an offset, behind those that are written already.
fn write_at(into: &mut [u8], at: usize, bytes: &[u8])
    requires { at + length bytes.now ≤ length into.old }
    ensures { take (at + length bytes.now) into.new ≡ take at into.old ++ bytes.now }
{
    into[at..at + bytes.len()].copy_from_slice(bytes);
}

fn write_front(header: &Header, into: &mut [u8])
    requires { length into.old ≡ authenticated_header_size }
    ensures { take 36 into.new ≡ front_bytes header.now }
{
    write_at(into, 0, &[0xAA, 0x55, header.state, 0]);
    write_at(into, 4, &header.attributes.to_le_bytes());
    write_at(into, 8, &[0; 8]);
    write_at(into, 16, &header.time_stamp);
    write_at(into, 32, &[0; 4]);
}

fn write_back(header: &Header, into: &mut [u8])
    requires { length into.old ≡ authenticated_header_size }
    ensures { take authenticated_header_size into.new ≡ take 36 into.old ++ back_bytes header.now }
{
    write_at(into, 36, &header.name_size.to_le_bytes());
    write_at(into, 40, &header.data_size.to_le_bytes());
    write_at(into, 44, &header.vendor_guid);
}

/// Writes a header over the first bytes.
#[tactic(auto, unfolding(crate::specs::Header::header_bytes))]
pub fn write_header(header: &Header, into: &mut [u8])
    requires { authenticated_header_size ≤ length into.old }
    ensures { into.new ≡ header_bytes header.now ++ drop authenticated_header_size into.old }
{
    let head = &mut into[..HEADER_BYTES];
    write_front(header, head);
    write_back(header, head);
}
