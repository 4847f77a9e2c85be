//! The headers of an image without variables, field by field.
ghost use Rattle.std.specs.Prelude.{◌≡◌, ◌+◌, ◌≤◌, ◌++◌, length, take};
ghost use Rattle.flash_dev.specs.Blank.{blank_headers, blocks_of_volume, kind_of_volume, store_header};
ghost use Rattle.var_types.specs.Layout.{headers_size, store_header_size, volume_header_size};

use crate::guids::{AUTHENTICATED_VARIABLE_GUID, SYSTEM_NV_DATA_GUID};
use crate::layout::{BLOCK_BYTES, BLOCKS, HEADERS_BYTES, IMAGE_BYTES};

/// What the volume supports: read, write and lock, with memory mapping, and erasing to ones (PI 1.8 volume 3, 3.2.1; the bits are OVMF's).
const VOLUME_ATTRIBUTES: u32 = 0x0004_FEFF;

/// How many bytes the volume's header has.
const VOLUME_HEADER_BYTES: u16 = 72;

/// Brings the sum of the volume's header to 0.
const CHECKSUM: u16 = 0xF919;

/// How many bytes the non-volatile store has, its header counted.
const STORE_BYTES: u32 = 0xDFB8;

// Writes bytes at an offset, behind those that are written already.
fn write_at(into: &mut [u8], at: usize, bytes: &[u8])
    requires { at + length bytes.now ≤ length into.old }
    ensures { take (at + length bytes.now) into.new ≡ take at into.old ++ bytes.now }
{
    into[at..at + bytes.len()].copy_from_slice(bytes);
}

fn write_kind(into: &mut [u8])
    requires { length into.old ≡ headers_size }
    ensures { take 48 into.new ≡ kind_of_volume }
{
    write_at(into, 0, &[0; 16]);
    write_at(into, 16, &SYSTEM_NV_DATA_GUID);
    write_at(into, 32, &IMAGE_BYTES.to_le_bytes());
    write_at(into, 40, b"_FVH");
    write_at(into, 44, &VOLUME_ATTRIBUTES.to_le_bytes());
}

fn write_blocks(into: &mut [u8])
    requires { length into.old ≡ headers_size }
    ensures { take volume_header_size into.new ≡ take 48 into.old ++ blocks_of_volume }
{
    write_at(into, 48, &VOLUME_HEADER_BYTES.to_le_bytes());
    write_at(into, 50, &CHECKSUM.to_le_bytes());
    write_at(into, 52, &[0, 0, 0, 2]);
    write_at(into, 56, &BLOCKS.to_le_bytes());
    write_at(into, 60, &(BLOCK_BYTES as u32).to_le_bytes());
    write_at(into, 64, &[0; 8]);
}

/// Writes the header of a store of so many bytes at an offset, behind those that are written already.
pub(crate) fn write_store(into: &mut [u8], at: usize, size: u32)
    requires { at + store_header_size ≤ length into.old }
    ensures { take (at + store_header_size) into.new ≡ take at into.old ++ store_header size }
{
    write_at(into, at, &AUTHENTICATED_VARIABLE_GUID);
    write_at(into, at + 16, &size.to_le_bytes());
    write_at(into, at + 20, &[0x5A, 0xFE, 0, 0, 0, 0, 0, 0]);
}

/// The headers of volume and store.
#[tactic(auto, unfolding(crate::specs::Blank::blank_headers))]
pub(crate) fn blank_headers() -> [u8; HEADERS_BYTES]
    ensures { result ≡ blank_headers }
{
    let mut headers = [0; HEADERS_BYTES];
    write_kind(&mut headers);
    write_blocks(&mut headers);
    write_store(&mut headers, 72, STORE_BYTES);
    headers
}
