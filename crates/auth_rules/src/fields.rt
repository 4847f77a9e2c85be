//! The fields of a descriptor in bytes (UEFI 2.10, 8.2, EFI_VARIABLE_AUTHENTICATION_2).
ghost use Rattle.std.specs.Prelude.{◌≡◌, ◌==◌, ◌&&◌, ◌+◌, ◌≤◌, length, take, drop, nat_le};
ghost use Rattle.var_types.specs.Descriptor.{descriptor_fields, descriptor_size, field_of, first_broken, holds, is_whole, pkcs7_bytes};
ghost use lib.Pointwise.{pointwise};

use byteorder::{ByteOrder, LittleEndian};

/// `4aafd29d-68df-49ee-8aa9-347d375665a7` in the order in which it is stored (UEFI 2.10, 8.2, EFI_CERT_TYPE_PKCS7_GUID).
const PKCS7: [u8; 16] = [
    0x9d, 0xd2, 0xaf, 0x4a, 0xdf, 0x68, 0xee, 0x49, 0x8a, 0xa9, 0x34, 0x7d, 0x37, 0x56, 0x65, 0xa7,
];

/// How many bytes the certificate has before its data, and so the least dwLength.
const CERTIFICATE_HEADER_BYTES: u64 = 24;

fn is_whole(bytes: &[u8], at: usize, size: usize) -> bool
    requires { at + size ≤ 40 }
    ensures { result ≡ is_whole bytes.now at size }
{
    at + size <= bytes.len()
}

fn holds(bytes: &[u8], at: usize, size: usize, value: u64) -> bool
    requires whole { at + size ≤ 40 }
    requires least { 1 ≤ size }
    requires most { size ≤ 8 }
    ensures { result ≡ holds bytes.now at size value }
{
    is_whole(bytes, at, size) && LittleEndian::read_uint(&bytes[at..], size) == value
}

/// How many bytes the whole descriptor has: the time stamp's 16, and dwLength more.
pub fn descriptor_size(bytes: &[u8]) -> u64
    requires { 20 ≤ length bytes.now }
    ensures { result ≡ descriptor_size bytes.now }
{
    16 + u64::from(LittleEndian::read_u32(&bytes[16..]))
}

// Whether dwLength stands whole, counts the certificate's own fields and names no more bytes than there are.
fn is_length_right(bytes: &[u8]) -> bool
    ensures { result ≡ (is_whole bytes.now 16 4 && nat_le 24 (field_of bytes.now 16 4) && nat_le (descriptor_size bytes.now) (length bytes.now)) }
{
    is_whole(bytes, 16, 4)
        && 16 + CERTIFICATE_HEADER_BYTES <= descriptor_size(bytes)
        && descriptor_size(bytes) <= bytes.len() as u64
}

fn is_pkcs7(bytes: &[u8]) -> bool
    ensures { result ≡ pointwise ◌==◌ (take 16 (drop 24 bytes.now)) pkcs7_bytes }
{
    match bytes.get(24..40) {
        Some(kind) => kind == PKCS7.as_slice(),
        None => false,
    }
}

// Each field's offset, and whether it stands whole and has a value that it may have.
#[tactic(auto, unfolding(var_types::specs::Descriptor::descriptor_fields))]
fn fields(bytes: &[u8]) -> [(u32, bool); 15]
    ensures { result ≡ descriptor_fields bytes.now }
{
    [
        (0, is_whole(bytes, 0, 2)),
        (2, is_whole(bytes, 2, 1)),
        (3, is_whole(bytes, 3, 1)),
        (4, is_whole(bytes, 4, 1)),
        (5, is_whole(bytes, 5, 1)),
        (6, is_whole(bytes, 6, 1)),
        (7, holds(bytes, 7, 1, 0)),
        (8, holds(bytes, 8, 4, 0)),
        (12, holds(bytes, 12, 2, 0)),
        (14, holds(bytes, 14, 1, 0)),
        (15, holds(bytes, 15, 1, 0)),
        (16, is_length_right(bytes)),
        (20, is_whole(bytes, 20, 2)),
        (22, holds(bytes, 22, 2, 0x0ef1)),
        (24, is_pkcs7(bytes)),
    ]
}

/// The offset of the first field that isn't whole or has a value that it may not have.
pub fn first_broken(bytes: &[u8]) -> Option<u32>
    ensures { result ≡ first_broken (descriptor_fields bytes.now) }
{
    let fields = fields(bytes);
    fields.iter().find(|field| !field.1).map(|field| field.0)
}
