//! The headers at the front of an image: what they say, and the first field that is none of a variable volume and its store.
ghost use Rattle.std.specs.Prelude.{◌≡◌, ◌≢◌, ◌==◌, ◌/◌, ◌%◌, ◌≤◌, ℕ, Err, IfOk, IfSome, OnOk, length, take};
ghost use Rattle.std.specs.List.{list_all};
ghost use Rattle.outside.specs.Faults.{HasCause, HasCauseAt};
ghost use Rattle.flash_dev.specs.Geometry.{blocks_check, geometry_of, image_geometry, is_volume_length, number_at, store_check, sum_check, sum_of_words, volume_check};
ghost use Rattle.flash_dev.specs.Moments.{Stays};
ghost use Rattle.flash_dev.specs.Rules.{IsKept};
ghost use Rattle.var_types.specs.Layout.{block_size, headers_size, image_size};

use crate::guids::{AUTHENTICATED_VARIABLE_GUID, SYSTEM_NV_DATA_GUID};
use crate::layout::{BLOCK_BYTES, HEADERS_BYTES, IMAGE_BYTES, VOLUME_BYTES};
use crate::{Device, Flash, ImageFault};
use byteorder::{ByteOrder, LittleEndian};

/// What the headers of an image say of its records.
#[derive(Clone, Copy, Debug, PartialEq, Eq)]
pub struct Geometry {
    /// Whether the records have the form without authentication; only the authenticated form is accepted yet.
    pub plain: bool,
}

fn is_volume_length(len: u64) -> bool
    ensures { result ≡ is_volume_length len }
{
    len % BLOCK_BYTES as u64 == 0 && VOLUME_BYTES as u64 <= len && len <= IMAGE_BYTES
}

#[tactic(auto, unfolding(crate::specs::Geometry::volume_check))]
fn check_volume(first: &[u8]) -> Result<(), ImageFault>
    requires { length first.now ≡ headers_size }
    ensures check { result ≡ volume_check first.now }
    ensures device { result ≢ Err ImageFault.Device }
{
    if &first[16..32] != SYSTEM_NV_DATA_GUID.as_slice() {
        return Err(ImageFault::NotAVolume { at: 16 });
    }
    if !is_volume_length(LittleEndian::read_u64(&first[32..])) {
        return Err(ImageFault::NotAVolume { at: 32 });
    }
    if &first[40..44] != b"_FVH".as_slice() {
        return Err(ImageFault::NotAVolume { at: 40 });
    }
    if LittleEndian::read_u16(&first[48..]) != 72 {
        return Err(ImageFault::NotAVolume { at: 48 });
    }
    Ok(())
}

// How many bytes a block has.
fn block_size(first: &[u8]) -> u32
    requires { length first.now ≡ headers_size }
    ensures { result ≡ number_at 60 4 first.now }
{
    LittleEndian::read_u32(&first[60..])
}

// Whether the blocks are as many as the volume has.
fn are_all_blocks(first: &[u8]) -> bool
    requires { length first.now ≡ headers_size }
    ensures { result ≡ (number_at 56 4 first.now == number_at 32 8 first.now / block_size) }
{
    let blocks = u64::from(LittleEndian::read_u32(&first[56..]));
    blocks == LittleEndian::read_u64(&first[32..]) / BLOCK_BYTES as u64
}

fn are_zeros(bytes: &[u8]) -> bool
    ensures { result ≡ list_all (λ b. b == 0) bytes.now }
{
    bytes.iter().all(|byte| *byte == 0)
}

#[tactic(auto, unfolding(crate::specs::Geometry::blocks_check))]
fn check_blocks(first: &[u8]) -> Result<(), ImageFault>
    requires { length first.now ≡ headers_size }
    ensures check { result ≡ blocks_check first.now }
    ensures device { result ≢ Err ImageFault.Device }
{
    let value = block_size(first);
    if value != BLOCK_BYTES as u32 {
        return Err(ImageFault::BlockSize { value });
    }
    if !are_all_blocks(first) {
        return Err(ImageFault::NotAVolume { at: 56 });
    }
    if !are_zeros(&first[64..72]) {
        return Err(ImageFault::NotAVolume { at: 64 });
    }
    Ok(())
}

// The sum of the 16-bit numbers that bytes are, low byte first.
fn sum_of_words(bytes: &[u8]) -> u16
    ensures { result ≡ sum_of_words bytes.now % 65536 }
{
    let mut sum: u16 = 0;
    let mut left = bytes;
    'words: while let [low, high, rest @ ..] = left {
        sum = sum.wrapping_add(u16::from_le_bytes([*low, *high]));
        left = rest;
    }
    sum
}

#[tactic(auto, unfolding(crate::specs::Geometry::sum_check))]
fn check_sum(first: &[u8]) -> Result<(), ImageFault>
    requires { length first.now ≡ headers_size }
    ensures check { result ≡ sum_check first.now }
    ensures device { result ≢ Err ImageFault.Device }
{
    let sum = sum_of_words(&first[..72]);
    if sum != 0 {
        return Err(ImageFault::BadSum { sum });
    }
    Ok(())
}

#[tactic(auto, unfolding(crate::specs::Geometry::store_check))]
fn check_store(first: &[u8]) -> Result<(), ImageFault>
    requires { length first.now ≡ headers_size }
    ensures check { result ≡ store_check first.now }
    ensures device { result ≢ Err ImageFault.Device }
{
    if &first[72..88] != AUTHENTICATED_VARIABLE_GUID.as_slice() {
        return Err(ImageFault::NotAStore { at: 72 });
    }
    if LittleEndian::read_u32(&first[88..]) != 0xDFB8 {
        return Err(ImageFault::NotAStore { at: 88 });
    }
    if first[92] != 0x5A {
        return Err(ImageFault::NotAStore { at: 92 });
    }
    if first[93] != 0xFE {
        return Err(ImageFault::NotAStore { at: 93 });
    }
    Ok(())
}

/// What the first 100 bytes of an image say of it, or the first field that refuses it.
#[tactic(auto, unfolding(crate::specs::Geometry::geometry_of))]
pub fn geometry_of(first: &[u8]) -> Result<Geometry, ImageFault>
    requires { length first.now ≡ headers_size }
    ensures geometry { result ≡ geometry_of first.now }
    ensures device { result ≢ Err ImageFault.Device }
{
    check_volume(first)?;
    check_blocks(first)?;
    check_sum(first)?;
    check_store(first)?;
    Ok(Geometry { plain: false })
}

// The headers of the image that a flash holds.
fn read_headers<F: Flash>(flash: &mut F) -> Result<[u8; HEADERS_BYTES], Device>
    requires { headers_size ≤ F.size flash.old }
    ensures headers { IfOk result (λ first. IfSome (F.holds flash.old) (λ image. first ≡ take headers_size image)) }
    ensures kept { F.holds flash.new ≡ F.holds flash.old }
    ensures same_size { F.size flash.new ≡ F.size flash.old }
    ensures at_any_moment { Stays IsKept F.moment F.left_since F.holds flash.old flash.new }
    ensures cause { HasCause (F.fault_count flash.old) (F.fault_count flash.new) result }
{
    let mut first = [0; HEADERS_BYTES];
    flash.read(0, &mut first)?;
    Ok(first)
}

/// The geometry of the image that a flash holds, read from its front; its bytes stay.
pub fn read_geometry<F: Flash>(flash: &mut F) -> Result<Geometry, ImageFault>
    ensures geometry { result ≢ Err ImageFault.Device → IfSome (F.holds flash.old) (λ image. result ≡ image_geometry image) }

    // An image of another length is refused for it, whatever it holds, and no other.
    ensures accepted { OnOk result (F.size flash.old ≡ image_size) }
    ensures size { F.size flash.old ≢ image_size → result ≡ Err (ImageFault.ImageSize (F.size flash.old) image_size) }
    ensures size_only { (have want : ℕ) → result ≡ Err (ImageFault.ImageSize have want) → F.size flash.old ≢ image_size }

    ensures kept { F.holds flash.new ≡ F.holds flash.old }
    ensures same_size { F.size flash.new ≡ F.size flash.old }
    ensures at_any_moment { Stays IsKept F.moment F.left_since F.holds flash.old flash.new }
    ensures cause { HasCauseAt ImageFault.Device (F.fault_count flash.old) (F.fault_count flash.new) result }
{
    let have = flash.len();
    if have != IMAGE_BYTES {
        return Err(ImageFault::ImageSize {
            have,
            want: IMAGE_BYTES,
        });
    }
    let first = read_headers(flash)?;
    geometry_of(&first)
}
