ghost use Rattle.std.specs.Prelude.{◌≡◌, ◌-◌, ◌++◌, replicate, IfOk, OnOk, OnErr};
ghost use Rattle.flash_dev.specs.Blank.{blank_headers, blank_image};
ghost use Rattle.var_types.specs.Layout.{headers_size, image_size};

use crate::SureFlash;
use flash_dev::{HEADERS_BYTES, IMAGE_BYTES};
use std::alloc::Global;
use var_types::{Bytes, OutOfMemory};

/// The headers of volume and store of an image without variables (PI 1.8 volume 3, 3.2.1; EDK II, VARIABLE_STORE_HEADER).
const BLANK_HEADERS: [u8; HEADERS_BYTES] = [
    0x00, 0x00, 0x00, 0x00, 0x00, 0x00, 0x00, 0x00, 0x00, 0x00, 0x00, 0x00, 0x00, 0x00, 0x00, 0x00,
    0x8d, 0x2b, 0xf1, 0xff, 0x96, 0x76, 0x8b, 0x4c, 0xa9, 0x85, 0x27, 0x47, 0x07, 0x5b, 0x4f, 0x50,
    0x00, 0x00, 0x02, 0x00, 0x00, 0x00, 0x00, 0x00, 0x5f, 0x46, 0x56, 0x48, 0xff, 0xfe, 0x04, 0x00,
    0x48, 0x00, 0x19, 0xf9, 0x00, 0x00, 0x00, 0x02, 0x20, 0x00, 0x00, 0x00, 0x00, 0x10, 0x00, 0x00,
    0x00, 0x00, 0x00, 0x00, 0x00, 0x00, 0x00, 0x00, 0x78, 0x2c, 0xf3, 0xaa, 0x7b, 0x94, 0x9a, 0x43,
    0xa1, 0x80, 0x2e, 0x14, 0x4e, 0xc3, 0x77, 0x92, 0xb8, 0xdf, 0x00, 0x00, 0x5a, 0xfe, 0x00, 0x00,
    0x00, 0x00, 0x00, 0x00,
];

#[tactic(auto, unfolding(flash_dev::specs::Blank::blank_headers))]
fn blank_headers() -> [u8; HEADERS_BYTES]
    ensures { result ≡ blank_headers }
{
    BLANK_HEADERS
}

// The image of these headers, erased behind them.
fn image_with(alloc: Global, headers: &[u8; HEADERS_BYTES]) -> Result<Vec<u8>, OutOfMemory>
    ensures { IfOk result (λ image. image.items ≡ headers.now ++ replicate (image_size - headers_size) 0xFF) }
{
    let mut image = headers.to_vec(alloc)?;
    image.resize(IMAGE_BYTES as usize, 0xFF)?;
    Ok(image)
}

#[tactic(auto, unfolding(flash_dev::specs::Blank::blank_image))]
fn blank_bytes(alloc: Global) -> Result<Vec<u8>, OutOfMemory>
    ensures { IfOk result (λ image. image.items ≡ blank_image) }
{
    image_with(alloc, &blank_headers())
}

/// Appends the image without variables; where it is out of memory, the list stays as it was.
pub fn blank_image(alloc: Global, out: &mut Bytes) -> Result<(), OutOfMemory>
    ensures ok { OnOk result (out.new ≡ out.old ++ blank_image) }
    ensures err { OnErr result (out.new ≡ out.old) }
{
    let image = blank_bytes(alloc)?;
    out.append(&image)
}

/// A flash in memory, of which no call fails, with the image without variables.
pub fn blank_flash(alloc: Global) -> Result<SureFlash, OutOfMemory>
    ensures { IfOk result (λ flash. flash ≡ blank_image) }
{
    Ok(SureFlash::new(blank_bytes(alloc)?))
}
