//! The image without variables, as it is written to a flash.
ghost use Rattle.std.specs.Prelude.{◌≡◌, ◌≢◌, ◌⊎◌, ℕ, Err, IfErr, OnOk, replicate};
ghost use Rattle.outside.specs.Faults.{HasCause, HasCauseAt};
ghost use Rattle.flash_dev.specs.Blank.{blank_image};
ghost use Rattle.flash_dev.specs.Formatting.{IsFormatLeft};
ghost use Rattle.flash_dev.specs.Moments.{Stays};
ghost use Rattle.flash_dev.specs.Rules.{IsKept, Leaves};
ghost use Rattle.var_types.specs.Layout.{image_size};

use crate::headers::blank_headers;
use crate::layout::{BLOCKS, IMAGE_BYTES};
use crate::{Device, Flash, ImageFault};

/// Writes a blank image over a flash of an image's length: erases all blocks in order, and then programs the headers. After a device fault
/// the image is to be formatted again.
pub fn format_image<F: Flash>(flash: &mut F) -> Result<(), ImageFault>
    ensures blank { OnOk result (Leaves (λ _ left. left ≡ blank_image) (F.holds flash.old) (F.holds flash.new)) }

    // After a device fault, and where power is lost, the blocks are erased up to one, or all of them are and the headers are being programmed.
    ensures at_any_moment { Stays IsFormatLeft F.moment F.left_since F.holds flash.old flash.new }

    // A flash of another length is refused for it, is left as it was, and no other is refused.
    ensures accepted { OnOk result (F.size flash.old ≡ image_size) }
    ensures size { F.size flash.old ≢ image_size → result ≡ Err (ImageFault.ImageSize (F.size flash.old) image_size) }
    ensures size_only { (have want : ℕ) → result ≡ Err (ImageFault.ImageSize have want) → F.size flash.old ≢ image_size }
    ensures refused { F.size flash.old ≢ image_size → F.holds flash.new ≡ F.holds flash.old }
    ensures refused_moments { F.size flash.old ≢ image_size → Stays IsKept F.moment F.left_since F.holds flash.old flash.new }
    ensures faults { IfErr result (λ e. (e ≡ ImageFault.ImageSize (F.size flash.old) image_size) ⊎ (e ≡ ImageFault.Device)) }

    ensures same_size { F.size flash.new ≡ F.size flash.old }
    ensures cause { HasCauseAt ImageFault.Device (F.fault_count flash.old) (F.fault_count flash.new) result }
{
    let have = flash.len();
    if have != IMAGE_BYTES {
        return Err(ImageFault::ImageSize {
            have,
            want: IMAGE_BYTES,
        });
    }
    erase_all(flash)?;
    flash.program(0, &blank_headers())?;
    Ok(())
}

// Erases all blocks in order.
fn erase_all<F: Flash>(flash: &mut F) -> Result<(), Device>
    requires { F.size flash.old ≡ image_size }
    ensures erased { OnOk result (Leaves (λ _ left. left ≡ replicate image_size 0xFF) (F.holds flash.old) (F.holds flash.new)) }
    ensures at_any_moment { Stays IsFormatLeft F.moment F.left_since F.holds flash.old flash.new }
    ensures same_size { F.size flash.new ≡ F.size flash.old }
    ensures cause { HasCause (F.fault_count flash.old) (F.fault_count flash.new) result }
{
    for block in 0..BLOCKS {
        flash.erase(block)?;
    }
    Ok(())
}
