//! The store's volume, read and put in order as the store is opened, and written anew where a change is in doubt.
ghost use Rattle.std.specs.Prelude.{◌≡◌, ◌≢◌, ◌≤◌, ◌⊎◌, false, length, take, Err, None, Some, IfErr, IfOk, IfSome, IsOk, OnOk};
ghost use Rattle.flash_dev.specs.Geometry.{geometry_of};
ghost use Rattle.flash_dev.specs.Moments.{Stays};
ghost use Rattle.flash_dev.specs.Rules.{IsKept, Leaves};
ghost use Rattle.ftw_mount.specs.Mount.{Describes, HasUsedSlots, IsMountLeft};
ghost use Rattle.flash_dev.specs.declared.image_fault.ImageFault.{ImageFault};
ghost use Rattle.flash_dev.specs.declared.image_fault.ImageFault.TheVariants.{Device as DeviceRefused};
ghost use Rattle.nv_store.specs.Mirror.{IsMirroredAt};
ghost use Rattle.nv_store.specs.Opening.{IsByImage, IsOpeningLeft, refusal_of};
ghost use Rattle.nv_store.specs.declared.load_fault.LoadWhy.TheVariants.{Device as LoadDevice, ForeignWork as LoadForeign, Image, OutOfMemory as LoadMemory};
ghost use Rattle.outside.specs.Faults.{HasCause, HasCauseAt};
ghost use Rattle.nv_store.specs.Tidy.{IsTidy};
ghost use Rattle.var_types.specs.declared.store.Store.TheVariants.{NonVolatile};
ghost use Rattle.var_types.specs.Kept.{IsContentOr, IsForeign, IsSound, content, kept};
ghost use Rattle.var_types.specs.Layout.{headers_size, image_size, volume_size};
ghost use Rattle.var_types.specs.Stores.{map_in, store_region};
ghost use Rattle.var_types.specs.WorkArea.{HasFewSlots, is_blank};

use crate::LoadWhy;
use crate::anew::repack;
use crate::tidy::is_tidy;
use flash_dev::{Device, Flash, HEADERS_BYTES, geometry_of};
use ftw_mount::{Kept, MountFault, mount, mount_by, read_kept, write_volume};
use ftw_spare::erase_spare;
use ftw_work::make;
use var_region::region_in;
use var_types::Store;

// Mounts an image by what was read of it.
fn mount_read<F: Flash>(flash: &mut F, scratch: &mut [u8], kept: Kept) -> Result<u32, LoadWhy>
    requires size { F.size flash.old ≡ image_size }
    requires scratch { length scratch.old ≡ volume_size }
    requires describes { IfSome (F.holds flash.old) (Describes kept) }
    requires few { HasFewSlots kept.state }
    ensures mounted { IfOk result (λ slots. Leaves (HasUsedSlots slots) (F.holds flash.old) (F.holds flash.new)) }
    ensures slots { IfOk result (λ slots. slots ≤ 255) }
    ensures foreign { result ≡ Err LoadForeign → IfSome (F.holds flash.old) IsForeign }
    ensures only { result ≢ Err LoadDevice → IfSome (F.holds flash.old) (λ image. IsForeign image → result ≡ Err LoadForeign) }
    ensures two { IfErr result (λ why. (why ≡ LoadForeign) ⊎ (why ≡ LoadDevice)) }
    ensures at_any_moment { Stays IsMountLeft F.moment F.left_since F.holds flash.old flash.new }
    ensures same_size { F.size flash.new ≡ F.size flash.old }
    ensures cause { HasCauseAt LoadDevice (F.fault_count flash.old) (F.fault_count flash.new) result }
{
    match mount_by(flash, scratch, kept) {
        Ok(slots) => Ok(slots),
        Err(MountFault::ForeignWork) => Err(LoadWhy::ForeignWork),
        Err(MountFault::Device) => Err(LoadWhy::Device),
    }
}

// Tries the headers of what counts.
fn check_headers(content: &[u8]) -> Result<(), LoadWhy>
    requires { length content.now ≡ volume_size }
    ensures accepted { OnOk result (IsOk (geometry_of (take headers_size content.now))) }
    ensures refused { IfErr result (λ why. (fault : ImageFault) × (why ≡ Image fault) × (geometry_of (take headers_size content.now) ≡ Err fault)) }
    ensures not_device { IfErr result (λ why. why ≢ Image DeviceRefused) }
{
    match geometry_of(&content[..HEADERS_BYTES]) {
        Ok(_) => Ok(()),
        Err(fault) => Err(LoadWhy::Image(fault)),
    }
}

// Reads what counts into the mirror, tries its headers, and mounts the image.
fn read_volume<F: Flash>(
    flash: &mut F,
    mirror: &mut [u8],
    scratch: &mut [u8],
) -> Result<u32, LoadWhy>
    requires size { F.size flash.old ≡ image_size }
    requires mirror { length mirror.old ≡ volume_size }
    requires scratch { length scratch.old ≡ volume_size }
    ensures mirrored { IfOk result (λ slots. IfSome (F.holds flash.new) (IsMirroredAt mirror.new slots)) }
    ensures slots { IfOk result (λ slots. slots ≤ 255) }
    ensures valid { OnOk result (IsOk (geometry_of (take headers_size mirror.new))) }
    ensures content { OnOk result (IfSome (F.holds flash.old) (λ image. mirror.new ≡ content image)) }
    ensures accepted { OnOk result (IfSome (F.holds flash.old) (λ image. refusal_of image ≡ None)) }
    ensures refused { IfErr result (λ why. IsByImage (Some why) → IfSome (F.holds flash.old) (λ image. refusal_of image ≡ Some why)) }
    ensures not_device { IfErr result (λ why. why ≢ Image DeviceRefused) }
    ensures no_memory { IfErr result (λ why. why ≢ LoadMemory) }
    ensures at_any_moment { Stays IsMountLeft F.moment F.left_since F.holds flash.old flash.new }
    ensures untouched { IfErr result (λ why. why ≢ LoadDevice → Stays IsKept F.moment F.left_since F.holds flash.old flash.new) }
    ensures same_size { F.size flash.new ≡ F.size flash.old }
    ensures cause { HasCauseAt LoadDevice (F.fault_count flash.old) (F.fault_count flash.new) result }
{
    let kept = match read_kept(flash, mirror) {
        Ok(kept) => kept,
        Err(Device) => return Err(LoadWhy::Device),
    };
    match check_headers(mirror) {
        Ok(()) => mount_read(flash, scratch, kept),
        Err(why) => Err(why),
    }
}

// Writes the volume anew where something is left over in it of writes that were interrupted, and gives the number of used slots.
fn put_in_order<F: Flash>(
    flash: &mut F,
    mirror: &mut [u8],
    scratch: &mut [u8],
    slots: u32,
) -> Result<u32, Device>
    requires size { F.size flash.old ≡ image_size }
    requires mirror { length mirror.old ≡ volume_size }
    requires scratch { length scratch.old ≡ volume_size }
    requires slots { slots ≤ 255 }
    requires headers { IsOk (geometry_of (take headers_size mirror.old)) }
    requires mirrored { IfSome (F.holds flash.old) (IsMirroredAt mirror.old slots) }
    ensures mirrored { IfOk result (λ slots. IfSome (F.holds flash.new) (IsMirroredAt mirror.new slots)) }
    ensures slots { IfOk result (λ slots. slots ≤ 255) }
    ensures tidy { OnOk result (IsTidy (store_region NonVolatile mirror.new)) }
    ensures headers { OnOk result (take headers_size mirror.new ≡ take headers_size mirror.old) }
    ensures map { OnOk result (map_in NonVolatile mirror.new ≡ map_in NonVolatile mirror.old) }
    ensures at_any_moment { Stays IsOpeningLeft F.moment F.left_since F.holds flash.old flash.new }
    ensures same_size { F.size flash.new ≡ F.size flash.old }
    ensures cause { HasCause (F.fault_count flash.old) (F.fault_count flash.new) result }
{
    if is_tidy(&region_in(Store::NonVolatile, mirror)) {
        return Ok(slots);
    }
    repack(Store::NonVolatile, mirror, scratch);
    let used = write_volume(flash, slots, scratch)?;
    mirror.copy_from_slice(scratch);
    Ok(used)
}

/// Reads a flash's volume into the mirror, finishes a pending write, and writes the volume anew where something is left over in it. Gives the
/// number of used slots.
pub(crate) fn open_volume<F: Flash>(
    flash: &mut F,
    mirror: &mut [u8],
    scratch: &mut [u8],
) -> Result<u32, LoadWhy>
    requires size { F.size flash.old ≡ image_size }
    requires mirror { length mirror.old ≡ volume_size }
    requires scratch { length scratch.old ≡ volume_size }
    ensures mirrored { IfOk result (λ slots. IfSome (F.holds flash.new) (IsMirroredAt mirror.new slots)) }
    ensures slots { IfOk result (λ slots. slots ≤ 255) }
    ensures valid { OnOk result (IsOk (geometry_of (take headers_size mirror.new))) }
    ensures tidy { OnOk result (IsTidy (store_region NonVolatile mirror.new)) }
    ensures map { OnOk result (IfSome (F.holds flash.old) (λ image. map_in NonVolatile mirror.new ≡ kept image)) }
    ensures headers { OnOk result (IfSome (F.holds flash.old) (λ image. take headers_size mirror.new ≡ take headers_size (content image))) }
    ensures accepted { OnOk result (IfSome (F.holds flash.old) (λ image. refusal_of image ≡ None)) }
    ensures refused { IfErr result (λ why. IsByImage (Some why) → IfSome (F.holds flash.old) (λ image. refusal_of image ≡ Some why)) }
    ensures not_device { IfErr result (λ why. why ≢ Image DeviceRefused) }
    ensures no_memory { IfErr result (λ why. why ≢ LoadMemory) }
    ensures at_any_moment { Stays IsOpeningLeft F.moment F.left_since F.holds flash.old flash.new }
    ensures untouched { IfErr result (λ why. why ≢ LoadDevice → Stays IsKept F.moment F.left_since F.holds flash.old flash.new) }
    ensures same_size { F.size flash.new ≡ F.size flash.old }
    ensures cause { HasCauseAt LoadDevice (F.fault_count flash.old) (F.fault_count flash.new) result }
{
    let slots = read_volume(flash, mirror, scratch)?;
    match put_in_order(flash, mirror, scratch, slots) {
        Ok(used) => Ok(used),
        Err(Device) => Err(LoadWhy::Device),
    }
}

// Makes the work area of a flash anew that tells no bytes and says that it is foreign work, and writes a volume's bytes.
fn start_over<F: Flash>(flash: &mut F, bytes: &[u8]) -> Result<u32, Device>
    requires size { F.size flash.old ≡ image_size }
    requires bytes { length bytes.now ≡ volume_size }
    requires used { is_blank bytes.now ≡ false }
    requires untold { F.holds flash.old ≡ None }
    ensures mirrored { IfOk result (λ slots. IfSome (F.holds flash.new) (IsMirroredAt bytes.now slots)) }
    ensures slots { IfOk result (λ slots. slots ≤ 255) }
    ensures at_any_moment { Stays (IsContentOr bytes.now) F.moment F.left_since F.holds flash.old flash.new }
    ensures same_size { F.size flash.new ≡ F.size flash.old }
    ensures cause { HasCause (F.fault_count flash.old) (F.fault_count flash.new) result }
{
    erase_spare(flash)?;
    make(flash)?;
    write_volume(flash, 0, bytes)
}

/// Mounts a flash and writes a volume's bytes through the spare; gives the number of used slots. A flash that tells its bytes is no foreign work;
/// one that tells none, and says so, is made anew.
pub(crate) fn restore<F: Flash>(
    flash: &mut F,
    scratch: &mut [u8],
    bytes: &[u8],
) -> Result<u32, Device>
    requires size { F.size flash.old ≡ image_size }
    requires scratch { length scratch.old ≡ volume_size }
    requires bytes { length bytes.now ≡ volume_size }
    requires used { is_blank bytes.now ≡ false }
    requires sound { IfSome (F.holds flash.old) IsSound }
    ensures mirrored { IfOk result (λ slots. IfSome (F.holds flash.new) (IsMirroredAt bytes.now slots)) }
    ensures slots { IfOk result (λ slots. slots ≤ 255) }
    ensures at_any_moment { Stays (IsContentOr bytes.now) F.moment F.left_since F.holds flash.old flash.new }
    ensures same_size { F.size flash.new ≡ F.size flash.old }
    ensures cause { HasCause (F.fault_count flash.old) (F.fault_count flash.new) result }
{
    match mount(flash, scratch) {
        Ok(slots) => write_volume(flash, slots, bytes),
        Err(MountFault::ForeignWork) => start_over(flash, bytes),
        Err(MountFault::Device) => Err(Device),
    }
}
