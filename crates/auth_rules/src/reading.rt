ghost use Rattle.std.specs.Prelude.{◌≡◌, ◌≤◌, length, take, IfOk, None};
ghost use Rattle.var_types.specs.Descriptor.{descriptor_fields, descriptor_of, descriptor_read, first_broken};

use crate::fields::{descriptor_size, first_broken};
use crate::{Descriptor, DescriptorFault};
use var_types::Stamp;

// The stamp that the first 16 bytes are.
fn stamp_of(bytes: &[u8]) -> Stamp
    requires { 16 ≤ length bytes.now }
    ensures { result ≡ record { bytes = take 16 bytes.now } }
{
    let mut stamp = [0; 16];
    stamp.copy_from_slice(&bytes[..16]);
    Stamp { bytes: stamp }
}

// The descriptor that bytes begin with, where no field is broken.
#[tactic(auto, using(var_types::proofs::Descriptors::least_length))]
fn whole_descriptor(bytes: &[u8]) -> Descriptor
    requires { first_broken (descriptor_fields bytes.now) ≡ None }
    ensures read { Ok result ≡ descriptor_read bytes.now None }
    ensures within { result.length ≤ length bytes.now }
{
    Descriptor {
        stamp: stamp_of(bytes),
        length: descriptor_size(bytes),
    }
}

/// The descriptor that the bytes of a time-based set begin with, or the first of its fields that is broken (UEFI 2.10, 8.2,
/// EFI_VARIABLE_AUTHENTICATION_2). Whatever follows it is the payload.
#[tactic(auto, unfolding(var_types::specs::Descriptor::descriptor_of))]
pub fn read_descriptor(bytes: &[u8]) -> Result<Descriptor, DescriptorFault>
    ensures exact { result ≡ descriptor_of bytes.now }
    ensures within { IfOk result (λ descriptor. descriptor.length ≤ length bytes.now) }
{
    match first_broken(bytes) {
        Some(at) => Err(DescriptorFault { at }),
        None => Ok(whole_descriptor(bytes)),
    }
}
