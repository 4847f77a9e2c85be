ghost use Rattle.std.specs.Prelude.{◌≡◌, length};
ghost use Rattle.var_types.specs.Layout.{image_size};
ghost use Rattle.svc_core.specs.FlashSteps.{IsStepLeft, StepFits, after_step, torn_step};

use crate::FlashStep;
use flash_dev::{Torn, erase_torn, fill_block, program_at, program_torn};
use std::marker::Model;
use var_types::Bytes;

/// The bytes of the flash.
#[derive(Debug, Drop)]
pub(crate) struct Image {
    bytes: Vec<u8>,
}

impl Model for Image {
    ghost use Rattle.std.specs.Prelude.{◌≡◌, ℕ, List, length};
    ghost use Rattle.var_types.specs.Layout.{image_size};

    ghost Value = { List ℕ };

    ghost view = { λ i. i.bytes.items };

    ghost invariant = { λ i. length i.bytes.items ≡ image_size };
}

impl Image {
    pub(crate) fn new(bytes: Bytes) -> Image
        requires { length bytes ≡ image_size }
        ensures { result ≡ bytes }
    {
        Image {
            bytes: bytes.into_vec(),
        }
    }

    pub(crate) fn as_slice(&self) -> &[u8]
        ensures bytes { result.now ≡ self.now }
        ensures size { length result.now ≡ image_size }
    {
        &self.bytes
    }

    pub(crate) fn into_bytes(self) -> Bytes
        ensures { result ≡ self }
    {
        Bytes::from_vec(self.bytes)
    }

    /// Takes a step.
    pub(crate) fn take(&mut self, step: &FlashStep)
        requires { StepFits step.now }
        ensures { self.new ≡ after_step step.now self.old }
    {
        match step {
            FlashStep::Program { at, bytes } => program_at(&mut self.bytes, *at, bytes.as_slice()),
            FlashStep::Erase { block } => fill_block(&mut self.bytes, *block, 0xFF),
        }
    }

    /// Loses power in a step, which is torn this way.
    pub(crate) fn tear(&mut self, torn: Torn, step: &FlashStep)
        requires { StepFits step.now }
        ensures is { self.new ≡ torn_step torn step.now self.old }
        ensures left { IsStepLeft step.now self.old self.new }
    {
        match step {
            FlashStep::Program { at, bytes } => {
                program_torn(&mut self.bytes, torn, *at, bytes.as_slice());
            }
            FlashStep::Erase { block } => erase_torn(&mut self.bytes, torn, *block),
        }
    }
}
