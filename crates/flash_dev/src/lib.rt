//! The flash under the services: as contracts see it, in memory, with a record of its images, and over a file; the headers of its volume, and the blank image.
#![tactic(auto)]

mod blank;
mod blank_volatile;
mod device;
mod fate;
mod fated_bytes;
mod fault_plan;
mod file_flash;
mod flash;
mod geometry;
mod guids;
mod headers;
mod held_bytes;
mod image_fault;
mod laws;
mod layout;
mod mem_flash;
mod recording_flash;
#[cfg(test)]
mod tests;

pub use blank::format_image;
pub use blank_volatile::{VOLATILE_BYTES, write_blank_volatile};
pub use device::Device;
pub use fated_bytes::{erase_torn, program_torn};
pub use fault_plan::{FaultPlan, Torn};
pub use file_flash::FileFlash;
pub use flash::Flash;
pub use geometry::{Geometry, geometry_of, read_geometry};
pub use held_bytes::{fill_block, program_at};
pub use image_fault::ImageFault;
pub use laws::blank_images_are_accepted;
pub use layout::{BLOCK_BYTES, BLOCKS, HEADERS_BYTES, IMAGE_BYTES, VOLUME_BYTES};
pub use mem_flash::MemFlash;
pub use recording_flash::RecordingFlash;
