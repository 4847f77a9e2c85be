//! What is asked of an image alone: it is listed, checked or formatted.
mod content;
mod image_file;
mod image_plan;
mod inspection;

pub use content::Content;
pub use image_file::make_image_file;
pub use image_plan::{plan_foreign, plan_format, plan_inspection, plan_refused};
pub use inspection::Inspection;
