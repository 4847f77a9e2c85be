//! What a call of the program is to print, and its printing.
mod fault_lines;
mod plan;
mod planned;
mod print;
mod streamed;

pub use fault_lines::{
    write_device_line, write_foreign_line, write_image_line, write_memory_line, write_play_line,
    write_script_line, write_usage_line,
};
pub use plan::{Plan, plan_text, plan_usage};
pub use planned::Planned;
pub use print::{lacks_memory, lacks_one, print_plan};
pub use streamed::Streamed;
