//! Scripts run on the writer's side: on an image, or in memory.
mod desk;
mod queue;
mod run_plan;
mod runner;
mod serving;
mod work_plan;

pub use desk::Desk;
pub use queue::{Queue, queues_of};
pub use run_plan::plan_run;
pub use runner::{run_calls, run_queues};
pub use serving::serve;
pub use work_plan::plan_work;
