//! The writer's engine over a flash that lists its steps, as the writer of the core's worlds.
#![tactic(auto)]

mod beginning;
mod copies;
mod engine_writer;
#[cfg(test)]
mod kept_check;
#[cfg(test)]
mod legal_session;
mod listed_flash;
#[cfg(test)]
mod order_tests;
mod planning;
#[cfg(test)]
mod play_tests;
mod played;
mod playing;
#[cfg(test)]
mod random_tests;
mod reads;
#[cfg(test)]
mod same_reply;
#[cfg(test)]
mod state_sign;
#[cfg(test)]
mod test_worlds;
#[cfg(test)]
mod tests;
mod turns;

pub use beginning::begin_world;
pub use engine_writer::EngineWriter;
pub use listed_flash::ListedFlash;
pub use played::Played;
pub use playing::play;
