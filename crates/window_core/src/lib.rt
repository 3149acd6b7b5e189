//! Windows: the rows of one index whose keys are in a span and whose times are in a range.
//!
//! What a window answers is said in `specs/Windows.antt`.
#![tactic(auto)]

mod caller;
mod compare;
mod fault;
mod frozen;
mod held;
mod live;
mod packed;
mod run;
mod runs;
mod window;

pub use caller::first_at;
pub use fault::WindowFault;
pub use frozen::FrozenWindow;
pub use live::LiveWindow;
pub use window::Window;

#[cfg(test)]
mod tests;
