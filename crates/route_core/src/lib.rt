//! The route of a session: where it knows keys to be, and what its note knows of those shards.
//!
//! What a route keeps stands in `specs/Routes.antt`.
#![tactic(auto)]

#[cfg(test)]
mod caller;
mod locators;
mod route;
mod session;

pub use route::Route;
pub use session::Session;

#[cfg(test)]
mod tests;
