//! Desks that know why the system refused a call, and how a line says it.
#![tactic(auto)]

mod desks;
mod reason;

pub use desks::Reasons;
pub use reason::{Reason, reason_text};
