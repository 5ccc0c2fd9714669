//! Texts put where they go, one after the other: kept under a name, said, or not at all; and the warning of a fault.
#![tactic(auto)]

mod end;
mod fault;
mod put;
mod warning;

pub use end::{RunEnd, end_by, ended, tell};
pub use fault::RunFault;
pub use put::{PutFault, Way, note, place_text, put_text, unless_said};
pub use warning::warn;
