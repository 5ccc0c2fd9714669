//! Texts: names, and numbers as they are read and written.
#![tactic(auto)]

mod name;
mod naturals;
mod number;
mod text;

pub use name::Name;
pub use naturals::natural;
pub use number::{Length, NumberFault, fixed};
pub use text::{push_frac, push_int};
