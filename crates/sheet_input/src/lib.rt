//! What a sheet is drawn from: the job and the part that a request names, taken from a desk, the number of decimals at which the part is
//! accepted, the layout of its views, and how the sheet looks.
#![tactic(auto)]

mod fault;
mod fit;
mod jobs;
mod laid;
mod look;
mod place;
mod refusal;
mod take;
mod taken_text;
mod text;
mod title;

pub use fault::{SheetFault, SheetTarget};
pub use look::SheetLook;
pub use place::FaultPlace;
pub use refusal::{Refusal, Told};
pub use take::{SheetInput, take_sheet};
