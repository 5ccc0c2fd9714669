//! Jobs for sheets, of any version.
//!
//! A job of version 3 is written by hand: each of its faults has its place in the text. Its lengths are read from their texts at any
//! number of decimals (`SheetJob::job_at`). Jobs of versions 1 and 2 are read as `job_file` reads them.
//!
//! Cost: time that grows with the text.
#![tactic(auto)]

mod any;
mod block;
mod cut;
mod cut_views;
mod entries;
mod flaw;
mod hidden;
mod job;
mod job_at;
mod keys;
mod numbers;
mod read;
mod settings;
mod sheet;
mod shown;
mod title_block;
mod values;
mod view;
mod views;
mod wrong;

pub use any::{AnyJob, AnyJobError};
pub use block::BlockTexts;
pub use cut::SheetCut;
pub use flaw::{JobFlaw, PlacedFlaw, ViewFlaw};
pub use hidden::Hidden;
pub use job::SheetJob;
pub use job_at::AtError;
pub use keys::SheetKey;
pub use read::read_any_job;
pub use shown::SheetShown;
pub use view::SheetView;
