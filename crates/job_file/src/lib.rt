//! Job files: what a drawing shows, from where, and on which sheet.
//!
//! A job is a text of TOML, read as an untyped table. Each of its keys may be missing. The faults of a job are looked for
//! in a fixed order, and the first one is the answer.
#![tactic(auto)]

mod cuts;
mod directions;
mod fault;
mod job;
mod read;
mod settings;
mod shown_cuts;
mod table;
mod texts;
mod view;
mod views;

pub use cuts::{axis_of, is_from_high};
pub use directions::{direction_of, principal_of};
pub use fault::{JobError, JobFault, Key};
pub use job::{Job, Paper, Scale};
pub use settings::{angle_of, crease_of, layout_of, length_of, paper_of, scale_of};
pub use shown_cuts::cuts_in;
pub use texts::is_title;
pub use view::{JobView, Principal};
pub use views::{usual_views, view_named};
