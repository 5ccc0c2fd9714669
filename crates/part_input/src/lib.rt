//! The reading of a job, of a part and of a list from a desk, the sheet of both, the faults of a run, and its status; and that each of
//! these steps has an answer.
#![tactic(auto)]

mod answers;
mod fault;
mod fetch;
mod job;
mod list;
mod sample;
mod sheets;
mod solid;
mod soup;
mod usual;

pub use answers::steps_have_answers;
pub use fault::{Fault, Input, Target};
pub use fetch::{FetchFault, fetch_all};
pub use job::fetch_job;
pub use list::fetch_list;
pub use sample::{sample_size, sample_soup};
pub use sheets::sheet_of;
pub use solid::{fetch_solid, fetch_soup};
pub use soup::{is_stl, soup_of};
pub use usual::usual_job;
