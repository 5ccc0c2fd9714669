//! The lines of a job of version 3 in their tables: the job's own, `[block]` and each `[[view]]`.
//!
//! A header that begins none of them, a thirteenth view, a `[block]` without entries and a key that its table doesn't have are faults,
//! each with its place. The first one is the answer. A wrong key or header has a hint at what it may have been meant to be.
//!
//! Cost: time that grows with the lines. `refused_line` reads the text as often as the number of lines has binary digits.
#![tactic(auto)]

mod faults;
mod flaw;
mod headers;
mod hints;
mod keys;
mod refused;
mod table;
mod tables;

pub use flaw::{KeyHint, TableFlaw, TableStop};
pub use keys::known_keys;
pub use refused::{is_toml, refused_line};
pub use table::{JobTable, JobTables, TableEntry, TableKind, entry_at};
pub use tables::job_tables;
