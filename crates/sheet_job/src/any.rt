// A job of any version, and why bytes are none.
use crate::flaw::PlacedFlaw;
use crate::job::SheetJob;
use exact_frac::OutOfMemory;
use job_file::{Job, JobFault};

/// A job of version 1 or 2, or of version 3.
#[derive(Drop)]
pub enum AnyJob {
    Older(Job),
    Own(SheetJob),
}

/// Why bytes are no job.
#[derive(Debug, Drop)]
pub enum AnyJobError {
    /// Of a job of version 1 or 2, or of an unknown version.
    Older(JobFault),
    /// Of a job of version 3, or of bytes that TOML refuses.
    Own(PlacedFlaw),
    /// Memory ran out.
    Memory(OutOfMemory),
}
