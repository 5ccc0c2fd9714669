// Why a text is no job.
ghost use Rattle.std.specs.Prelude.{◌≡◌};
ghost use Rattle.job_file.specs.declared.fault.JobError.TheVariants.{Job, Memory};

use dec_text::Name;
use exact_frac::OutOfMemory;
use lattice::Axis;
use std::alloc::{AllocError, AllocFailed};
use thiserror::Error;

/// A key of a job or of a view.
#[derive(Clone, Copy, PartialEq, Eq, Debug)]
pub enum Key {
    Version,
    Decimals,
    Angle,
    Sheet,
    Scale,
    Crease,
    Title,
    Outputs,
    Unit,
    Layout,
    View,
    Name,
    Toward,
    Cut,
    At,
    From,
}

/// What is wrong with a job. Views are counted from 0.
#[derive(Debug, Drop)]
pub enum JobFault {
    /// The bytes are no text of TOML.
    NotToml,
    /// Another version than 1 and 2.
    Version(i64),
    /// A key that no job, or no view, has: the least one in the order of the bytes.
    UnknownKey(Name),
    /// This key has a value that it doesn't take, is missing, or stands beside keys that it doesn't go with.
    Wrong(Key),
    /// There are more than 12 views.
    TooManyViews,
    /// The direction of this view is zero.
    ZeroDirection(u32),
    /// The direction of this view has a component outside -9 to 9, the first one along this axis.
    DirectionRange(u32, Axis),
    /// `at` of this view is outside -1,048,576 to 1,048,576.
    CutRange(u32),
}

/// Why bytes give no job.
#[derive(Debug, Drop, Error)]
pub enum JobError {
    #[error("this is no job")]
    Job(JobFault),
    #[error("there is not enough memory")]
    Memory(OutOfMemory),
}

impl From<AllocError> for JobError {
    ghost from_gives = { λ _ e. e ≡ Memory (record {}) };

    fn from(_: AllocError) -> Self {
        JobError::Memory(OutOfMemory)
    }
}

impl<T: Drop> From<AllocFailed<T>> for JobError {
    ghost from_gives = { λ _ e. e ≡ Memory (record {}) };

    fn from(_: AllocFailed<T>) -> Self {
        JobError::Memory(OutOfMemory)
    }
}

impl From<JobFault> for JobError {
    ghost from_gives = { λ fault e. e ≡ Job fault };

    fn from(fault: JobFault) -> Self {
        JobError::Job(fault)
    }
}

impl From<OutOfMemory> for JobError {
    ghost from_gives = { λ _ e. e ≡ Memory (record {}) };

    fn from(_: OutOfMemory) -> Self {
        JobError::Memory(OutOfMemory)
    }
}
