// The job that a run takes where it names none.
ghost use Rattle.std.specs.Prelude.{◌≡◌, [], None, IfOk, IfErr};
ghost use Rattle.desk.specs.Files.{Files};
ghost use Rattle.job_file.specs.Seen.{job_seen};
ghost use Rattle.part_input.specs.Jobs.{TakesReadJob, IsOfUsualJob};
ghost use Rattle.part_input.specs.Steps.{GivesInput};

use crate::fault::Fault;
use job_file::Job;
use std::alloc::Global;

/// The usual job: that of the empty text. It has no outputs.
pub fn usual_job(alloc: Global) -> Result<Job, Fault>
    ensures answer { (files : Files) → GivesInput job_seen (TakesReadJob files None) result }
    ensures of_job { IfErr result IsOfUsualJob }
    ensures outputs { IfOk result (λ job. job.outputs.items ≡ []) }
{
    match Job::usual(alloc) {
        Ok(job) => Ok(job),
        Err(_) => Err(Fault::Memory),
    }
}
