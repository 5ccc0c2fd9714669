// The whole text.
ghost use Rattle.std.specs.Prelude.{◌≡◌, ◌≤◌, Ok, length, string_bytes, IfOk};
ghost use Rattle.job_file.specs.Documents.{job_of_bytes};
ghost use Rattle.job_file.specs.Seen.{job_seen};
ghost use Rattle.job_writer.specs.PlainJobs.{plain_job};

use crate::settings::push_settings;
use crate::views::push_views;
use exact_frac::OutOfMemory;
use job_file::Job;
use std::alloc::Global;

/// The job as a text of TOML, a job of version 2 in which every key is written: `version`, `decimals`, `angle`, `sheet`, `scale`,
/// `crease`, `title`, `outputs`, `unit` and `layout`, each on its line. Then each view has an empty line, the line `[[view]]`, and
/// its `name`, its `toward`, or its `cut`, `at` and `from`. Each line ends with a line feed. In the title, `"` and `\` have a `\` in
/// front. `Job::read` gives this very job for the text. The text has at most 2,048 bytes; the time goes with its length.
pub fn plain_job(alloc: Global, job: &Job) -> Result<String, OutOfMemory>
    ensures text { IfOk result (λ text. string_bytes text ≡ plain_job (job_seen job.now)) }
    ensures read { IfOk result (λ text. job_of_bytes (string_bytes text) ≡ Ok (job_seen job.now)) }
    ensures short { IfOk result (λ text. length (string_bytes text) ≤ 2048) }
{
    let mut text = String::new(alloc);
    push_settings(alloc, &mut text, job)?;
    push_views(alloc, &mut text, &job.views)?;
    Ok(text)
}
