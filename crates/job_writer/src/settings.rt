// The keys of a job that aren't those of a view.
ghost use Rattle.std.specs.Prelude.{◌≡◌, ◌++◌, take, drop, string_bytes, IfOk, OnOk, IsUtf8};
ghost use Rattle.std.specs.Fmt.{decimal};
ghost use Rattle.std.specs.List.{flat_map};
ghost use Rattle.job_file.specs.Seen.{job_seen};
ghost use Rattle.job_writer.specs.Pairs.{key_line};
ghost use Rattle.job_writer.specs.PlainJobs.{job_pairs};

use crate::called::{angle_name, crease_name, layout_name, length_name, scale_name};
use crate::pairs::{push_line, push_names, push_title, push_word};
use exact_frac::OutOfMemory;
use job_file::Job;
use std::alloc::Global;

/// A number of decimals.
fn decimals_text(alloc: Global, decimals: u8) -> Result<String, OutOfMemory>
    ensures { IfOk result (λ text. string_bytes text ≡ decimal decimals) }
{
    Ok(format!(in alloc; "{decimals}")?)
}

/// Writes the lines of a job's first three keys.
fn push_reading(alloc: Global, text: &mut String, job: &Job) -> Result<(), OutOfMemory>
    ensures { OnOk result (string_bytes text.new ≡ string_bytes text.old ++ flat_map key_line (take 3 (job_pairs (job_seen job.now)))) }
{
    push_line(text, "version", "2")?;
    push_line(
        text,
        "decimals",
        decimals_text(alloc, job.decimals)?.as_str(),
    )?;
    push_word(text, "angle", angle_name(job.third))?;
    Ok(())
}

/// Writes the lines of the three keys behind those.
fn push_drawing(alloc: Global, text: &mut String, job: &Job) -> Result<(), OutOfMemory>
    ensures { OnOk result (string_bytes text.new ≡ string_bytes text.old ++ flat_map key_line (take 3 (drop 3 (job_pairs (job_seen job.now))))) }
{
    push_word(text, "sheet", job.paper.name())?;
    push_word(text, "scale", scale_name(alloc, job.scale)?.as_str())?;
    push_word(text, "crease", crease_name(job.crease))
}

/// Writes the lines of the keys behind the first six.
fn push_rest(text: &mut String, job: &Job) -> Result<(), OutOfMemory>
    ensures text { OnOk result (string_bytes text.new ≡ string_bytes text.old ++ flat_map key_line (drop 6 (job_pairs (job_seen job.now)))) }
    ensures utf8 { OnOk result (IsUtf8 job.now.title) }
{
    push_title(text, "title", job.title.as_str())?;
    push_names(text, "outputs", &job.outputs)?;
    push_word(text, "unit", length_name(job.unit))?;
    push_word(text, "layout", layout_name(job.portrait))
}

/// Writes the lines of a job's keys.
pub(crate) fn push_settings(alloc: Global, text: &mut String, job: &Job) -> Result<(), OutOfMemory>
    ensures text { OnOk result (string_bytes text.new ≡ string_bytes text.old ++ flat_map key_line (job_pairs (job_seen job.now))) }
    ensures utf8 { OnOk result (IsUtf8 job.now.title) }
{
    push_reading(alloc, text, job)?;
    push_drawing(alloc, text, job)?;
    push_rest(text, job)?;
    Ok(())
}
