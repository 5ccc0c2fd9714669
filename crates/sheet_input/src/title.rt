// The title of a sheet.
ghost use Rattle.std.specs.Prelude.{◌≡◌, IsTrue, IfOk, None, encode_utf8_all, string_bytes};
ghost use Rattle.std.specs.Str.{chars};
ghost use Rattle.job_file.specs.Texts.{is_title};
ghost use Rattle.sheet_words.specs.Titles.{IsProper};
ghost use Rattle.sheet_input.specs.Seen.{any_seen};
ghost use Rattle.sheet_input.specs.Titles.{before_stop, kept, name_title, part_title, stem, title_of};

use dec_text::Name;
use exact_frac::OutOfMemory;
use job_file::is_title;
use sheet_job::AnyJob;
use sheet_page::part_name;
use std::alloc::{AllocError, Global};

/// The characters before the last full stop.
fn before_stop(alloc: Global, name: &str) -> Result<String, AllocError>
    ensures { IfOk result (λ text. string_bytes text ≡ encode_utf8_all (before_stop (chars name.now))) }
{
    let mut front = String::new(alloc);
    let mut all = String::new(alloc);
    for c in name.chars() {
        if c == '.' {
            front = all.clone()?;
        }
        all.push(c)?;
    }
    Ok(front)
}

/// As many of the first characters as so many bytes have room for.
fn kept(alloc: Global, room: usize, text: &str) -> Result<String, AllocError>
    ensures { IfOk result (λ front. string_bytes front ≡ kept room (chars text.now)) }
{
    let mut kept = String::new(alloc);
    let mut left = room;
    for c in text.chars() {
        if left < c.len_utf8() {
            return Ok(kept);
        }
        left -= c.len_utf8();
        kept.push(c)?;
    }
    Ok(kept)
}

/// A name without its ending, by the characters before its last full stop.
fn stem<'t>(name: &'t str, front: &'t str) -> &'t str
    requires { front.now ≡ encode_utf8_all (before_stop (chars name.now)) }
    ensures { chars result.now ≡ stem (chars name.now) }
{
    if front.is_empty() { name } else { front }
}

/// The name of a part's file without its folders and its ending, in at most 120 bytes.
fn name_title(alloc: Global, part: &str) -> Result<String, AllocError>
    ensures { IfOk result (λ title. string_bytes title ≡ name_title part.now) }
{
    let name = part_name(alloc, part)?;
    let front = before_stop(alloc, name.as_str())?;
    kept(alloc, 120, stem(name.as_str(), front.as_str()))
}

/// The name of a part's file without its folders and its ending, as far as a title may be it.
fn part_title(alloc: Global, part: &str) -> Result<Name, OutOfMemory>
    ensures value { IfOk result (λ title. title ≡ part_title part.now) }
    ensures proper { IfOk result (λ title. IsTrue (is_title title)) }
{
    let title = name_title(alloc, part)?;
    if is_title(title.as_str()) {
        Name::new(alloc, title.as_str())
    } else {
        Name::new(alloc, "")
    }
}

/// The title of a job's sheet.
fn job_title(alloc: Global, job: &AnyJob, part: &str) -> Result<Name, OutOfMemory>
    ensures value { IfOk result (λ title. title ≡ title_of None (any_seen job.now) part.now) }
    ensures proper { IfOk result (λ title. IsTrue (is_title title)) }
{
    match job {
        AnyJob::Older(job) => Name::new(alloc, job.title.as_str()),
        AnyJob::Own(job) => match &job.title {
            Some(title) => Name::new(alloc, title.as_str()),
            None => part_title(alloc, part),
        },
    }
}

/// The title of a sheet: that of the words, or that of the job.
pub(crate) fn title_of(
    alloc: Global,
    said: &Option<Name>,
    job: &AnyJob,
    part: &str,
) -> Result<Name, OutOfMemory>
    requires { IsProper said.now }
    ensures value { IfOk result (λ title. title ≡ title_of said.now (any_seen job.now) part.now) }
    ensures proper { IfOk result (λ title. IsTrue (is_title title)) }
{
    match said {
        Some(title) => Name::new(alloc, title.as_str()),
        None => job_title(alloc, job, part),
    }
}
