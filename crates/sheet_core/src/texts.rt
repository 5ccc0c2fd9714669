// What is written of a drawing, made before anything is.
ghost use Rattle.std.specs.Prelude.{◌≡◌, IfOk};
ghost use Rattle.std.specs.List.{All};
ghost use Rattle.job_file.specs.Seen.{job_seen};
ghost use Rattle.job_writer.specs.PlainJobs.{plain_job};
ghost use Rattle.sheet_core.specs.Writing.{listed, page_text};
ghost use Rattle.sheet_core.specs.inner.Texts.{AreTextsOf};
ghost use Rattle.sheet_input.specs.Laid.{IsLaidDrawing};
ghost use Rattle.sheet_list.specs.Lists.{list_text};
ghost use Rattle.sheet_page.specs.Pages.{IsInView};
ghost use Rattle.sheet_words.specs.Seen.{goal_seen, named_seen};

use crate::page::{Shown, show};
use crate::refusals::{list_line, write_line};
use exact_frac::OutOfMemory;
use job_file::Job;
use job_writer::plain_job;
use sheet_input::SheetInput;
use sheet_list::list_text;
use sheet_page::{Page, pdf, svg};
use sheet_summary::summary_of;
use sheet_words::{Out, SheetRequest};
use std::alloc::Global;

/// The text of a drawing's page, the list of its strokes, its plain job, what is said of it, and the lines that tell that one of the first
/// three couldn't be written, without a reason.
#[derive(Drop)]
pub(crate) struct Texts {
    pub(crate) page: Vec<u8>,
    pub(crate) list: Vec<u8>,
    pub(crate) plain: Vec<u8>,
    pub(crate) summary: String,
    pub(crate) unwritten: String,
    pub(crate) unlisted: String,
    pub(crate) unplain: String,
}

/// The text of a page, by where it goes.
fn page_text(alloc: Global, out: &Out, page: &Page) -> Result<Vec<u8>, OutOfMemory>
    requires { All (IsInView page.now.views) page.now.items.items }
    ensures { IfOk result (λ text. text.items ≡ page_text (goal_seen out.now) page.now) }
{
    match out {
        Out::Said | Out::Svg(_) => svg(alloc, page),
        Out::Pdf(_) => pdf(alloc, page),
    }
}

/// The list of the strokes of a drawing, where the request asks for one.
fn listed(
    alloc: Global,
    request: &SheetRequest,
    input: &SheetInput,
    shown: &Shown,
) -> Result<Vec<u8>, OutOfMemory>
    requires { IsLaidDrawing input.now.drawing input.now.wish input.now.shrunk }
    ensures { IfOk result (λ text. text.items ≡
        listed (named_seen request.now).list (list_text input.now.drawing.job input.now.drawing.sheet shown.now.drawn.items shown.now.strokes.items)) }
{
    match &request.list {
        None => Ok(Vec::new(alloc)),
        Some(_) => {
            let drawing = &input.drawing;
            list_text(
                alloc,
                &drawing.job,
                &drawing.sheet,
                &shown.drawn,
                &shown.strokes,
            )
        }
    }
}

/// The job of a drawing as one of version 2, where the request asks for it.
fn plained(alloc: Global, request: &SheetRequest, job: &Job) -> Result<Vec<u8>, OutOfMemory>
    ensures { IfOk result (λ text. text.items ≡ listed (named_seen request.now).plain (plain_job (job_seen job.now))) }
{
    match &request.plain {
        None => Ok(Vec::new(alloc)),
        Some(_) => Ok(plain_job(alloc, job)?.into_bytes()),
    }
}

/// What is written of a drawing by a request.
pub(crate) fn texts_of(
    alloc: Global,
    request: &SheetRequest,
    input: &SheetInput,
) -> Result<Texts, OutOfMemory>
    requires { IsLaidDrawing input.now.drawing input.now.wish input.now.shrunk }
    ensures { IfOk result (AreTextsOf (named_seen request.now) input.now) }
{
    let SheetInput { drawing, look, .. } = input;
    let shown = show(alloc, request.part.as_str(), input)?;
    let page = page_text(alloc, &request.out, &shown.page)?;
    let list = listed(alloc, request, input, &shown)?;
    let plain = plained(alloc, request, &drawing.job)?;
    let (fitted, in_units) = (look.fitted, look.in_units);
    let (page_shown, covered) = (&shown.page, shown.covered);
    let summary = summary_of(
        alloc,
        drawing,
        fitted,
        in_units,
        page_shown,
        covered,
        &shown.marks,
    )?;
    let unwritten = write_line(alloc, &request.out, None)?;
    let unlisted = list_line(alloc, &request.list, None)?;
    let unplain = list_line(alloc, &request.plain, None)?;
    Ok(Texts {
        page,
        list,
        plain,
        summary,
        unwritten,
        unlisted,
        unplain,
    })
}
