// How a sheet looks, by the words and the job.
ghost use Rattle.std.specs.Prelude.{◌≡◌, [], IsTrue, None, IfOk, map, unwrap_or};
ghost use Rattle.job_file.specs.Seen.{shown, view_seen};
ghost use Rattle.lattice.specs.Points.{of_dir};
ghost use Rattle.job_file.specs.Texts.{is_title};
ghost use Rattle.job_file.specs.ViewValues.{ViewValues};
ghost use Rattle.sheet_job.specs.SheetSeen.{block_seen, sheet_view_seen, shown_seen};
ghost use Rattle.sheet_job.specs.SheetViews.{SheetViewValues};
ghost use Rattle.sheet_words.specs.Seen.{named_seen, said_seen};
ghost use Rattle.sheet_words.specs.Titles.{IsProper};
ghost use Rattle.sheet_input.specs.Looks.{block_by, draws_hidden, hidden_by, hidden_in, is_along, is_fitted, is_in_units, job_block, look_of, looks_along, shows_along, titles_of};
ghost use Rattle.sheet_input.specs.Seen.{any_seen, look_seen};

use dec_text::Name;
use exact_frac::OutOfMemory;
use job_file::JobView;
use lattice::{Dir, ViewSpec};
use sheet_job::{AnyJob, BlockTexts, Hidden, SheetShown, SheetView};
use sheet_words::{SaidTexts, SheetRequest};
use std::alloc::Global;

/// How a sheet looks: the texts of its block, in which views hidden lines are drawn, the titles of the views, of which an empty one is
/// none, whether the number of decimals was left to the program, and whether the job says the places of its cuts in units.
#[derive(Drop)]
pub struct SheetLook {
    pub block: BlockTexts,
    pub hidden: Vec<bool>,
    pub titles: Vec<Name>,
    pub fitted: bool,
    pub in_units: bool,
}

/// Hidden lines are drawn in a view of this kind, a plain one along an axis or not.
fn draws_hidden(hidden: Hidden, is_along: bool) -> bool
    ensures { result ≡ draws_hidden hidden is_along }
{
    match hidden {
        Hidden::All => true,
        Hidden::Plain => is_along,
        Hidden::Never => false,
    }
}

/// Whether hidden lines are drawn: by the words, or else by the view, or else by the job.
fn hidden_in(words: Option<Hidden>, view: Option<bool>, job: Hidden, is_along: bool) -> bool
    ensures { result ≡ hidden_in words view job is_along }
{
    match (words, view) {
        (Some(words), _) => draws_hidden(words, is_along),
        (None, Some(view)) => view,
        (None, None) => draws_hidden(job, is_along),
    }
}

/// Two of the direction's three numbers are 0.
fn is_along(direction: &Dir) -> bool
    ensures { result ≡ is_along (of_dir direction.now) }
{
    let d = direction.vector();
    d.y == 0 && d.z == 0 || d.x == 0 && d.z == 0 || d.x == 0 && d.y == 0
}

/// The view shows the whole part along an axis.
fn looks_along(spec: &ViewSpec) -> bool
    ensures { result ≡ looks_along (shown spec.now) }
{
    match spec {
        ViewSpec::Plain(direction) => is_along(direction),
        ViewSpec::Section(_) => false,
    }
}

/// The same of a view of version 3.
fn shows_along(shows: &SheetShown) -> bool
    ensures { result ≡ shows_along (shown_seen shows.now) }
{
    match shows {
        SheetShown::Plain(direction) => is_along(direction),
        SheetShown::Cut(_) => false,
    }
}

/// In which views of an older job hidden lines are drawn.
fn older_hidden(
    alloc: Global,
    words: Option<Hidden>,
    views: &[JobView],
) -> Result<Vec<bool>, OutOfMemory>
    ensures { IfOk result (λ hidden. hidden.items ≡ map (λ (v : ViewValues). hidden_in words None Hidden.Plain (looks_along v.shows)) (map view_seen views.now)) }
{
    let mut hidden = Vec::new(alloc);
    for view in views {
        hidden.push(hidden_in(words, None, Hidden::Plain, looks_along(&view.spec)))?;
    }
    Ok(hidden)
}

/// In which views of a job of version 3 hidden lines are drawn.
fn own_hidden(
    alloc: Global,
    words: Option<Hidden>,
    job: Hidden,
    views: &[SheetView],
) -> Result<Vec<bool>, OutOfMemory>
    ensures { IfOk result (λ hidden. hidden.items ≡ map (λ (v : SheetViewValues). hidden_in words v.hidden job (shows_along v.shows)) (map sheet_view_seen views.now)) }
{
    let mut hidden = Vec::new(alloc);
    for view in views {
        hidden.push(hidden_in(words, view.hidden, job, shows_along(&view.shows)))?;
    }
    Ok(hidden)
}

/// In which views hidden lines are drawn.
fn hidden_by(alloc: Global, words: Option<Hidden>, job: &AnyJob) -> Result<Vec<bool>, OutOfMemory>
    ensures { IfOk result (λ hidden. hidden.items ≡ hidden_by words (any_seen job.now)) }
{
    match job {
        AnyJob::Older(job) => older_hidden(alloc, words, &job.views),
        AnyJob::Own(job) => own_hidden(alloc, words, job.hidden, &job.views),
    }
}

/// The titles of an older job's views: none has one.
fn older_titles(alloc: Global, views: &[JobView]) -> Result<Vec<Name>, OutOfMemory>
    ensures { IfOk result (λ titles. titles.items ≡ map (λ (v : ViewValues). []) (map view_seen views.now)) }
{
    let mut titles = Vec::new(alloc);
    for _view in views {
        titles.push(Name::new(alloc, "")?)?;
    }
    Ok(titles)
}

/// The titles of the views of a job of version 3.
fn own_titles(alloc: Global, views: &[SheetView]) -> Result<Vec<Name>, OutOfMemory>
    ensures { IfOk result (λ titles. titles.items ≡ map (λ (v : SheetViewValues). v.title) (map sheet_view_seen views.now)) }
{
    let mut titles = Vec::new(alloc);
    for view in views {
        titles.push(Name::new(alloc, view.title.as_str())?)?;
    }
    Ok(titles)
}

/// The titles of a job's views.
fn titles_of(alloc: Global, job: &AnyJob) -> Result<Vec<Name>, OutOfMemory>
    ensures { IfOk result (λ titles. titles.items ≡ titles_of (any_seen job.now)) }
{
    match job {
        AnyJob::Older(job) => older_titles(alloc, &job.views),
        AnyJob::Own(job) => own_titles(alloc, &job.views),
    }
}

/// The text of the words, or else this one.
fn said_or(alloc: Global, said: &Option<Name>, text: &Name) -> Result<Name, OutOfMemory>
    requires said { IsProper said.now }
    requires text { IsTrue (is_title text.now) }
    ensures value { IfOk result (λ it. it ≡ unwrap_or said.now text.now) }
    ensures proper { IfOk result (λ it. IsTrue (is_title it)) }
{
    match said {
        Some(said) => Name::new(alloc, said.as_str()),
        None => Name::new(alloc, text.as_str()),
    }
}

/// The block's texts, with those of the words in their places.
fn block_by(alloc: Global, said: &SaidTexts, block: &BlockTexts) -> Result<BlockTexts, OutOfMemory>
    ensures { IfOk result (λ b. block_seen b ≡ block_by (said_seen said.now) (block_seen block.now)) }
{
    Ok(BlockTexts {
        number: said_or(alloc, &said.number, &block.number)?,
        kind: Name::new(alloc, block.kind.as_str())?,
        material: said_or(alloc, &said.material, &block.material)?,
        author: Name::new(alloc, block.author.as_str())?,
        approved: Name::new(alloc, block.approved.as_str())?,
        date: said_or(alloc, &said.date, &block.date)?,
        revision: said_or(alloc, &said.revision, &block.revision)?,
        company: Name::new(alloc, block.company.as_str())?,
        tolerances: Name::new(alloc, block.tolerances.as_str())?,
        note: Name::new(alloc, block.note.as_str())?,
    })
}

/// The texts of the block of a job's sheet.
fn block_of(alloc: Global, said: &SaidTexts, job: &AnyJob) -> Result<BlockTexts, OutOfMemory>
    ensures { IfOk result (λ b. block_seen b ≡ block_by (said_seen said.now) (job_block (any_seen job.now))) }
{
    match job {
        AnyJob::Older(_) => block_by(alloc, said, &BlockTexts::none(alloc)?),
        AnyJob::Own(job) => block_by(alloc, said, &job.block),
    }
}

/// The number of decimals was left to the program.
fn is_fitted(job: &AnyJob) -> bool
    ensures { result ≡ is_fitted (any_seen job.now) }
{
    match job {
        AnyJob::Older(_) => false,
        AnyJob::Own(job) => job.decimals.is_none(),
    }
}

/// The job says the places of its cuts in units: it is an older one.
fn is_in_units(job: &AnyJob) -> bool
    ensures { result ≡ is_in_units (any_seen job.now) }
{
    match job {
        AnyJob::Older(_) => true,
        AnyJob::Own(_) => false,
    }
}

/// How the sheet of a request looks.
pub(crate) fn look_of(
    alloc: Global,
    request: &SheetRequest,
    job: &AnyJob,
) -> Result<SheetLook, OutOfMemory>
    ensures { IfOk result (λ look. look_seen look ≡ look_of (named_seen request.now) (any_seen job.now)) }
{
    Ok(SheetLook {
        block: block_of(alloc, &request.said, job)?,
        hidden: hidden_by(alloc, request.hidden, job)?,
        titles: titles_of(alloc, job)?,
        fitted: is_fitted(job),
        in_units: is_in_units(job),
    })
}
