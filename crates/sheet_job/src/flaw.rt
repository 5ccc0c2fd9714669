// What is wrong with a job of version 3, and where.
ghost use Rattle.std.specs.Prelude.{◌≡◌, ◌<◌, ◌^◌, length, map};
ghost use Rattle.job_tables.specs.Seen.{entry_seen};
ghost use Rattle.job_text.specs.Places.{IsTextPlace};
ghost use Rattle.sheet_job.specs.SheetViews.{named_in};

use crate::entries::name_at;
use crate::keys::SheetKey;
use exact_frac::OutOfMemory;
use job_file::Principal;
use job_tables::{TableEntry, TableFlaw};
use job_text::{Flaw, TextPlace, text_place};

/// What is wrong with a view.
#[derive(Clone, Copy, PartialEq, Eq, Debug)]
pub enum ViewFlaw {
    /// Not exactly one of `name`, `toward` and `cut` is there.
    Form,
    /// This key is there without `cut`.
    WithoutCut(SheetKey),
    /// `cut` is there without `at`.
    WithoutAt,
    /// `cut` is there without `from`.
    WithoutFrom,
    /// An earlier view has the name.
    NameTaken,
}

/// What is wrong with a job of version 3. Views are counted from 0.
#[derive(Debug, Drop)]
pub enum JobFlaw {
    /// A byte begins no character of UTF-8.
    NotUtf8,
    Line(Flaw),
    /// TOML refuses the text with this line, as for a key that is there twice.
    Refused,
    Table(TableFlaw),
    /// The key doesn't have such a value. It is a text that the key may have without quotes, or not. If the key is in a view, its number.
    Wrong(SheetKey, bool, Option<u32>),
    /// In this view, and the view's name if it has one.
    View(ViewFlaw, u32, Option<Principal>),
    /// The cut of this view is at more than 1,048,576 units.
    AtRange(u32),
}

/// What is wrong with a job of version 3, at its place.
#[derive(Debug, Drop)]
pub struct PlacedFlaw {
    pub place: TextPlace,
    pub flaw: JobFlaw,
}

/// Why a text is no job of version 3.
#[derive(Debug, Drop)]
pub(crate) enum SheetStop {
    /// A flaw, and how many bytes of the text are before its place.
    At(JobFlaw, usize),
    /// Memory ran out.
    Memory(OutOfMemory),
}

/// A flaw of the view with this number, at a place.
pub(crate) fn flawed_view(
    flaw: ViewFlaw,
    number: u32,
    entries: &[TableEntry],
    at: usize,
) -> SheetStop
    ensures { result ≡ SheetStop.At (JobFlaw.View flaw number (named_in (map entry_seen entries.now))) at }
{
    let named = match name_at(entries) {
        Some((name, _)) => Some(name),
        None => None,
    };
    SheetStop::At(JobFlaw::View(flaw, number, named), at)
}

/// The flaw at its place, after so many bytes of the text.
pub(crate) fn placed(text: &str, flaw: JobFlaw, at: usize) -> PlacedFlaw
    requires { length text.now < 2 ^ 31 }
    ensures same { result.flaw ≡ flaw }
    ensures place { IsTextPlace text.now at result.place }
{
    PlacedFlaw {
        place: text_place(text, at),
        flaw,
    }
}
