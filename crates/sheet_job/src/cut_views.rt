// The cut views of a job of version 3.
ghost use Rattle.std.specs.Prelude.{◌≡◌, ◌<◌, ◌^◌, IfOk, None, codes, length};
ghost use Rattle.job_file.specs.CutKeys.{sides};
ghost use Rattle.job_tables.specs.Seen.{table_seen};
ghost use Rattle.sheet_job.specs.SheetFaults.{SaysSheet};
ghost use Rattle.sheet_job.specs.SheetSeen.{sheet_view_seen, IsPlacedIn};
ghost use Rattle.sheet_job.specs.SheetViews.{placed_at, meaning_at, sheet_cut_view};
ghost use Rattle.sheet_job.specs.WrittenValues.{choice_in, length_in};

use crate::cut::SheetCut;
use crate::entries::{hidden_at, length_at, side_at, text_at};
use crate::flaw::{SheetStop, ViewFlaw, flawed_view};
use crate::shown::SheetShown;
use crate::view::SheetView;
use exact_frac::OutOfMemory;
use job_tables::JobTable;
use job_text::text_place;
use lattice::Axis;
use std::alloc::Global;

/// The view with this number, of a cut across an axis.
pub(crate) fn cut_view(
    alloc: Global,
    text: &str,
    number: u32,
    table: &JobTable,
    axis: Axis,
) -> Result<SheetView, SheetStop>
    requires { length text.now < 2 ^ 31 }
    ensures value { SaysSheet sheet_view_seen result (sheet_cut_view number (table_seen table.now) axis (placed_at length_in (codes "at") (table_seen table.now).entries) (meaning_at (choice_in sides) (codes "from") (table_seen table.now).entries)) }
    ensures placed { IfOk result (λ v. IsPlacedIn text.now v) }
    ensures unnamed { IfOk result (λ v. v.named ≡ None) }
{
    let entries = &table.entries;
    let Some((word, value_at)) = length_at(entries) else {
        return Err(flawed_view(ViewFlaw::WithoutAt, number, entries, table.at));
    };
    let Some(from_high) = side_at(entries) else {
        return Err(flawed_view(ViewFlaw::WithoutFrom, number, entries, table.at));
    };
    let at = match Vec::from_slice(alloc, word) {
        Ok(at) => at,
        Err(_) => return Err(SheetStop::Memory(OutOfMemory)),
    };
    let title = match text_at(alloc, entries, "title") {
        Ok(title) => title,
        Err(error) => return Err(SheetStop::Memory(error)),
    };
    Ok(SheetView {
        shows: SheetShown::Cut(SheetCut {
            axis,
            at,
            from_high,
            value_at,
            place: text_place(text, value_at),
        }),
        named: None,
        title,
        hidden: hidden_at(entries),
    })
}
