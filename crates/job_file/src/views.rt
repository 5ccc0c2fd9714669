// The views of a job.
ghost use Rattle.std.specs.Prelude.{◌≡◌, [], ◌≤◌, ◌<◌, ◌||◌, is_some, IsFalse, IfOk, Some, None, codes, map, length};
ghost use Rattle.std.specs.List.{All, AllPairs, list_any, list_all};
ghost use Rattle.toml.specs.Data.{get_member};
ghost use Rattle.toml.specs.View.{view, table_view};
ghost use Rattle.job_file.specs.Documents.{is_table, usual_views, views_of, views_at};
ghost use Rattle.job_file.specs.Seen.{view_seen};
ghost use Rattle.job_file.specs.Steps.{GivesJob};
ghost use Rattle.job_file.specs.inner.Steps.{GivesExactly};
ghost use Rattle.job_file.specs.ViewKeys.{is_named, view_named, named_view, toward_view, view_of_keys, view_of_table, view_of, views_after};
ghost use Rattle.job_file.specs.Views.{AreNamedApart};

use crate::cuts::cut_view;
use crate::directions::{direction, direction_of, numbers_of, principal_of};
use crate::fault::{JobError, JobFault, Key};
use crate::table::{Kind, unknown_key, value_at};
use crate::view::{JobView, Principal};
use dec_text::Name;
use exact_frac::OutOfMemory;
use lattice::ViewSpec;
use std::alloc::Global;
use toml::{Table, Value};

/// A view has this name.
fn is_named(name: Principal, named: Option<Principal>) -> bool
    ensures { result ≡ is_named name named }
{
    match named {
        Some(other) => other == name,
        None => false,
    }
}

/// An earlier view has this name.
fn is_taken(name: Principal, earlier: &[JobView]) -> bool
    ensures value { result ≡ list_any (λ v. is_named name v.named) (map view_seen earlier.now) }
    ensures apart { IsFalse result → All (λ w. AreNamedApart w.named (Some name)) earlier.now }
{
    for view in earlier {
        if is_named(name, view.named) {
            return true;
        }
    }
    false
}

/// The view of a name.
pub fn view_named(name: Principal) -> JobView
    ensures { view_seen result ≡ view_named name }
{
    JobView {
        spec: ViewSpec::Plain(direction_of(name)),
        named: Some(name),
    }
}

/// The view of a name that no earlier view has.
fn named_view(name: &Value, earlier: &[JobView]) -> Result<JobView, JobFault>
    ensures value { GivesExactly view_seen result (named_view (map view_seen earlier.now) (view name.now)) }
    ensures apart { IfOk result (λ v. All (λ w. AreNamedApart w.named v.named) earlier.now) }
{
    match name.as_str().and_then(principal_of) {
        Some(name) if !is_taken(name, earlier) => Ok(view_named(name)),
        _ => Err(JobFault::Wrong(Key::Name)),
    }
}

/// The view with this number, from a direction.
fn toward_view(number: u32, toward: &Value) -> Result<JobView, JobFault>
    ensures value { GivesExactly view_seen result (toward_view number (view toward.now)) }
    ensures unnamed { IfOk result (λ v. v.named ≡ None) }
{
    match numbers_of(toward) {
        None => Err(JobFault::Wrong(Key::Toward)),
        Some(numbers) => Ok(JobView {
            spec: ViewSpec::Plain(direction(number, numbers)?),
            named: None,
        }),
    }
}

/// A key of cut views is there.
fn has_cut_key(table: &Table) -> bool
    ensures { result ≡ (is_some (get_member (codes "at") (table_view table.now)) || is_some (get_member (codes "from") (table_view table.now))) }
{
    value_at(table, "at").is_some() || value_at(table, "from").is_some()
}

/// The view of a table that has no other keys.
fn view_of_keys(table: &Table, earlier: &[JobView]) -> Result<JobView, JobFault>
    requires { length earlier.now < 12 }
    ensures value { GivesExactly view_seen result (view_of_keys (map view_seen earlier.now) (get_member (codes "name") (table_view table.now)) (get_member (codes "toward") (table_view table.now)) (get_member (codes "cut") (table_view table.now)) (get_member (codes "at") (table_view table.now)) (get_member (codes "from") (table_view table.now))) }
    ensures apart { IfOk result (λ v. All (λ w. AreNamedApart w.named v.named) earlier.now) }
{
    let has_cut_key = has_cut_key(table);
    match (
        value_at(table, "name"),
        value_at(table, "toward"),
        value_at(table, "cut"),
    ) {
        (Some(_), None, None) | (None, Some(_), None) if has_cut_key => Err(JobFault::Wrong(
            Key::Cut,
        )),
        (Some(name), None, None) => named_view(name, earlier),
        (None, Some(toward), None) => toward_view(earlier.len() as u32, toward),
        (None, None, Some(cut)) => cut_view(earlier.len() as u32, cut, table),
        _ => Err(JobFault::Wrong(Key::View)),
    }
}

/// The view of a table.
#[tactic(auto, unfolding(crate::specs::ViewKeys::view_of_table))]
fn view_of_table(alloc: Global, table: &Table, earlier: &[JobView]) -> Result<JobView, JobError>
    requires { length earlier.now < 12 }
    ensures value { GivesJob view_seen result (view_of_table (map view_seen earlier.now) (table_view table.now)) }
    ensures apart { IfOk result (λ v. All (λ w. AreNamedApart w.named v.named) earlier.now) }
{
    if let Some(key) = unknown_key(Kind::View, table) {
        return Err(JobError::Job(JobFault::UnknownKey(Name::new(alloc, key)?)));
    }
    Ok(view_of_keys(table, earlier)?)
}

/// The view of a value.
fn view_of(alloc: Global, value: &Value, earlier: &[JobView]) -> Result<JobView, JobError>
    requires { length earlier.now < 12 }
    ensures value { GivesJob view_seen result (view_of (map view_seen earlier.now) (view value.now)) }
    ensures apart { IfOk result (λ v. All (λ w. AreNamedApart w.named v.named) earlier.now) }
{
    match value.as_table() {
        Some(table) => view_of_table(alloc, table, earlier),
        None => Err(JobError::Job(JobFault::Wrong(Key::View))),
    }
}

/// All views of the values, one after the other. Each name is compared with those of the views before it.
fn views_in_order(alloc: Global, values: &[Value]) -> Result<Vec<JobView>, JobError>
    requires { length values.now ≤ 12 }
    ensures value { GivesJob (λ views. map view_seen views.items) result (views_after [] (map view values.now)) }
    ensures count { IfOk result (λ views. length views.items ≡ length values.now) }
    ensures apart { IfOk result (λ views. AllPairs (λ v w. AreNamedApart v.named w.named) views.items) }
{
    let mut views = Vec::new(alloc);
    for value in values {
        let view = view_of(alloc, value, &views)?;
        views.push(view)?;
    }
    Ok(views)
}

/// All values are tables.
fn are_tables(values: &[Value]) -> bool
    ensures { result ≡ list_all is_table (map view values.now) }
{
    for value in values {
        if !value.is_table() {
            return false;
        }
    }
    true
}

/// The views of the values: 1 to 12 tables.
fn views_of(alloc: Global, values: &[Value]) -> Result<Vec<JobView>, JobError>
    ensures value { GivesJob (λ views. map view_seen views.items) result (views_of (map view values.now)) }
    ensures some { IfOk result (λ views. 1 ≤ length views.items) }
    ensures few { IfOk result (λ views. length views.items ≤ 12) }
    ensures apart { IfOk result (λ views. AllPairs (λ v w. AreNamedApart v.named w.named) views.items) }
{
    if values.is_empty() || !are_tables(values) {
        return Err(JobError::Job(JobFault::Wrong(Key::View)));
    }
    if values.len() > 12 {
        return Err(JobError::Job(JobFault::TooManyViews));
    }
    views_in_order(alloc, values)
}

/// From the front, from above and from the left.
pub fn usual_views(alloc: Global) -> Result<Vec<JobView>, OutOfMemory>
    ensures value { IfOk result (λ views. map view_seen views.items ≡ usual_views) }
    ensures apart { IfOk result (λ views. AllPairs (λ v w. AreNamedApart v.named w.named) views.items) }
{
    let mut views = Vec::with_capacity(alloc, 3)?;
    views.push(view_named(Principal::Front))?;
    views.push(view_named(Principal::Above))?;
    views.push(view_named(Principal::Left))?;
    Ok(views)
}

/// The job's views.
pub fn views(alloc: Global, table: &Table) -> Result<Vec<JobView>, JobError>
    ensures value { GivesJob (λ views. map view_seen views.items) result (views_at (get_member (codes "view") (table_view table.now))) }
    ensures some { IfOk result (λ views. 1 ≤ length views.items) }
    ensures few { IfOk result (λ views. length views.items ≤ 12) }
    ensures apart { IfOk result (λ views. AllPairs (λ v w. AreNamedApart v.named w.named) views.items) }
{
    match value_at(table, "view") {
        None => Ok(usual_views(alloc)?),
        Some(value) => match value.as_array() {
            Some(values) => views_of(alloc, values),
            None => Err(JobError::Job(JobFault::Wrong(Key::View))),
        },
    }
}
