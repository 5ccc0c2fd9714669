// The places at which a leg is split.
ghost use Rattle.std.specs.Prelude.{◌≡◌, ◌≤◌, ◌^◌, ◌++◌, [], IfOk, OnOk, unsigned_abs};
ghost use Rattle.std.specs.List.{flat_map};
ghost use Rattle.covered_paths.specs.Splits.{first_splits, insert, insert_all, is_before, is_between, places, second_splits, split, split_by, splits, splits_at};

use crate::legs::{Leg, Place, way_between, way_of};
use crate::numbers::{any_product, dot, is_less, is_wide_less, negative};
use exact_frac::OutOfMemory;
use std::alloc::Global;

/// A part of a whole is more than nothing and less than that.
fn is_between(part: i64, whole: i64) -> bool
    ensures { result ≡ is_between part whole }
{
    if !is_less(0, part) {
        return false;
    }
    is_less(part, whole)
}

/// Adds the place of so many parts of the way, if it is between the ends of a leg.
#[tactic(auto, unfolding(crate::specs::Splits::split))]
fn add_split(places: &mut Vec<Place>, part: i64, whole: i64) -> Result<(), OutOfMemory>
    requires part { unsigned_abs part ≤ 2 ^ 37 }
    requires whole { unsigned_abs whole ≤ 2 ^ 37 }
    ensures { OnOk result (places.new.items ≡ places.old.items ++ split part whole) }
{
    if is_between(part, whole) {
        places.push(Place { part, whole })?;
        return Ok(());
    }
    let back = negative(part);
    let back_whole = negative(whole);
    if is_between(back, back_whole) {
        places.push(Place {
            part: back,
            whole: back_whole,
        })?;
    }
    Ok(())
}

/// Adds the place at which the line through a point, upright to another leg, meets a leg.
#[tactic(auto, unfolding(crate::specs::Splits::split_by))]
fn add_split_by(
    places: &mut Vec<Place>,
    leg: &Leg,
    other: &Leg,
    x: i64,
    y: i64,
) -> Result<(), OutOfMemory>
    requires x_near { unsigned_abs x ≤ 2 ^ 17 }
    requires y_near { unsigned_abs y ≤ 2 ^ 17 }
    ensures { OnOk result (places.new.items ≡ places.old.items ++ split_by leg.now other.now x y) }
{
    let from = way_between(leg.x1, leg.y1, x, y);
    let along = way_of(leg);
    let way = way_of(other);
    let part = dot(from.across, from.down, way.across, way.down);
    let whole = dot(along.across, along.down, way.across, way.down);
    add_split(places, part, whole)
}

/// Adds the foot of an end of another leg, and the place at which the perpendicular to that leg at this end meets the leg.
#[tactic(auto, unfolding(crate::specs::Splits::splits_at))]
fn add_splits_at(
    places: &mut Vec<Place>,
    leg: &Leg,
    other: &Leg,
    x: i64,
    y: i64,
) -> Result<(), OutOfMemory>
    requires x_near { unsigned_abs x ≤ 2 ^ 17 }
    requires y_near { unsigned_abs y ≤ 2 ^ 17 }
    ensures { OnOk result (places.new.items ≡ places.old.items ++ splits_at leg.now other.now x y) }
{
    add_split_by(places, leg, leg, x, y)?;
    add_split_by(places, leg, other, x, y)
}

/// Adds those of its first end.
#[tactic(auto, unfolding(crate::specs::Splits::first_splits))]
fn add_first_splits(places: &mut Vec<Place>, leg: &Leg, other: &Leg) -> Result<(), OutOfMemory>
    ensures { OnOk result (places.new.items ≡ places.old.items ++ first_splits leg.now other.now) }
{
    add_splits_at(places, leg, other, other.x1, other.y1)
}

/// Adds those of its second end.
#[tactic(auto, unfolding(crate::specs::Splits::second_splits))]
fn add_second_splits(places: &mut Vec<Place>, leg: &Leg, other: &Leg) -> Result<(), OutOfMemory>
    ensures { OnOk result (places.new.items ≡ places.old.items ++ second_splits leg.now other.now) }
{
    add_splits_at(places, leg, other, other.x2, other.y2)
}

/// Adds the places at which another leg splits a leg.
#[tactic(auto, unfolding(crate::specs::Splits::splits))]
fn add_splits(places: &mut Vec<Place>, leg: &Leg, other: &Leg) -> Result<(), OutOfMemory>
    ensures { OnOk result (places.new.items ≡ places.old.items ++ splits leg.now other.now) }
{
    add_first_splits(places, leg, other)?;
    add_second_splits(places, leg, other)
}

/// The places at which other legs split a leg.
fn all_splits(alloc: Global, leg: &Leg, near: &[Leg]) -> Result<Vec<Place>, OutOfMemory>
    ensures { IfOk result (λ places. places.items ≡ flat_map (splits leg.now) near.now) }
{
    let mut places = Vec::new(alloc);
    for other in near {
        add_splits(&mut places, leg, other)?;
    }
    Ok(places)
}

/// The one place is before the other.
#[tactic(auto, unfolding(crate::specs::Splits::is_before))]
fn is_before(place: &Place, other: &Place) -> bool
    ensures { result ≡ is_before place.now other.now }
{
    is_wide_less(
        any_product(place.part, other.whole),
        any_product(other.part, place.whole),
    )
}

/// Adds places that are in their order, with one more among them.
fn add_inserted(places: &mut Vec<Place>, place: &Place, sorted: &[Place]) -> Result<(), OutOfMemory>
    ensures { OnOk result (places.new.items ≡ places.old.items ++ insert place.now sorted.now) }
{
    match sorted {
        [] => {
            places.push(*place)?;
            Ok(())
        }
        [first, rest @ ..] => {
            if is_before(first, place) {
                places.push(*first)?;
                return add_inserted(places, place, rest);
            }
            places.push(*place)?;
            places.extend_from_slice(sorted)?;
            Ok(())
        }
    }
}

/// Places that are in their order, with one more among them.
fn inserted(alloc: Global, place: &Place, sorted: &[Place]) -> Result<Vec<Place>, OutOfMemory>
    ensures { IfOk result (λ places. places.items ≡ insert place.now sorted.now) }
{
    let mut places = Vec::new(alloc);
    add_inserted(&mut places, place, sorted)?;
    Ok(places)
}

/// Places in their order.
fn in_order(alloc: Global, splits: &[Place]) -> Result<Vec<Place>, OutOfMemory>
    ensures { IfOk result (λ sorted. sorted.items ≡ insert_all [] splits.now) }
{
    let mut sorted = Vec::new(alloc);
    for place in splits {
        sorted = inserted(alloc, place, &sorted)?;
    }
    Ok(sorted)
}

/// The places at which other legs split a leg, in their order.
#[tactic(auto, unfolding(crate::specs::Splits::places))]
pub(crate) fn places(alloc: Global, leg: &Leg, near: &[Leg]) -> Result<Vec<Place>, OutOfMemory>
    ensures { IfOk result (λ sorted. sorted.items ≡ places leg.now near.now) }
{
    let splits = all_splits(alloc, leg, near)?;
    in_order(alloc, &splits)
}
