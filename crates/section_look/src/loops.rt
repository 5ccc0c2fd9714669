// The loops of a section, taken apart.
ghost use Rattle.std.specs.Prelude.{◌≡◌, ◌+◌, ◌-◌, ◌<◌, ◌≤◌, take, drop, length, IfOk};
ghost use Rattle.cut_plane.specs.Loops.{AreLoops, joined};
ghost use Rattle.section_look.specs.Regions.{AreLoopsOf, lists_of};
ghost use Rattle.section_look.specs.inner.Parts.{end_of};

use cut_plane::{Section, Segment};
use exact_frac::OutOfMemory;
use std::alloc::Global;

/// The segments of each loop of the section, in order. Copies each segment once.
pub(crate) fn loops_of(alloc: Global, section: &Section) -> Result<Vec<Vec<Segment>>, OutOfMemory>
    requires { AreLoops section.now.segments.items section.now.loops.items }
    ensures { IfOk result (λ loops. AreLoopsOf section.now.segments.items section.now.loops.items (lists_of loops.items)) }
{
    let segments = section.segments.as_slice();
    let starts = section.loops.as_slice();
    let mut loops = Vec::new(alloc);
    for k in 0..starts.len() {
        let from = starts[k] as usize;
        let to = end_of(starts, k, segments.len());
        loops.push(Vec::from_slice(alloc, between(segments, from, to))?)?;
    }
    Ok(loops)
}

/// Where the loop with this number ends: where the next one begins, or at the end of all segments.
fn end_of(starts: &[u32], k: usize, count: usize) -> usize
    requires { k < length starts.now }
    ensures { result ≡ end_of starts.now k count }
{
    if k + 1 < starts.len() {
        starts[k + 1] as usize
    } else {
        count
    }
}

/// The segments from one place on and before another.
fn between(segments: &[Segment], from: usize, to: usize) -> &[Segment]
    requires ordered { from ≤ to }
    requires within { to ≤ length segments.now }
    ensures { result.now ≡ take (to - from) (drop from segments.now) }
{
    let part = &segments[from..to];
    part
}

/// The loops after the one with this number.
pub(crate) fn after(loops: &[Vec<Segment>], k: usize) -> &[Vec<Segment>]
    requires { k < length loops.now }
    ensures { result.now ≡ drop (k + 1) loops.now }
{
    let rest = &loops[k + 1..];
    rest
}

/// All segments of these loops, one loop after the other.
pub(crate) fn joined(alloc: Global, loops: &[Vec<Segment>]) -> Result<Vec<Segment>, OutOfMemory>
    ensures { IfOk result (λ segments. segments.items ≡ joined (lists_of loops.now)) }
{
    let mut segments = Vec::new(alloc);
    for segment_list in loops {
        segments.extend_from_slice(segment_list)?;
    }
    Ok(segments)
}
