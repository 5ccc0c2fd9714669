// Strips by the numbers of their lines.
ghost use Rattle.std.specs.Prelude.{◌≡◌, map, IfOk, IsPermutation};
ghost use Rattle.std.specs.List.Sorted.{IsNonDecreasingBy};
ghost use Rattle.line_merge.specs.inner.Numbering.{listed_strip, AreNumbered, AreListedByLine};

use exact_frac::OutOfMemory;
use indexmap::IndexSet;
use lattice::Strip;
use std::alloc::Global;

/// A strip, and the number of its line.
#[derive(Clone, Copy)]
pub(crate) struct Numbered {
    pub strip: Strip,
    pub line: usize,
}

/// A strip that stands in another list, and the number of its line: a twelfth of what the strip itself takes.
#[derive(Clone, Copy)]
pub(crate) struct Listed<'s> {
    pub strip: &'s Strip,
    pub line: usize,
}

/// The strip itself, with the number of its line.
pub(crate) fn listed_strip(x: &Listed<'_>) -> Numbered
    ensures { result ≡ listed_strip x.now }
{
    Numbered {
        strip: *x.strip,
        line: x.line,
    }
}

/// The strips with the numbers of their lines, which are numbered in the order in which they are first seen.
fn number_lines(alloc: Global, strips: &[Strip]) -> Result<Vec<Listed<'_>>, OutOfMemory>
    ensures { IfOk result (λ listed. AreNumbered strips.now (map listed_strip listed.items)) }
{
    let mut lines = IndexSet::new(alloc);
    let mut listed = Vec::with_capacity(alloc, strips.len())?;
    for strip in strips {
        let (line, _) = lines.insert_full(strip.line)?;
        listed.push(Listed { strip, line })?;
    }
    Ok(listed)
}

/// These strips in the order of the numbers of their lines.
fn sorted_by_line(mut listed: Vec<Listed<'_>>) -> Result<Vec<Listed<'_>>, OutOfMemory>
    ensures same { IfOk result (λ sorted. IsPermutation listed.entry.items sorted.items) }
    ensures sorted { IfOk result (λ sorted. IsNonDecreasingBy (λ x. x.line) sorted.items) }
{
    listed.sort_by_key(|x| x.line)?;
    Ok(listed)
}

/// The strips with the numbers of their lines, in the order of these numbers.
pub(crate) fn listed_by_line(
    alloc: Global,
    strips: &[Strip],
) -> Result<Vec<Listed<'_>>, OutOfMemory>
    ensures { IfOk result (λ listed. AreListedByLine strips.now listed.items) }
{
    let listed = number_lines(alloc, strips)?;
    let sorted = sorted_by_line(listed)?;
    Ok(sorted)
}
