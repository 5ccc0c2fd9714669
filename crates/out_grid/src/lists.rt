// Lists of numbers that have numbers themselves.
ghost use Rattle.std.specs.Prelude.{◌≡◌, ℕ, ◌+◌, ◌<◌, ◌^◌, [], ◌∷◌, ◌++◌, slice_get, slice_index_or, slice_set, vec_len, OnOk, OnErr, IfOk};
ghost use Rattle.solid_mesh.specs.Stars.{lists_of};
ghost use Rattle.out_grid.specs.Grids.{list_at};

use crate::meter::CellMeter;
use exact_frac::OutOfMemory;
use std::alloc::Global;

/// So many empty lists.
pub(crate) fn empty_lists(alloc: Global, count: u32) -> Result<Vec<Vec<u32>>, OutOfMemory>
    ensures for_each { IfOk result (λ lists. vec_len lists ≡ count) }
    ensures empty { IfOk result (λ lists. (i : ℕ) → slice_index_or (lists_of lists.items) i [] ≡ []) }
{
    let mut lists = Vec::new(alloc);
    for _ in 0..count {
        lists.push(Vec::new(alloc))?;
    }
    Ok(lists)
}

/// Puts an outline last into one cell. Where memory runs out the cells stand.
pub(crate) fn put_in(
    cells: &mut Vec<Vec<u32>>,
    cell: u32,
    outline: u32,
    meter: &mut CellMeter,
) -> Result<(), OutOfMemory>
    requires cell { cell < vec_len cells.old }
    requires room { meter.old.cells + 1 < 2 ^ 64 }
    ensures long { vec_len cells.new ≡ vec_len cells.old }
    ensures put { OnOk result (lists_of cells.new.items ≡ slice_set (lists_of cells.old.items) cell (slice_index_or (lists_of cells.old.items) cell [] ++ outline ∷ [])) }
    ensures kept { OnErr result (lists_of cells.new.items ≡ lists_of cells.old.items) }
    ensures counted { meter.new.cells ≡ meter.old.cells + 1 }
{
    meter.cells += 1;
    cells[cell as usize].push(outline)?;
    Ok(())
}

/// The number at a place of one of the lists; none from its end on, and none of another list.
pub(crate) fn number_at(lists: &[Vec<u32>], list: u32, i: u32) -> Option<u32>
    ensures { result ≡ slice_get (list_at (lists_of lists.now) list) i }
{
    let Some(numbers) = lists.get(list as usize) else {
        return None;
    };
    numbers.get(i as usize).copied()
}
