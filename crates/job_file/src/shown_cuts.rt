// The cuts that views show.
ghost use Rattle.std.specs.Prelude.{◌≡◌, ◌++◌, IfOk, OnOk};
ghost use Rattle.lattice.specs.ShownCuts.{cuts_of};
ghost use Rattle.job_file.specs.ShownCuts.{cuts_in};

use crate::view::JobView;
use exact_frac::OutOfMemory;
use lattice::{Cut, ViewSpec};
use std::alloc::Global;

/// Adds the cut that a view shows, if it shows one.
fn add_cut(cuts: &mut Vec<Cut>, spec: &ViewSpec) -> Result<(), OutOfMemory>
    ensures { OnOk result (cuts.new.items ≡ cuts.old.items ++ cuts_of spec.now) }
{
    match spec {
        ViewSpec::Plain(_) => {}
        ViewSpec::Section(cut) => cuts.push(*cut)?,
    }
    Ok(())
}

/// The cuts among the views, in their order.
pub fn cuts_in(alloc: Global, views: &[JobView]) -> Result<Vec<Cut>, OutOfMemory>
    ensures { IfOk result (λ cuts. cuts.items ≡ cuts_in views.now) }
{
    let mut cuts = Vec::new(alloc);
    for view in views {
        add_cut(&mut cuts, &view.spec)?;
    }
    Ok(cuts)
}
