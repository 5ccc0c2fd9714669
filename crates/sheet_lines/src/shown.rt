// Which paths are asked for, if hidden lines are drawn in some views.
ghost use Rattle.std.specs.Prelude.{◌≡◌, IfOk};
ghost use Rattle.sheet_lines.specs.Shown.{is_shown, shown_in};

use exact_frac::OutOfMemory;
use sheet_plan::Mark;
use std::alloc::Global;
use stroke_paths::Path;

/// A line of this mark is asked for in the view with this number.
pub(crate) fn is_shown(hidden: &[bool], view: u32, mark: Mark) -> bool
    ensures { result ≡ is_shown hidden.now view mark }
{
    if mark != Mark::Dashed {
        return true;
    }
    match hidden.get(view as usize) {
        Some(drawn) => *drawn,
        None => true,
    }
}

/// Which of some paths are asked for.
pub(crate) fn shown_in(
    alloc: Global,
    hidden: &[bool],
    paths: &[Path],
) -> Result<Vec<bool>, OutOfMemory>
    ensures { IfOk result (λ shown. shown.items ≡ shown_in hidden.now paths.now) }
{
    let mut shown = Vec::new(alloc);
    for path in paths {
        shown.push(is_shown(hidden, path.view, path.mark))?;
    }
    Ok(shown)
}
