// The numbers of a view.
ghost use Rattle.std.specs.Prelude.{◌≡◌, ◌^◌};

/// The drawn edges of plain views, their runs, the tests that were made in these and their bound, the tests that were made in the views
/// of cuts and theirs, and the cells that were counted in all and theirs, of one view or of several.
#[derive(Clone, Copy)]
pub struct ViewNumbers {
    pub edges: u64,
    pub runs: u64,
    pub bound: u64,
    pub tests: u64,
    pub cut_bound: u64,
    pub cut_tests: u64,
    pub cell_bound: u64,
    pub cells: u64,
}

impl ViewNumbers {
    ghost use Rattle.view_lines.specs.Numbers.{no_numbers, plus, AreBelow};

    /// Those of no view.
    pub fn none() -> ViewNumbers
        ensures { result ≡ no_numbers }
    {
        ViewNumbers {
            edges: 0,
            runs: 0,
            bound: 0,
            tests: 0,
            cut_bound: 0,
            cut_tests: 0,
            cell_bound: 0,
            cells: 0,
        }
    }

    /// Both together.
    pub fn plus(self, more: ViewNumbers) -> ViewNumbers
        requires first { AreBelow (2 ^ 63) self }
        requires second { AreBelow (2 ^ 63) more }
        ensures { result ≡ plus self more }
    {
        ViewNumbers {
            edges: self.edges + more.edges,
            runs: self.runs + more.runs,
            bound: self.bound + more.bound,
            tests: self.tests + more.tests,
            cut_bound: self.cut_bound + more.cut_bound,
            cut_tests: self.cut_tests + more.cut_tests,
            cell_bound: self.cell_bound + more.cell_bound,
            cells: self.cells + more.cells,
        }
    }
}
