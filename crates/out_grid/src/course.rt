// The cells that an edge passes, column by column, from its end of lesser U to the other.
ghost use Rattle.std.specs.Prelude.{◌≡◌, ◌⊎◌, ◌<◌, ◌≤◌, ◌^◌, ◌*◌, ◌+◌, ◌-◌};
ghost use Rattle.out_grid.specs.inner.Courses.{first_column, last_column, rise_at, step_of, span_of, apart, IsEnterRow, IsLeaveRow, AreInOrder, AreRows};

/// An edge as it is seen: its two ends by their distances from the left and the lower border of the view, and the size of a cell.
#[derive(Clone, Copy)]
pub(crate) struct Course {
    pub(crate) from_u: u64,
    pub(crate) from_v: u64,
    pub(crate) to_u: u64,
    pub(crate) to_v: u64,
    pub(crate) width: u64,
    pub(crate) height: u64,
    ghost ordered: { from_u ≤ to_u },
    ghost from_u_small: { from_u < 2 ^ 31 },
    ghost from_v_small: { from_v < 2 ^ 31 },
    ghost to_u_small: { to_u < 2 ^ 31 },
    ghost to_v_small: { to_v < 2 ^ 31 },
    ghost wide: { 0 < width },
    ghost high: { 0 < height },
    ghost width_small: { width ≤ 2 ^ 30 },
    ghost height_small: { height ≤ 2 ^ 30 },
}

/// The lowest and the highest row of a column.
#[derive(Clone, Copy)]
pub(crate) struct Rows {
    pub(crate) low: u64,
    pub(crate) high: u64,
    ghost in_order: { low ≤ high },
}

impl Course {
    ghost use Rattle.out_grid.specs.inner.Places.{course_of};

    /// The column of its first end.
    pub(crate) fn first_column(&self) -> u64
        ensures { result ≡ first_column (course_of self.now) }
    {
        self.from_u / self.width
    }

    /// The column of its second end.
    pub(crate) fn last_column(&self) -> u64
        ensures { result ≡ last_column (course_of self.now) }
    {
        self.to_u / self.width
    }

    /// The rows in which it has a point, of those in a column of its own.
    pub(crate) fn rows_in(&self, column: u64) -> Rows
        requires first { first_column (course_of self.now) ≤ column }
        requires last { column ≤ last_column (course_of self.now) }
        ensures { AreRows (course_of self.now) column result.low result.high }
    {
        in_order(self.enter_row(column), self.leave_row(column))
    }

    /// The row in which it comes into a column.
    fn enter_row(&self, column: u64) -> u64
        requires first { first_column (course_of self.now) ≤ column }
        requires last { column ≤ last_column (course_of self.now) }
        ensures { IsEnterRow (course_of self.now) column result }
    {
        if column == self.first_column() {
            self.from_v / self.height
        } else {
            self.rise_at(column) / self.step()
        }
    }

    /// The last row before it leaves a column. Where V rises, a border of rows that is met on the column's right border is not reached.
    fn leave_row(&self, column: u64) -> u64
        requires first { first_column (course_of self.now) ≤ column }
        requires last { column ≤ last_column (course_of self.now) }
        ensures { IsLeaveRow (course_of self.now) column result }
    {
        if column == self.last_column() {
            self.to_v / self.height
        } else if self.from_v < self.to_v {
            (self.rise_at(column + 1) - 1) / self.step()
        } else {
            self.rise_at(column + 1) / self.step()
        }
    }

    /// V where it comes into a column, times the difference of U.
    fn rise_at(&self, column: u64) -> u64
        requires first { first_column (course_of self.now) < column }
        requires last { column ≤ last_column (course_of self.now) }
        ensures value { result ≡ rise_at (course_of self.now) column }
        ensures positive { self.now.from_v < self.now.to_v → 0 < result }
    {
        let border = column * self.width;
        (self.to_u - border) * self.from_v + (border - self.from_u) * self.to_v
    }

    /// A row's height, times the difference of U.
    fn step(&self) -> u64
        requires { first_column (course_of self.now) < last_column (course_of self.now) }
        ensures value { result ≡ step_of (course_of self.now) }
        ensures some { 0 < result }
    {
        (self.to_u - self.from_u) * self.height
    }

    /// One less than its columns and its rows together: at most so many cells are passed.
    pub(crate) fn span(&self) -> u64
        ensures value { result ≡ span_of (course_of self.now) }
        ensures size { result < 2 ^ 33 }
    {
        self.last_column() - self.first_column()
            + (self.from_v / self.height).abs_diff(self.to_v / self.height)
            + 1
    }
}

/// The lesser of two rows, and the greater.
fn in_order(a: u64, b: u64) -> Rows
    ensures { AreInOrder a b result.low result.high }
{
    if a <= b {
        Rows { low: a, high: b }
    } else {
        Rows { low: b, high: a }
    }
}
