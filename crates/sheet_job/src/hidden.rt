// In which views hidden lines are drawn.

/// In which views hidden lines are drawn, if a view doesn't say.
#[derive(Clone, Copy, PartialEq, Eq, Debug)]
pub enum Hidden {
    /// In all.
    All,
    /// In plain views, and not in cut ones.
    Plain,
    /// In none.
    Never,
}
