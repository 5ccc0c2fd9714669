// The traces of cuts on the sheet, and ways there.
ghost use Rattle.std.specs.Prelude.{◌<◌, ◌^◌, unsigned_abs};

/// A way on the sheet.
#[derive(Clone, Copy)]
pub(crate) enum Way {
    Right,
    Left,
    Down,
    Up,
}

/// The trace of a cut on the sheet: its letter, the way in which the cut's viewer looks, and the x of a trace that runs upright,
/// the y of one that runs level.
#[derive(Clone, Copy)]
pub(crate) struct Trace {
    pub letter: u8,
    pub way: Way,
    pub at: i64,
    ghost in_range: { unsigned_abs at < 2 ^ 61 },
}

/// Where the ends of a mark stand: near the view, or farther out.
#[derive(Clone, Copy)]
pub(crate) enum Lane {
    Inner,
    Middle,
    Outer,
}

/// A trace with a mark of its own: in which lane that is, and the letter of another trace that stands beside its own.
#[derive(Clone, Copy)]
pub(crate) struct Laned {
    pub trace: Trace,
    pub lane: Lane,
    pub beside: Option<u8>,
}
