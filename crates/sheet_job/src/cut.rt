// A cut of a job of version 3.
ghost use Rattle.std.specs.Prelude.{IsTrue};
ghost use Rattle.sheet_job.specs.WrittenValues.{is_length};

use job_text::TextPlace;
use lattice::Axis;

/// A plane across an axis, as it is written.
#[derive(Drop)]
pub struct SheetCut {
    pub axis: Axis,
    /// The number of the plane's place on the axis, in the job's unit.
    pub at: Vec<u8>,
    /// The viewer looks from the high side of the axis, or from the low one.
    pub from_high: bool,
    /// How many bytes of the text are before the number.
    pub value_at: usize,
    /// The number's place in the text.
    pub place: TextPlace,
    ghost readable: { IsTrue (is_length at.items) },
}
