// How a run ends.
use drawing::Drawing;
use part_input::Fault;

/// How a run ended.
#[derive(Drop)]
pub struct Outcome {
    /// The program's status: 0 with no fault.
    pub status: u8,
    pub fault: Option<Fault>,
    /// Some with status 0 and 8, and perhaps with status 9, where the desk found no memory for a file or the summary.
    pub drawing: Option<Drawing>,
}
