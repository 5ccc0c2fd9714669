//! The top call: from the words and a desk to a drawing.
#![tactic(auto)]

mod answers;
mod keep;
mod lines;
mod made;
mod outcome;
mod outputs;
mod pages;
mod planned;
mod run;
mod summary;
mod take;

pub use answers::runs_have_answers;
pub use drawing::{CellMeter, Drawing, Meter, ViewDrawing};
pub use edge_pick::Picked;
pub use lines::MEMORY_LINE;
pub use outcome::Outcome;
pub use part_input::{Fault, Input, Target};
pub use planned::drawing_of;
pub use put_texts::warn;
pub use run::draw;
pub use span_count::{CountSpan, EdgeSpans, bound};
