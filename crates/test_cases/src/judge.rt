// Runs `pieces`, which warns of nothing, and warns of the line of a list that is refused, so that a case can tell it.
use desk::Desk;
use detail_view::{PiecesFault, pieces};
use std::alloc::Global;
use std::io;

// Runs by its words, and answers the status.
pub(crate) fn judge<D: Desk>(alloc: Global, words: &[String], desk: &mut D) -> io::Result<u8> {
    let outcome = pieces(alloc, words, desk);
    if let Some(PiecesFault::List(fault)) = outcome.fault {
        let line = format!(in alloc; "line {}\n", fault.line)?;
        let _unheard = desk.warn(line.as_bytes());
    }
    Ok(outcome.status)
}
