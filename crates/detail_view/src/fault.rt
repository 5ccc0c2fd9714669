// Why a run of `pieces` refuses, and how it ends.
ghost use Rattle.std.specs.Prelude.{◌≡◌};

use lattice::Piece;
use part_input::Fault;
use piece_verify::{ListFault, Verdict};

/// Why a run refuses.
#[derive(Debug, Drop)]
pub enum PiecesFault {
    Usage,
    /// What the job or the part was refused for. It is never want of memory.
    Input(Fault),
    /// The job has no view with this number.
    NoView(u32),
    ReadList,
    ListTooLong,
    List(ListFault),
    WriteFault,
    Memory,
}

impl PiecesFault {
    ghost use Rattle.detail_view.specs.Faults.{fault_status};

    /// The program's status with this fault: 2 words, 3 job, view or sample, 4 part, 5 mesh, 6 list, 7 reading, 8 writing, 9 memory.
    pub fn status(&self) -> u8
        ensures { result ≡ fault_status self.now }
    {
        match self {
            PiecesFault::Usage => 2,
            PiecesFault::Input(fault) => fault.status(),
            PiecesFault::NoView(_) => 3,
            PiecesFault::ListTooLong => 6,
            PiecesFault::List(_) => 6,
            PiecesFault::ReadList => 7,
            PiecesFault::WriteFault => 8,
            PiecesFault::Memory => 9,
        }
    }
}

/// How a run ended.
#[derive(Drop)]
pub struct PiecesOutcome {
    /// The program's status: 0 with no fault and no verdict against the list, 1 with one.
    pub status: u8,
    pub fault: Option<PiecesFault>,
    /// Some for `check` with status 0 and 1.
    pub verdict: Option<Verdict>,
    /// Some for `detail` with status 0 and 8.
    pub detail: Option<Vec<Piece>>,
}
