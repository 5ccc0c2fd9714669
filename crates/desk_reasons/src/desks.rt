// Desks that know why their last call failed.
ghost use Rattle.std.specs.Prelude.{◌≡◌, Option, None};

use crate::reason::Reason;
use desk::{Desk, MemoryDesk, RoomDesk};

/// A desk that knows why its last call failed.
pub trait Reasons: Desk {
    ghost use Rattle.desk_reasons.specs.declared.reason.Reason.{Reason};

    /// Why the last call that failed did, if the desk knows.
    ghost reason: { Self → Option Reason };

    /// Why the last call that failed did, if the desk knows. Asked before any other call, it is why that call failed.
    fn last_reason(&self) -> Option<Reason>
        ensures { result ≡ reason self.now };
}

/// It is no system's, and knows of none.
impl Reasons for MemoryDesk {
    ghost reason = { λ desk. None };

    fn last_reason(&self) -> Option<Reason> {
        None
    }
}

/// It is no system's, and knows of none.
impl Reasons for RoomDesk {
    ghost reason = { λ desk. None };

    fn last_reason(&self) -> Option<Reason> {
        None
    }
}
