//! Where a run finds and leaves its files, with counted faults.
#![tactic(auto)]

mod counts;
mod desk;
mod files;
mod memory;
mod room_desk;
mod rooms;

pub use desk::{Desk, DeskFault, Failed};
pub use memory::MemoryDesk;
pub use room_desk::RoomDesk;
