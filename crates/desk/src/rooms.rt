// Bytes in a room of a fixed size.
ghost use Rattle.std.specs.Prelude.{◌≡◌, ◌-◌, ◌<◌, ◌≤◌, ◌↔◌, ◌++◌, [], length, IfOk, IsTrue, if◌then◌else◌};
ghost use Rattle.desk.specs.Rooms.{bytes_in, size_of};

use exact_frac::OutOfMemory;
use std::alloc::Global;

/// Room for so many bytes, and how many of them are used. Once it is made no call takes memory.
#[derive(Drop)]
pub(crate) struct Room {
    bytes: Vec<u8>,
    used: usize,
}

impl Room {
    /// An empty room of this size.
    pub(crate) fn new(alloc: Global, size: u64) -> Result<Room, OutOfMemory>
        ensures empty { IfOk result (λ room. bytes_in room ≡ []) }
        ensures size { IfOk result (λ room. size_of room ≡ size) }
    {
        let bytes = vec![in alloc; 0u8; size as usize]?;
        Ok(Room { bytes, used: 0 })
    }

    /// Whether it has room for so many bytes in all.
    pub(crate) fn fits(&self, count: usize) -> bool
        ensures { IsTrue result ↔ count ≤ size_of self.now }
    {
        count <= self.bytes.len()
    }

    /// Puts bytes over what it held.
    pub(crate) fn put(&mut self, bytes: &[u8])
        requires { length bytes.now ≤ size_of self.old }
        ensures bytes { bytes_in self.new ≡ bytes.now }
        ensures size { size_of self.new ≡ size_of self.old }
    {
        self.used = 0;
        let _fits = self.append(bytes);
    }

    /// Appends bytes, unless they are more than the room that is left.
    pub(crate) fn append(&mut self, bytes: &[u8]) -> bool
        ensures fits { IsTrue result ↔ length bytes.now ≤ size_of self.old - length (bytes_in self.old) }
        ensures bytes { bytes_in self.new ≡ (if result then bytes_in self.old ++ bytes.now else bytes_in self.old) }
        ensures size { size_of self.new ≡ size_of self.old }
    {
        let used = self.used.min(self.bytes.len());
        if bytes.len() > self.bytes.len() - used {
            return false;
        }
        let end = used + bytes.len();
        self.bytes[used..end].copy_from_slice(bytes);
        self.used = end;
        true
    }

    /// The bytes that it holds.
    pub(crate) fn as_slice(&self) -> &[u8]
        ensures { result.now ≡ bytes_in self.now }
    {
        &self.bytes[..self.used.min(self.bytes.len())]
    }
}
