// A desk in memory with a room for each file that may be kept, which always finds memory.
ghost use Rattle.std.specs.Prelude.{◌≡◌, ◌-◌, ◌<◌, ◌≤◌, ◌↔◌, ◌++◌, [], true, min, length, take, drop, map, option_map, slice_get, None, Some, IfOk, IfSome, IfNone, OnOk, OnErr, IsErr, IsErrOf, IsSomeAnd, refl};
ghost use Rattle.std.specs.List.{All};
ghost use Rattle.desk.specs.Files.{Leaves, file_at, named_at};
ghost use Rattle.desk.specs.RoomDesk.{HasNoRoom, rooms_of, kept_or, with_read_fault, with_write_fault, with_warn_fault, LeavesState, IsEither, told};
ghost use Rattle.desk.specs.Rooms.{size_of};
ghost use Rattle.desk.specs.inner.Places.{IsPlaceOf};
ghost use Rattle.desk.specs.inner.Slots.{IsUnkept};

use crate::counts::FaultCounts;
use crate::files::{copy_from, find, place_of};
use crate::rooms::Room;
use crate::{Desk, DeskFault, Failed};
use dec_text::Name;
use exact_frac::OutOfMemory;
use std::alloc::Global;

/// Files in memory; a room for each that may be kept, for what is said and for what is warned. No call but `new` takes memory.
#[derive(Drop)]
pub struct RoomDesk {
    files: Vec<(Name, Vec<u8>)>,
    slots: Vec<(Name, Slot)>,
    said: Room,
    warned: Room,
    faults: FaultCounts,
}

// The room of a file that may be kept, and whether it was.
#[derive(Drop)]
struct Slot {
    room: Room,
    kept: bool,
}

// A slot for each of these names and rooms, none of them kept.
fn slots_of(alloc: Global, rooms: Vec<(Name, u64)>) -> Result<Vec<(Name, Slot)>, OutOfMemory>
    ensures rooms { IfOk result (λ slots. map (λ slot. (slot.0, size_of slot.1.room)) slots.items ≡ rooms.items) }
    ensures none_kept { IfOk result (λ slots. All IsUnkept slots.items) }
{
    let mut slots = Vec::new(alloc);
    for (name, size) in rooms {
        let room = Room::new(alloc, size)?;
        slots.push((name, Slot { room, kept: false }))?;
    }
    Ok(slots)
}

impl Slot {
    // Keeps bytes for which there is room.
    fn keep(&mut self, bytes: &[u8])
        requires { length bytes.now ≤ size_of self.old.room }
        ensures kept { kept_or None (Some self.new) ≡ Some bytes.now }
        ensures size { size_of self.new.room ≡ size_of self.old.room }
    {
        self.room.put(bytes);
        self.kept = true;
    }
}

// The place of the slot with this name, if it has room for so many bytes.
fn place_with_room(slots: &[(Name, Slot)], name: &str, count: usize) -> Option<usize>
    ensures found { IfSome result (IsPlaceOf slots.now name.now) }
    ensures room { IfSome result (λ i. IfSome (slice_get slots.now i) (λ slot. count ≤ size_of slot.1.room)) }
    ensures none { IfNone result (HasNoRoom (rooms_of slots.now name.now) count) }
{
    match place_of(slots, name) {
        Some(i) => {
            if slots[i].1.room.fits(count) {
                Some(i)
            } else {
                None
            }
        }
        None => None,
    }
}

impl RoomDesk {
    ghost use Rattle.desk.specs.RoomDesk.{state_of};

    /// A desk with these files, a slot with its room in bytes for each name that may be kept, and rooms for what is said and for
    /// what is warned. Of equal names the first counts; a slot that was kept counts before a file.
    pub fn new(
        alloc: Global,
        files: Vec<(Name, Vec<u8>)>,
        slots: Vec<(Name, u64)>,
        said: u64,
        warned: u64,
    ) -> Result<RoomDesk, OutOfMemory>
        ensures { IfOk result (λ desk. state_of desk ≡ record {
          files = file_at files.items;
          rooms = named_at slots.items;
          said = [];
          said_room = said;
          warned = [];
          warned_room = warned;
          read_faults = 0;
          write_faults = 0;
          warn_faults = 0;
        }) }
    {
        let slots = slots_of(alloc, slots)?;
        let said = Room::new(alloc, said)?;
        let warned = Room::new(alloc, warned)?;
        Ok(RoomDesk {
            files,
            slots,
            said,
            warned,
            faults: FaultCounts::none(),
        })
    }

    /// The bytes of a file. Those of a slot are there once it was kept.
    pub fn file(&self, name: &str) -> Option<&[u8]>
        ensures { option_map (λ bytes. bytes.now) result ≡ (state_of self.now).files name.now }
    {
        if let Some(slot) = find(&self.slots, name) {
            if slot.kept {
                return Some(slot.room.as_slice());
            }
        }
        match find(&self.files, name) {
            Some(bytes) => Some(bytes.as_slice()),
            None => None,
        }
    }

    /// What was said.
    pub fn said_bytes(&self) -> &[u8]
        ensures { result.now ≡ (state_of self.now).said }
    {
        self.said.as_slice()
    }

    /// What was warned.
    pub fn warned_bytes(&self) -> &[u8]
        ensures { result.now ≡ (state_of self.now).warned }
    {
        self.warned.as_slice()
    }
}

impl Desk for RoomDesk {
    ghost use Rattle.desk.specs.RoomDesk.{state_of};

    ghost state = { λ desk. told (state_of desk) };

    ghost steady_tells = { λ desk h. refl };

    /// Takes as many bytes as `into` holds or the file still has. Fails exactly where there is no such file.
    fn fetch(&mut self, name: &str, at: u64, into: &mut [u8]) -> Result<usize, Failed>
        requires { 0 < length into.old }
        ensures fails { IsErr result ↔ ((state_of self.old).files name.now ≡ None) }
        ensures taken { IfOk result (λ n. IsSomeAnd ((state_of self.old).files name.now) (λ bytes.
            (n ≡ min (length into.old) (length bytes - at)) × (take n into.new ≡ take n (drop at bytes)))) }
        ensures ok { OnOk result (state_of self.new ≡ state_of self.old) }
        ensures err { OnErr result (state_of self.new ≡ with_read_fault (state_of self.old)) }

        // Above the range of its type the equation alone would let the count fall.
        ensures never_falls { (state_of self.old).read_faults ≤ (state_of self.new).read_faults }
    {
        match self.file(name) {
            Some(bytes) => Ok(copy_from(bytes, at, into)),
            None => Err(self.faults.count_read()),
        }
    }

    /// Fails exactly where the name has no slot, or the bytes are more than its room. Then no file changes.
    fn keep(&mut self, name: &str, bytes: &[u8]) -> Result<(), DeskFault>
        ensures fails { IsErrOf result DeskFault.Failed ↔ HasNoRoom ((state_of self.old).rooms name.now) (length bytes.now) }
        ensures leaves { LeavesState result (state_of self.old) (state_of self.new) name.now bytes.now }
        ensures holds { Leaves result (state_of self.old).files (state_of self.new).files name.now bytes.now }

        // Above the range of its type the equation alone would let the count fall.
        ensures never_falls { (state_of self.old).write_faults ≤ (state_of self.new).write_faults }
    {
        match place_with_room(&self.slots, name, bytes.len()) {
            Some(i) => {
                self.slots[i].1.keep(bytes);
                Ok(())
            }
            None => Err(self.faults.count_write()),
        }
    }

    /// Fails exactly where the bytes are more than the room that is left. Then nothing is said.
    fn say(&mut self, bytes: &[u8]) -> Result<(), DeskFault>
        ensures fails { let s = state_of self.old in
            IsErrOf result DeskFault.Failed ↔ s.said_room - length s.said < length bytes.now }
        ensures leaves { let s = state_of self.old in
            IsEither result (state_of self.new) (record s { said = s.said ++ bytes.now }) (with_write_fault s) }

        // Above the range of its type the equation alone would let the count fall.
        ensures never_falls { (state_of self.old).write_faults ≤ (state_of self.new).write_faults }
    {
        if !self.said.append(bytes) {
            return Err(self.faults.count_write());
        }
        Ok(())
    }

    /// Fails exactly where the bytes are more than the room that is left. Then nothing is warned.
    fn warn(&mut self, bytes: &[u8]) -> Result<(), DeskFault>
        ensures fails { let s = state_of self.old in
            IsErrOf result DeskFault.Failed ↔ s.warned_room - length s.warned < length bytes.now }
        ensures leaves { let s = state_of self.old in
            IsEither result (state_of self.new) (record s { warned = s.warned ++ bytes.now }) (with_warn_fault s) }

        // Above the range of its type the equation alone would let the count fall.
        ensures never_falls { (state_of self.old).warn_faults ≤ (state_of self.new).warn_faults }
    {
        if !self.warned.append(bytes) {
            return Err(self.faults.count_warn());
        }
        Ok(())
    }
}
