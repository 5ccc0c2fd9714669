// A desk in memory, which fails the calls that it is told to fail.
ghost use Rattle.std.specs.Prelude.{◌≡◌, ◌-◌, ◌<◌, ◌≤◌, ◌⊎◌, ◌↔◌, ◌++◌, refl, [], min, length, take, drop, option_map, Contains, None, Some, IsTrue, IfOk, OnOk, OnErr, IsErr, IsErrOf, IsSomeAnd};
ghost use Rattle.desk.specs.Files.{Keeps, Leaves, file_at};
ghost use Rattle.desk.specs.Memory.{called, with_read_fault, with_write_fault, with_warn_fault, with_said, with_warned, torn_text, with_torn_said, with_torn_warned, LeavesState, IsOneOf, told};
ghost use Rattle.desk.specs.inner.Torn.{TearsState};

use crate::counts::FaultCounts;
use crate::files::{copy_from, find, front, place_of};
use crate::{Desk, DeskFault, Failed};
use dec_text::Name;
use exact_frac::OutOfMemory;
use std::alloc::Global;

/// Files in memory, and what was said and warned. The calls are numbered from 0. `fetch` and `keep` look through the
/// files in their order.
#[derive(Drop)]
pub struct MemoryDesk {
    alloc: Global,
    files: Vec<(Name, Vec<u8>)>,
    failing: Vec<u64>,
    left: Option<u64>,
    calls: u64,
    said: Vec<u8>,
    warned: Vec<u8>,
    faults: FaultCounts,
}

// Puts bytes under a name, over what it held.
fn put(
    alloc: Global,
    files: &mut Vec<(Name, Vec<u8>)>,
    name: &str,
    bytes: &[u8],
) -> Result<(), OutOfMemory>
    ensures ok { OnOk result (Keeps (file_at files.old.items) (file_at files.new.items) name.now bytes.now) }
    ensures err { OnErr result (files.new.items ≡ files.old.items) }
{
    let bytes = Vec::from_slice(alloc, bytes)?;
    match place_of(files, name) {
        Some(i) => files[i].1 = bytes,
        None => files.push((Name::new(alloc, name)?, bytes))?,
    }
    Ok(())
}

// The list has this number.
fn is_listed(numbers: &[u64], number: u64) -> bool
    ensures { IsTrue result ↔ Contains numbers.now number }
{
    numbers.contains(&number)
}

impl MemoryDesk {
    ghost use Rattle.desk.specs.MemoryDesk.{state_of};

    /// A desk with these files that fails the calls with these numbers. A failed call changes nothing but the
    /// counts. Of files of one name the first counts.
    pub fn new(alloc: Global, files: Vec<(Name, Vec<u8>)>, fail: Vec<u64>) -> MemoryDesk
        ensures { state_of result ≡ record {
          files = file_at files.items;
          failing = fail.items;
          left = None;
          calls = 0;
          said = [];
          warned = [];
          read_faults = 0;
          write_faults = 0;
          warn_faults = 0;
        } }
    {
        MemoryDesk {
            alloc,
            files,
            failing: fail,
            left: None,
            calls: 0,
            said: Vec::new(alloc),
            warned: Vec::new(alloc),
            faults: FaultCounts::none(),
        }
    }

    /// As `new`, but a failed `keep` leaves under its name the first `left` bytes, and a failed `say` or `warn` appends as many.
    /// Where the leaving finds no memory, the call answers that.
    pub fn torn(alloc: Global, files: Vec<(Name, Vec<u8>)>, fail: Vec<u64>, left: u64) -> MemoryDesk
        ensures { state_of result ≡ record {
          files = file_at files.items;
          failing = fail.items;
          left = Some left;
          calls = 0;
          said = [];
          warned = [];
          read_faults = 0;
          write_faults = 0;
          warn_faults = 0;
        } }
    {
        MemoryDesk {
            alloc,
            files,
            failing: fail,
            left: Some(left),
            calls: 0,
            said: Vec::new(alloc),
            warned: Vec::new(alloc),
            faults: FaultCounts::none(),
        }
    }

    /// The files, those that were given first. Of files of one name the first counts.
    pub fn files(&self) -> &[(Name, Vec<u8>)]
        ensures { file_at result.now ≡ (state_of self.now).files }
    {
        &self.files
    }

    /// The bytes of a file.
    pub fn file(&self, name: &str) -> Option<&[u8]>
        ensures { option_map (λ bytes. bytes.now) result ≡ (state_of self.now).files name.now }
    {
        match find(&self.files, name) {
            Some(bytes) => Some(bytes.as_slice()),
            None => None,
        }
    }

    /// What was said.
    pub fn said_bytes(&self) -> &[u8]
        ensures { result.now ≡ (state_of self.now).said }
    {
        &self.said
    }

    /// What was warned.
    pub fn warned_bytes(&self) -> &[u8]
        ensures { result.now ≡ (state_of self.now).warned }
    {
        &self.warned
    }

    // Counts a call, and tells whether it is to fail.
    fn count_call(&mut self) -> bool
        ensures fails { IsTrue result ↔ Contains (state_of self.old).failing (state_of self.old).calls }
        ensures counted { state_of self.new ≡ called (state_of self.old) }
    {
        let call = self.calls;
        self.calls = call.saturating_add(1);
        is_listed(&self.failing, call)
    }

    // Leaves of a file what a failed call leaves.
    fn tear_file(&mut self, name: &str, bytes: &[u8]) -> Result<(), OutOfMemory>
        ensures ok { OnOk result (TearsState (state_of self.old) (state_of self.new) name.now bytes.now) }
        ensures err { OnErr result (state_of self.new ≡ state_of self.old) }
        ensures firm { (state_of self.old).left ≡ None → IsErr result → ⊥ }
    {
        match self.left {
            Some(left) => put(self.alloc, &mut self.files, name, front(bytes, left)),
            None => Ok(()),
        }
    }
}

// Appends bytes.
fn append(out: &mut Vec<u8>, bytes: &[u8]) -> Result<(), DeskFault>
    ensures ok { OnOk result (out.new.items ≡ out.old.items ++ bytes.now) }
    ensures err { OnErr result (out.new.items ≡ out.old.items) }
    ensures memory { IsErrOf result DeskFault.Failed → ⊥ }
{
    match out.extend_from_slice(bytes) {
        Ok(()) => Ok(()),
        Err(_) => Err(DeskFault::Memory(OutOfMemory)),
    }
}

// Appends what a failed call leaves of bytes.
fn tear(out: &mut Vec<u8>, left: Option<u64>, bytes: &[u8]) -> Result<(), DeskFault>
    ensures ok { OnOk result (out.new.items ≡ torn_text left out.old.items bytes.now) }
    ensures err { OnErr result (out.new.items ≡ out.old.items) }
    ensures memory { IsErrOf result DeskFault.Failed → ⊥ }
    ensures firm { left ≡ None → IsErr result → ⊥ }
{
    match left {
        Some(left) => append(out, front(bytes, left)),
        None => Ok(()),
    }
}

impl Desk for MemoryDesk {
    ghost use Rattle.desk.specs.MemoryDesk.{state_of};

    ghost state = { λ desk. told (state_of desk) };

    ghost steady_tells = { λ desk h. refl };

    /// Takes as many bytes as `into` holds or the file still has.
    fn fetch(&mut self, name: &str, at: u64, into: &mut [u8]) -> Result<usize, Failed>
        requires { 0 < length into.old }
        ensures fails { let s = state_of self.old in
            IsErr result ↔ (Contains s.failing s.calls ⊎ (s.files name.now ≡ None)) }
        ensures taken { IfOk result (λ n. IsSomeAnd ((state_of self.old).files name.now) (λ bytes.
            (n ≡ min (length into.old) (length bytes - at)) × (take n into.new ≡ take n (drop at bytes)))) }
        ensures ok { OnOk result (state_of self.new ≡ called (state_of self.old)) }
        ensures err { OnErr result (state_of self.new ≡ with_read_fault (called (state_of self.old))) }

        // Above the range of its type the equation alone would let the count fall.
        ensures never_falls { (state_of self.old).read_faults ≤ (state_of self.new).read_faults }
    {
        if self.count_call() {
            return Err(self.faults.count_read());
        }
        match self.file(name) {
            Some(bytes) => Ok(copy_from(bytes, at, into)),
            None => Err(self.faults.count_read()),
        }
    }

    /// Fails exactly where it is told to, unless there is no memory for what it is to leave. Want of memory changes no file.
    #[tactic(auto, using(crate::proofs::Torn::tears))]
    fn keep(&mut self, name: &str, bytes: &[u8]) -> Result<(), DeskFault>
        ensures fails { let s = state_of self.old in IsErrOf result DeskFault.Failed → Contains s.failing s.calls }
        ensures listed { let s = state_of self.old in Contains s.failing s.calls → IsErr result }
        ensures exact { let s = state_of self.old in s.left ≡ None → Contains s.failing s.calls → IsErrOf result DeskFault.Failed }
        ensures leaves { LeavesState result (state_of self.old) (state_of self.new) name.now bytes.now }
        ensures holds { Leaves result (state_of self.old).files (state_of self.new).files name.now bytes.now }

        // Above the range of its type the equation alone would let the count fall.
        ensures never_falls { (state_of self.old).write_faults ≤ (state_of self.new).write_faults }
    {
        if self.count_call() {
            return match self.tear_file(name, bytes) {
                Ok(()) => Err(self.faults.count_write()),
                Err(none) => Err(DeskFault::Memory(none)),
            };
        }
        match put(self.alloc, &mut self.files, name, bytes) {
            Ok(()) => Ok(()),
            Err(none) => Err(DeskFault::Memory(none)),
        }
    }

    /// Fails exactly where it is told to, unless there is no memory for what it is to leave.
    fn say(&mut self, bytes: &[u8]) -> Result<(), DeskFault>
        ensures fails { let s = state_of self.old in IsErrOf result DeskFault.Failed → Contains s.failing s.calls }
        ensures listed { let s = state_of self.old in Contains s.failing s.calls → IsErr result }
        ensures exact { let s = state_of self.old in s.left ≡ None → Contains s.failing s.calls → IsErrOf result DeskFault.Failed }
        ensures leaves { let s = called (state_of self.old) in
            IsOneOf result (state_of self.new) (with_said (s.said ++ bytes.now) s) (with_write_fault (with_torn_said bytes.now s)) s }

        // Above the range of its type the equation alone would let the count fall.
        ensures never_falls { (state_of self.old).write_faults ≤ (state_of self.new).write_faults }
    {
        if self.count_call() {
            return match tear(&mut self.said, self.left, bytes) {
                Ok(()) => Err(self.faults.count_write()),
                Err(fault) => Err(fault),
            };
        }
        append(&mut self.said, bytes)
    }

    /// Fails exactly where it is told to, unless there is no memory for what it is to leave.
    fn warn(&mut self, bytes: &[u8]) -> Result<(), DeskFault>
        ensures fails { let s = state_of self.old in IsErrOf result DeskFault.Failed → Contains s.failing s.calls }
        ensures listed { let s = state_of self.old in Contains s.failing s.calls → IsErr result }
        ensures exact { let s = state_of self.old in s.left ≡ None → Contains s.failing s.calls → IsErrOf result DeskFault.Failed }
        ensures leaves { let s = called (state_of self.old) in
            IsOneOf result (state_of self.new) (with_warned (s.warned ++ bytes.now) s) (with_warn_fault (with_torn_warned bytes.now s)) s }

        // Above the range of its type the equation alone would let the count fall.
        ensures never_falls { (state_of self.old).warn_faults ≤ (state_of self.new).warn_faults }
    {
        if self.count_call() {
            return match tear(&mut self.warned, self.left, bytes) {
                Ok(()) => Err(self.faults.count_warn()),
                Err(fault) => Err(fault),
            };
        }
        append(&mut self.warned, bytes)
    }
}
