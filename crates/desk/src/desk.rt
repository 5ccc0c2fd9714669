// Where a run finds and leaves its files, and what it says.
ghost use Rattle.std.specs.Prelude.{◌≡◌, ◌≤◌, ◌<◌, ◌↔◌, ℕ, List, true, length, take, None, IfOk, IsOk, IsErr, IsErrOf};
ghost use Rattle.desk.specs.Files.{DeskState, OnlyReads, OnlyKeeps, OnlySays, OnlyWarns, Rose, IsFetched, Leaves, Appends};

use exact_frac::OutOfMemory;

/// The desk couldn't do it, and has counted that.
#[derive(Clone, Copy, Debug, PartialEq, Eq)]
pub struct Failed;

/// Why a desk didn't keep a file, or didn't say something.
#[derive(Clone, Copy, Debug, PartialEq, Eq)]
pub enum DeskFault {
    /// It couldn't, and has counted that.
    Failed,
    /// It found no memory, and nothing has changed.
    Memory(OutOfMemory),
}

/// Files under names, a place to say what a run made, and one to warn of what went wrong. Faults are counted, up to
/// `u64::MAX`, where a count stays.
pub trait Desk {
    /// Its files, what was said and warned, where it tells them, and its counts of faults.
    ghost state: { Self → DeskState };

    /// By a fetch of these bytes from a place of a file one desk may become another. A desk may say so what it gives and when;
    /// one that doesn't allows all.
    ghost fetches: { Self → List ℕ → ℕ → List ℕ → Self → Type 0 } = { λ old name at bytes new. Unit {0} };

    /// Takes bytes of a file from a place on to the front of `into`, and answers how many: 0 exactly at the end.
    fn fetch(&mut self, name: &str, at: u64, into: &mut [u8]) -> Result<usize, Failed>
        requires { 0 < length into.old }
        ensures within { IfOk result (λ n. n ≤ length into.old) }
        ensures took { (state self.old).tells ≡ true →
            IfOk result (λ n. IsFetched ((state self.old).files name.now) at n into.new) }
        ensures fetched { IfOk result (λ n. fetches self.old name.now at (take n into.new) self.new) }
        ensures changes { OnlyReads (state self.old) (state self.new) }

        // It fails only where it counts a fault of its own.
        ensures cause { IsErr result → Rose (state self.old).read_faults (state self.new).read_faults }
        ensures no_cause { IsOk result → (state self.new).read_faults ≡ (state self.old).read_faults }
        ensures never_falls { (state self.old).read_faults ≤ (state self.new).read_faults }
        ensures missing { (state self.old).steady ≡ true →
            (IsErr result ↔ ((state self.old).files name.now ≡ None)) };

    /// Puts bytes under a name, over what it held.
    fn keep(&mut self, name: &str, bytes: &[u8]) -> Result<(), DeskFault>
        ensures leaves { (state self.old).tells ≡ true →
            Leaves result (state self.old).files (state self.new).files name.now bytes.now }
        ensures changes { OnlyKeeps (state self.old) (state self.new) }

        // It fails only where it counts a fault of its own.
        ensures cause { IsErrOf result DeskFault.Failed → Rose (state self.old).write_faults (state self.new).write_faults }
        ensures no_cause { (IsErrOf result DeskFault.Failed → ⊥) →
            (state self.new).write_faults ≡ (state self.old).write_faults }
        ensures never_falls { (state self.old).write_faults ≤ (state self.new).write_faults }
        ensures steady { (state self.old).steady ≡ true → IsErrOf result DeskFault.Failed → ⊥ }
        ensures firm { (state self.old).firm ≡ true → (none : OutOfMemory) → IsErrOf result (DeskFault.Memory none) → ⊥ };

    /// Says what a run made: the bytes come to the end of what was said before.
    fn say(&mut self, bytes: &[u8]) -> Result<(), DeskFault>
        ensures appends { (state self.old).tells_said ≡ true →
            Appends result (state self.old).said (state self.new).said bytes.now }
        ensures changes { OnlySays (state self.old) (state self.new) }

        // It fails only where it counts a fault of its own.
        ensures cause { IsErrOf result DeskFault.Failed → Rose (state self.old).write_faults (state self.new).write_faults }
        ensures no_cause { (IsErrOf result DeskFault.Failed → ⊥) →
            (state self.new).write_faults ≡ (state self.old).write_faults }
        ensures never_falls { (state self.old).write_faults ≤ (state self.new).write_faults }
        ensures steady { (state self.old).steady ≡ true → IsErrOf result DeskFault.Failed → ⊥ }
        ensures firm { (state self.old).firm ≡ true → (none : OutOfMemory) → IsErrOf result (DeskFault.Memory none) → ⊥ };

    /// Warns of what went wrong: the bytes come to the end of what was warned before.
    fn warn(&mut self, bytes: &[u8]) -> Result<(), DeskFault>
        ensures appends { (state self.old).tells_warned ≡ true →
            Appends result (state self.old).warned (state self.new).warned bytes.now }
        ensures changes { OnlyWarns (state self.old) (state self.new) }

        // It fails only where it counts a fault of its own.
        ensures cause { IsErrOf result DeskFault.Failed → Rose (state self.old).warn_faults (state self.new).warn_faults }
        ensures no_cause { (IsErrOf result DeskFault.Failed → ⊥) →
            (state self.new).warn_faults ≡ (state self.old).warn_faults }
        ensures never_falls { (state self.old).warn_faults ≤ (state self.new).warn_faults }
        ensures steady { (state self.old).steady ≡ true → IsErrOf result DeskFault.Failed → ⊥ }
        ensures firm { (state self.old).firm ≡ true → (none : OutOfMemory) → IsErrOf result (DeskFault.Memory none) → ⊥ };

    /// A steady desk tells its files.
    ghost steady_tells: { (desk : Self) → (state desk).steady ≡ true → (state desk).tells ≡ true };
}
