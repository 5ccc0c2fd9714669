// A desk that counts its fetches, and says so.
ghost use Rattle.std.specs.Prelude.{◌≡◌, ◌+◌, ◌^◌, ◌-◌, ◌<◌, min, length};

use desk::{Desk, DeskFault, Failed};

/// A desk, and how often it was asked to fetch.
pub struct Counted<D: Desk> {
    pub desk: D,
    pub count: u64,
}

impl<D: Desk> Desk for Counted<D> {
    ghost state = { λ c. D.state c.desk };

    ghost fetches = { λ old name at bytes new. D.fetches old.desk name at bytes new.desk × (new.count ≡ min (old.count + 1) (2 ^ 64 - 1)) };

    ghost steady_tells = { λ c h. D.steady_tells c.desk h };

    fn fetch(&mut self, name: &str, at: u64, into: &mut [u8]) -> Result<usize, Failed> {
        self.count = self.count.saturating_add(1);
        self.desk.fetch(name, at, into)
    }

    fn keep(&mut self, name: &str, bytes: &[u8]) -> Result<(), DeskFault> {
        self.desk.keep(name, bytes)
    }

    fn say(&mut self, bytes: &[u8]) -> Result<(), DeskFault> {
        self.desk.say(bytes)
    }

    fn warn(&mut self, bytes: &[u8]) -> Result<(), DeskFault> {
        self.desk.warn(bytes)
    }
}
