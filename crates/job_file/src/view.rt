// A view of a job.
ghost use Rattle.std.specs.Prelude.{◌≡◌, Some};
ghost use Rattle.std.specs.Option.{ForSome};
ghost use Rattle.job_file.specs.Names.{direction_of};
ghost use Rattle.job_file.specs.Views.{plain_direction};

use lattice::{Dir, ViewSpec};

/// One of the six views along an axis of the part.
#[derive(Clone, Copy, PartialEq, Eq, Debug)]
pub enum Principal {
    Front,
    Back,
    Left,
    Right,
    Above,
    Below,
}

/// A view of a job: of the whole part from a direction, which is that of its name if it has one, or of what a cut leaves.
#[derive(Clone, Copy)]
pub struct JobView {
    pub spec: ViewSpec,
    pub named: Option<Principal>,
    ghost directed: { ForSome named (λ p. plain_direction spec ≡ Some (direction_of p)) },
}

impl JobView {
    ghost use Rattle.lattice.specs.Points.{of_dir};
    ghost use Rattle.job_file.specs.Seen.{direction_seen};

    /// From where the part is seen.
    pub fn dir(&self) -> Dir
        ensures { of_dir result ≡ direction_seen self.now.spec }
    {
        match self.spec {
            ViewSpec::Plain(direction) => direction,
            ViewSpec::Section(cut) => cut.dir(),
        }
    }
}
