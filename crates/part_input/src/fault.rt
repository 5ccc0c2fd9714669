// Why a run refuses, and the status that it ends with.
ghost use Rattle.std.specs.Prelude.{◌≡◌};

use dec_text::Name;
use job_file::JobFault;
use solid_mesh::MeshFault;
use weld::PartFault;

/// What a run reads.
#[derive(Clone, Copy, Debug, PartialEq, Eq)]
pub enum Input {
    Job,
    Part,
}

/// What a run writes.
#[derive(Clone, Copy, Debug, PartialEq, Eq)]
pub enum Target {
    /// The drawing.
    Out,
    /// The text of the plotter for this output of the job, counted from 0.
    Plot(u32),
    /// The line that is said of the drawing.
    Summary,
}

/// Why a run refuses.
#[derive(Debug, Drop)]
pub enum Fault {
    Usage,
    ReadFault(Input),
    JobTooLong,
    Job(JobFault),
    /// No plotter has this suffix, the first such output of the job.
    NoPlotter(Name),
    /// What stands behind `sample:` isn't one of the digits 1 to 8.
    SampleRange,
    PartTooLong,
    Part(PartFault),
    /// The part has no triangle.
    Nothing,
    Mesh(MeshFault),
    /// The views need more room than the sheet has, in hundredths of a millimetre.
    DoesNotFit {
        need_w: i64,
        need_h: i64,
        have_w: i64,
        have_h: i64,
    },
    WriteFault(Target),
    Memory,
}

impl Fault {
    ghost use Rattle.std.specs.Prelude.{Some};
    ghost use Rattle.part_input.specs.Faults.{status_of};

    /// The program's status with this fault: 2 words, 3 job, 4 part, 5 mesh, 6 sheet, 7 reading, 8 writing, 9 memory.
    pub fn status(&self) -> u8
        ensures { result ≡ status_of (Some self.now) }
    {
        match self {
            Fault::Usage => 2,
            Fault::JobTooLong => 3,
            Fault::Job(_) => 3,
            Fault::NoPlotter(_) => 3,
            Fault::SampleRange => 3,
            Fault::PartTooLong => 4,
            Fault::Part(_) => 4,
            Fault::Nothing => 4,
            Fault::Mesh(_) => 5,
            Fault::DoesNotFit {
                need_w: _,
                need_h: _,
                have_w: _,
                have_h: _,
            } => 6,
            Fault::ReadFault(_) => 7,
            Fault::WriteFault(_) => 8,
            Fault::Memory => 9,
        }
    }

    /// The program's status at the end of a run: 0 without a fault.
    pub fn end_status(fault: &Option<Fault>) -> u8
        ensures { result ≡ status_of fault.now }
    {
        match fault {
            None => 0,
            Some(fault) => fault.status(),
        }
    }
}
