// The names of axes.
ghost use Rattle.std.specs.Prelude.{◌≡◌, Some};
ghost use Rattle.job_file.specs.CutKeys.{axes};
ghost use Rattle.job_file.specs.Steps.{look_up};
ghost use Rattle.cut_marks.specs.AxisNames.{axis_name};

use lattice::Axis;

/// The name of an axis, as a job calls it.
pub fn axis_name(axis: Axis) -> &'static str
    ensures text { result.now ≡ axis_name axis }
    ensures in_a_job { look_up axes result.now ≡ Some axis }
{
    match axis {
        Axis::X => "x",
        Axis::Y => "y",
        Axis::Z => "z",
    }
}
