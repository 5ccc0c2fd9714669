// Why there is no sample: it would have too few or too many cubes, or memory is wanting.
ghost use Rattle.std.specs.Prelude.{◌≡◌};
ghost use Rattle.sample_part.specs.declared.errors.SampleError.TheVariants.{Memory};

use exact_frac::OutOfMemory;

/// Why there is no sample.
#[derive(Clone, Copy, PartialEq, Eq, Debug)]
pub enum SampleError {
    /// The number of cubes along an axis is outside 1 to 8.
    SampleRange,
    Memory(OutOfMemory),
}

impl From<OutOfMemory> for SampleError {
    ghost from_gives = { λ _ e. e ≡ Memory (record {}) };

    fn from(_: OutOfMemory) -> Self {
        SampleError::Memory(OutOfMemory)
    }
}
