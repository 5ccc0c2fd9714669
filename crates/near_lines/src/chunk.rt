// A chunk of sides with its box.
ghost use Rattle.std.specs.Prelude.{◌≡◌, All, IfOk};
ghost use Rattle.near_lines.specs.Scales.{extent_of};
ghost use Rattle.near_lines.specs.Sides.{IsSmall};

use crate::extent::{Extent, extent_of};
use crate::sides::Side;
use exact_frac::OutOfMemory;
use std::alloc::Global;

/// Some sides, and the box around them.
#[derive(Drop)]
pub(crate) struct Chunk {
    pub extent: Extent,
    pub sides: Vec<Side>,
    ghost around: { extent ≡ extent_of sides.items },
    ghost small: { All IsSmall sides.items },
}

/// A chunk of these sides.
pub(crate) fn chunk_of(alloc: Global, sides: &[Side]) -> Result<Chunk, OutOfMemory>
    requires small { All IsSmall sides.now }
    ensures { IfOk result (λ chunk. chunk.sides.items ≡ sides.now) }
{
    let mut own = Vec::new(alloc);
    own.extend_from_slice(sides)?;
    Ok(Chunk {
        extent: extent_of(sides),
        sides: own,
    })
}
