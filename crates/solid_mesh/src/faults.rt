// Why a part is refused.
ghost use Rattle.std.specs.Prelude.{◌≡◌};
ghost use Rattle.solid_mesh.specs.declared.faults.MeshError.TheVariants.{Memory};

use exact_frac::OutOfMemory;
use std::alloc::{AllocError, AllocFailed};
use thiserror::Error;

/// What is wrong with a part. Triangles and edges are numbered from 0.
#[derive(Clone, Copy, PartialEq, Eq, Debug, Error)]
pub enum MeshFault {
    /// This triangle is flat: its corners are in one line.
    #[error("triangle {0} is flat")]
    Flat(u32),
    /// The second triangle has a directed side that the first one has too.
    #[error("triangles {0} and {1} have the same directed side")]
    SameWay(u32, u32),
    /// No triangle is on the other side of this triangle's side 0, 1 or 2.
    #[error("no triangle is on the other side of triangle {0}'s side {1}")]
    Unpaired(u32, u32),
    /// The second triangle has the same three corners as the first.
    #[error("triangles {0} and {1} have the same three corners")]
    Double(u32, u32),
    /// This edge meets this triangle in another point than a corner that both have.
    #[error("edge {0} meets triangle {1}")]
    Meet(u32, u32),
}

/// Why a part makes no solid.
#[derive(Clone, Copy, PartialEq, Eq, Debug, Error)]
pub enum MeshError {
    #[error(transparent)]
    Mesh(MeshFault),
    #[error("out of memory")]
    Memory(OutOfMemory),
}

impl From<AllocError> for MeshError {
    ghost from_gives = { λ _ e. e ≡ Memory (record {}) };

    fn from(_: AllocError) -> Self {
        MeshError::Memory(OutOfMemory)
    }
}

impl<T: Drop> From<AllocFailed<T>> for MeshError {
    ghost from_gives = { λ _ e. e ≡ Memory (record {}) };

    fn from(_: AllocFailed<T>) -> Self {
        MeshError::Memory(OutOfMemory)
    }
}
