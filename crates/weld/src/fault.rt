// Why a text is no part.
ghost use Rattle.std.specs.Prelude.{◌≡◌};
ghost use Rattle.weld.specs.declared.fault.PartError.TheVariants.{Memory};

use exact_frac::OutOfMemory;
use std::alloc::{AllocError, AllocFailed};
use thiserror::Error;

/// A keyword of ASCII STL.
#[derive(Clone, Copy, PartialEq, Eq, Debug)]
pub enum Word {
    Solid,
    Facet,
    Normal,
    Outer,
    Loop,
    Vertex,
    Endloop,
    Endfacet,
}

/// What a text lacks.
#[derive(Clone, Copy, PartialEq, Eq, Debug)]
pub enum Want {
    Count,
    Coordinate,
    FaceSize,
    Index,
    Normal,
    Keyword(Word),
}

/// What is wrong with a text.
#[derive(Clone, Copy, PartialEq, Eq, Debug)]
pub enum PartKind {
    /// It isn't plain text.
    Binary,
    /// It has a form of OFF with more than three coordinates, or with colours or normals at the vertices.
    Prefixed,
    /// It ends too early.
    Missing(Want),
    /// No number stands where one is wanted.
    BadNumber,
    /// A coordinate is over 1,048,576 units in size.
    TooLarge,
    /// There is no vertex with this number.
    BadIndex(u64),
    /// A face has fewer than 3 corners, or more than 64.
    FaceSize(u64),
    /// There are more than 60,000 vertices or 20,000 triangles.
    TooMany,
    /// Something follows the last face.
    Trailing,
    /// No corner of this face sees all of it.
    FaceUnseen(u32),
    /// Another word stands where this one is wanted.
    Expected(Word),
}

/// What is wrong with a text, and the line, from 1 on.
#[derive(Clone, Copy, PartialEq, Eq, Debug)]
pub struct PartFault {
    pub line: u32,
    pub kind: PartKind,
}

/// Why a text gives no part.
#[derive(Clone, Copy, PartialEq, Eq, Debug, Error)]
pub enum PartError {
    #[error("line {}: this is no part", .0.line)]
    Part(PartFault),
    #[error("there is not enough memory")]
    Memory(OutOfMemory),
}

impl From<AllocError> for PartError {
    ghost from_gives = { λ _ e. e ≡ Memory (record {}) };

    fn from(_: AllocError) -> Self {
        PartError::Memory(OutOfMemory)
    }
}

impl<T: Drop> From<AllocFailed<T>> for PartError {
    ghost from_gives = { λ _ e. e ≡ Memory (record {}) };

    fn from(_: AllocFailed<T>) -> Self {
        PartError::Memory(OutOfMemory)
    }
}
