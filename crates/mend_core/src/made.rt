// What became of a part.
use solid_mesh::Solid;

/// How a part came to be sound.
#[derive(Clone, Copy, Debug, PartialEq, Eq)]
pub enum Report {
    /// It was already.
    Sound,
    /// It is so without so many pairs of triangles, and after so many flips, which moved no point by more than so many 1024ths of a unit.
    Mended { flips: u64, moved: u32, pairs: u32 },
}

/// A sound part, and how it came to be so.
#[derive(Debug, Drop)]
pub struct Mended {
    pub solid: Solid,
    pub report: Report,
}
