// One cube of a sample: where it stands, and its corners.
ghost use Rattle.std.specs.Prelude.{◌≡◌, ◌<◌, ◌≤◌, ◌^◌, ◌+◌, ◌*◌, pos, map, unsigned_abs};
ghost use Rattle.lattice.specs.Points.{of_corner};

use lattice::Corner;

/// A cube, by how many cubes stand before it along each axis.
#[derive(Clone, Copy)]
pub(crate) struct Cube {
    pub i: u32,
    pub j: u32,
    pub h: u32,
    ghost few_along_x: { i < 8 },
    ghost few_along_y: { j < 8 },
    ghost few_along_z: { h < 8 },
}

impl Cube {
    ghost use Rattle.sample_part.specs.Boxes.{corner_of, cube_corners};
    ghost use Rattle.sample_part.specs.inner.Cubes.{place_of, cube_at};

    /// The cube of this number, where there are `n` along each axis: `h` grows first, then `j`, then `i`.
    pub(crate) fn numbered(n: u32, number: u32) -> Cube
        requires least { 0 < n }
        requires greatest { n ≤ 8 }
        requires within { number < n * n * n }
        ensures { place_of result ≡ cube_at n number }
    {
        Cube {
            i: number / (n * n),
            j: number / n % n,
            h: number % n,
        }
    }

    /// Its corners, in the order in which its triangles use them first.
    pub(crate) fn corners(&self) -> [Corner; 8]
        ensures { map of_corner result ≡ cube_corners (place_of self.now) }
    {
        [
            self.corner(0, 0, 0),
            self.corner(0, 1, 0),
            self.corner(1, 1, 0),
            self.corner(1, 0, 0),
            self.corner(0, 0, 1),
            self.corner(1, 0, 1),
            self.corner(1, 1, 1),
            self.corner(0, 1, 1),
        ]
    }

    /// The corner that is so many sides of the cube from its least corner, along each axis.
    fn corner(&self, x: u32, y: u32, z: u32) -> Corner
        requires x { x ≤ 1 }
        requires y { y ≤ 1 }
        requires z { z ≤ 1 }
        ensures { of_corner result ≡ corner_of (place_of self.now) x y z }
    {
        Corner {
            x: coordinate(self.i, x),
            y: coordinate(self.j, y),
            z: coordinate(self.h, z),
        }
    }
}

/// The coordinate, in units, of what is `steps` sides from the least corner of a cube with `before` cubes before it.
fn coordinate(before: u32, steps: u32) -> i32
    requires before { before < 8 }
    requires steps { steps ≤ 1 }
    ensures value { result ≡ pos (20000 * before + 10000 * steps) }
    ensures size { unsigned_abs result ≤ 2 ^ 20 }
{
    (20_000 * before + 10_000 * steps) as i32
}
