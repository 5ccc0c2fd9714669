// The triangles of one cube of a sample.
ghost use Rattle.std.specs.Prelude.{◌≡◌, ◌<◌, ◌+◌};
ghost use Rattle.sample_part.specs.Boxes.{cube_triangles};

use lattice::Tri;

/// The triangles of the cube of this number, with eight corners for each cube before it: two of each face.
pub(crate) fn triangles(number: u32) -> [Tri; 12]
    requires { number < 512 }
    ensures { result ≡ cube_triangles number }
{
    let first = 8 * number;
    [
        triangle(first, 0, 1, 2),
        triangle(first, 0, 2, 3),
        triangle(first, 4, 5, 6),
        triangle(first, 4, 6, 7),
        triangle(first, 0, 3, 5),
        triangle(first, 0, 5, 4),
        triangle(first, 3, 2, 6),
        triangle(first, 3, 6, 5),
        triangle(first, 2, 1, 7),
        triangle(first, 2, 7, 6),
        triangle(first, 1, 0, 4),
        triangle(first, 1, 4, 7),
    ]
}

/// The triangle of three corners of a cube whose first corner has the number `first`.
fn triangle(first: u32, a: u32, b: u32, c: u32) -> Tri
    requires first { first < 4096 }
    requires a { a < 8 }
    requires b { b < 8 }
    requires c { c < 8 }
    ensures { result ≡ record { a = first + a; b = first + b; c = first + c } }
{
    Tri {
        a: first + a,
        b: first + b,
        c: first + c,
    }
}
