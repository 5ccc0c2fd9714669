// Flips and pairs worked out by hand.
ghost use Rattle.std.specs.Prelude.{◌≤◌, ◌^◌, unsigned_abs};

use crate::{flip_slivers, without_pairs};
use lattice::{Corner, Tri};
use std::test::Fail;

/// A corner of a level part.
fn corner(x: i32, y: i32) -> Corner
    requires x { unsigned_abs x ≤ 2 ^ 20 }
    requires y { unsigned_abs y ≤ 2 ^ 20 }
{
    Corner { x, y, z: 0 }
}

/// The sliver 0 1 4, 1 unit high on the side from 0 to 1, below the triangle 1 0 3; and on the sliver's side from 1 to 4 another one,
/// 4 1 5, whose height is 75 / sqrt(2501) units, 1536 1024ths rounded up.
const CHAIN: [Tri; 3] = [
    Tri { a: 0, b: 1, c: 4 },
    Tri { a: 1, b: 0, c: 3 },
    Tri { a: 4, b: 1, c: 5 },
];

fn chain_corners() -> [Corner; 6] {
    [
        corner(0, 0),
        corner(100, 0),
        corner(100, 100),
        corner(0, 100),
        corner(50, 1),
        corner(75, -1),
    ]
}

// Both slivers turn onto corner 3, and the second carries the bound of the first.
#[test]
fn flips_a_chain(rt: HostRuntime) -> Result<(), Fail> {
    let flipped = flip_slivers(rt.alloc(), &chain_corners(), &CHAIN, 4)?;
    let expected = [
        Tri { a: 0, b: 3, c: 4 },
        Tri { a: 3, b: 1, c: 5 },
        Tri { a: 4, b: 3, c: 5 },
    ];
    assert_eq!(rt; flipped.flips, 2);
    assert_eq!(rt; flipped.moved, 2560);
    assert_eq!(rt; flipped.triangles.as_slice(), expected.as_slice());
    Ok(())
}

// Within 2 units the second isn't turned.
#[test]
fn stays_within_the_limit(rt: HostRuntime) -> Result<(), Fail> {
    let flipped = flip_slivers(rt.alloc(), &chain_corners(), &CHAIN, 2)?;
    assert_eq!(rt; flipped.flips, 1);
    assert_eq!(rt; flipped.moved, 1024);
    Ok(())
}

// The first and the fourth lie on each other; the second, on the same corners as the first, turned the same way, is left.
#[test]
fn drops_a_pair(rt: HostRuntime) -> Result<(), Fail> {
    let triangles = [
        Tri { a: 0, b: 1, c: 2 },
        Tri { a: 1, b: 2, c: 0 },
        Tri { a: 0, b: 1, c: 3 },
        Tri { a: 1, b: 0, c: 2 },
    ];
    let left = without_pairs(rt.alloc(), &triangles, 4)?;
    assert_eq!(rt; left.as_slice(), [triangles[1], triangles[2]].as_slice());
    Ok(())
}
