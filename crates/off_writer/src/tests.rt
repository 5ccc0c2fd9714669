// A part as it is written: lines worked by hand.
use crate::off_text;
use lattice::{Corner, Tri};
use std::test::Fail;

#[test]
fn with_three_decimals(rt: HostRuntime) -> Result<(), Fail> {
    let corners = [
        Corner {
            x: 12345,
            y: -5,
            z: 0,
        },
        Corner {
            x: -1048576,
            y: 1000,
            z: 999,
        },
        Corner {
            x: 1,
            y: 20,
            z: -300,
        },
    ];
    let triangles = [Tri { a: 2, b: 0, c: 1 }];
    let text = off_text(rt.alloc(), 3, &corners, &triangles)?;
    let lines =
        "OFF\n3 1 0\n12.345 -0.005 0.000\n-1048.576 1.000 0.999\n0.001 0.020 -0.300\n3 2 0 1\n";
    assert!(rt; text.as_slice() == lines.as_bytes());
    Ok(())
}

#[test]
fn with_none_and_with_six(rt: HostRuntime) -> Result<(), Fail> {
    let corners = [Corner { x: 12, y: -7, z: 0 }];
    let whole = off_text(rt.alloc(), 0, &corners, &[])?;
    assert!(rt; whole.as_slice() == "OFF\n1 0 0\n12 -7 0\n".as_bytes());
    let parted = off_text(rt.alloc(), 6, &corners, &[])?;
    assert!(rt; parted.as_slice() == "OFF\n1 0 0\n0.000012 -0.000007 0.000000\n".as_bytes());
    Ok(())
}
