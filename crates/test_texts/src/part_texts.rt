// What is wrong with a part, and what helps, as a line says it.
use dec_text::Length;
use part_lines::{advice_text, part_hint, part_text};
use solid_mesh::MeshFault;
use std::alloc::Global;
use weld::{PartFault, PartKind, Want};

/// The fault on this line of a part's text, read with these decimals in this unit, has this text.
fn is_said(
    alloc: Global,
    bytes: &[u8],
    fault: PartFault,
    decimals: u8,
    unit: Length,
    text: &str,
) -> bool {
    if decimals > 6 || bytes.len() > 16_777_216 {
        return false;
    }
    let hint = match part_hint(alloc, bytes, &fault, decimals, unit) {
        Ok(hint) => hint,
        Err(_) => return false,
    };
    match part_text(alloc, &fault, &hint) {
        Ok(found) => found.as_str() == text,
        Err(_) => false,
    }
}

/// So it is of a fault of millimetres with three decimals.
fn has_text(alloc: Global, bytes: &[u8], line: u32, kind: PartKind, text: &str) -> bool {
    is_said(
        alloc,
        bytes,
        PartFault { line, kind },
        3,
        Length::Millimetre,
        text,
    )
}

/// So it is of a number that is too large, on the second line.
fn is_large(alloc: Global, bytes: &[u8], decimals: u8, unit: Length, text: &str) -> bool {
    let fault = PartFault {
        line: 2,
        kind: PartKind::TooLarge,
    };
    is_said(alloc, bytes, fault, decimals, unit, text)
}

#[test]
fn texts_of_other_forms(rt: HostRuntime) {
    let alloc = rt.alloc();
    let neither =
        "line 1: neither OFF nor ASCII STL: examples/scripts/part.py makes a part of STEP, IGES and 3MF";
    assert!(rt;
        has_text(
            alloc,
            b"ISO-10303-21;\nHEADER;",
            1,
            PartKind::BadNumber,
            neither
        )
    );
    assert!(rt; has_text(alloc, b"PK\x03\x04\x00", 1, PartKind::Binary, neither));
    let binary = "line 1: binary: admesh -a part-ascii.stl part.stl writes a binary STL as text";
    assert!(rt; has_text(alloc, b"solid x\x00", 1, PartKind::Binary, binary));
    assert!(rt; has_text(alloc, b"Part\x00", 1, PartKind::Binary, binary));
    assert!(rt; has_text(alloc, b"OFF BINARY", 1, PartKind::Binary, "line 1: binary"));
    let prefixed = "line 1: prefixed OFF: examples/scripts/part.py writes it as plain OFF";
    assert!(rt; has_text(alloc, b"COFF 8", 1, PartKind::Prefixed, prefixed));
}

#[test]
fn texts_of_damaged_parts(rt: HostRuntime) {
    let alloc = rt.alloc();
    let bad = "line 2: bad number";
    assert!(rt; has_text(alloc, b"# off\nOff 8 x", 2, PartKind::BadNumber, bad));
    assert!(rt; has_text(alloc, b"8\nx", 2, PartKind::BadNumber, bad));
    assert!(rt; has_text(alloc, b"Solid\nfacet x", 2, PartKind::BadNumber, bad));
    let missing = "line 1: missing count";
    assert!(rt; has_text(alloc, b"ISO", 1, PartKind::Missing(Want::Count), missing));
}

#[test]
fn texts_of_large_parts(rt: HostRuntime) {
    let alloc = rt.alloc();
    let many = PartKind::TooMany;
    let vertices = "line 2: more than 60000 vertices: its head says 60001; export a coarser mesh";
    assert!(rt; has_text(alloc, b"# 4\nOFF 60001 20001 0", 2, many, vertices));
    let faces =
        "line 1: more than 20000 triangles: its head says 20001 faces; export a coarser mesh";
    assert!(rt; has_text(alloc, b"60000 20001 0", 1, many, faces));
    let corners = "line 3: more than 20000 triangles; export a coarser mesh";
    assert!(rt; has_text(alloc, b"OFF 60000 20000 0", 3, many, corners));
    let facets = "line 2: more than 20000 triangles: it has 2; export a coarser mesh";
    assert!(rt; has_text(alloc, b"solid #\nfacet Facet endfacet", 2, many, facets));
}

#[test]
fn texts_of_large_numbers(rt: HostRuntime) {
    let alloc = rt.alloc();
    let mm = Length::Millimetre;
    let one =
        "line 2: -12345.678 is too large: at most 1048.576 mm with 3 decimals; 1 decimal would do";
    assert!(rt; is_large(alloc, b"OFF 8 6 9e9\n0 -12345.678 9e9", 3, mm, one));
    let inches =
        "line 2: 42 is too large: at most 1048.576 mm with 3 decimals; 2 decimals would do";
    assert!(rt; is_large(alloc, b"solid\nvertex 41 42 0", 3, Length::Inch, inches));
    let none =
        "line 2: 9e9 is too large: at most 1048576 mm with 0 decimals; no number of decimals would do: move the part to the origin";
    assert!(rt; is_large(alloc, b"OFF 8 6 0\n9e9", 0, mm, none));
    let long =
        "line 2: 1111111111111111111111111111111111111111... is too large: at most 1.048576 mm with 6 decimals; no number of decimals would do: move the part to the origin";
    assert!(rt;
        is_large(
            alloc,
            b"OFF 8 6 0\n11111111111111111111111111111111111111111",
            6,
            mm,
            long
        )
    );
}

#[test]
fn advice_of_surfaces(rt: HostRuntime) {
    let more = ": try more decimals, then mend (docs/from-cad.md)";
    assert!(rt; advice_text(&MeshFault::Flat(1), true) == more);
    assert!(rt; advice_text(&MeshFault::Meet(1, 2), false) == ": try mend (docs/from-cad.md)");
    let open = ": docs/from-cad.md says how it is mended";
    assert!(rt; advice_text(&MeshFault::Unpaired(1, 2), true) == open);
}
