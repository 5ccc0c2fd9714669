// Widths of texts, and texts in their places, as worked out from Adobe's metrics.
use crate::{Room, fit_text, text_width};
use std::alloc::Global;

const TWENTY: &str = "WWWWWWWWWWWWWWWWWWWW";

/// The text comes to this size and this text in a place so wide, in letters of 3.5 mm down to 1.8 mm.
fn is_fitted(alloc: Global, text: &str, width: u32, size: u32, shown: &str) -> bool {
    let room = Room {
        width,
        most: 350,
        least: 180,
    };
    match fit_text(alloc, text, room) {
        Ok(fitted) => fitted.size == size && fitted.text.as_str() == shown,
        Err(_) => false,
    }
}

#[test]
fn widths(rt: HostRuntime) {
    assert_eq!(rt; text_width(""), 0);
    assert_eq!(rt; text_width("Bracket"), 3390);
    assert_eq!(rt; text_width("WW@~ ÿ\u{a0}"), 4543);
    assert_eq!(rt; text_width("€\u{7f}\n\u{9f}"), 4000);
}

#[test]
fn places(rt: HostRuntime) {
    let alloc = rt.alloc();
    assert!(rt; is_fitted(alloc, "", 6200, 350, ""));
    assert!(rt; is_fitted(alloc, "Bracket", 6200, 350, "Bracket"));
    assert!(rt; is_fitted(alloc, TWENTY, 6200, 328, TWENTY));
    assert!(rt; is_fitted(alloc, TWENTY, 1500, 180, "WWWWWWW..."));
    assert!(rt; is_fitted(alloc, "ЖéЖéЖéЖéЖéЖéЖé", 1900, 180, "ЖéЖéЖéЖéЖéЖé..."));
    assert!(rt; is_fitted(alloc, "Wi", 210, 180, "Wi"));
    assert!(rt; is_fitted(alloc, "Wi", 209, 180, "..."));
    assert!(rt; is_fitted(alloc, "Wi", 100, 180, ""));
}

#[test]
fn a_least_over_the_most(rt: HostRuntime) {
    let room = Room {
        width: 700,
        most: 350,
        least: 400,
    };
    assert!(rt;
        fit_text(rt.alloc(), "WWW", room).is_ok_and(|fitted| fitted.size == 350
            && fitted.text.as_str() == "W...")
    );
}
