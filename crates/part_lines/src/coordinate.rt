// A coordinate that is too large.
ghost use Rattle.std.specs.Prelude.{◌≡◌, ◌≢◌, ◌<◌, ◌≤◌, ◌↔◌, true, false, IsTrue, drop, length, IfOk, IfSome, string_bytes};
ghost use Rattle.lex_lines.specs.Scan.{tokens_of};
ghost use Rattle.part_lines.specs.Hints.{IsTooLarge, IsInRange, IsLargeThere, IsFirstLarge, IsRoom, IsCoordinate, behind_off, coordinates_from, coordinates_in, cut, left_after};

use crate::counts::behind_head;
use crate::hint::PartHint;
use dec_text::{Length, Name, NumberFault, fixed};
use exact_frac::OutOfMemory;
use fault_lines::shown_bytes;
use lex_lines::{Token, Tokens};
use part_input::is_stl;
use part_text::{bytes_of, is_word};
use std::alloc::{AllocError, Global};

/// The word is a number that is out of range.
fn is_too_large(word: &[u8], decimals: u8, unit: Length) -> bool
    requires few { decimals ≤ 6 }
    requires short { length word.now ≤ 16777216 }
    ensures { IsTrue result ↔ IsTooLarge decimals unit word.now }
{
    match fixed(word, decimals, unit) {
        Err(NumberFault::TooLarge) => true,
        Err(NumberFault::NotANumber(_)) | Ok(_) => false,
    }
}

/// The word is a number that is in range.
fn is_in_range(word: &[u8], decimals: u8, unit: Length) -> bool
    requires few { decimals ≤ 6 }
    requires short { length word.now ≤ 16777216 }
    ensures { IsTrue result ↔ IsInRange decimals unit word.now }
{
    match fixed(word, decimals, unit) {
        Ok(_) => true,
        Err(_) => false,
    }
}

/// The token is on this line, and a number out of range.
fn is_large_there(text: &[u8], token: Token, line: u32, decimals: u8, unit: Length) -> bool
    requires few { decimals ≤ 6 }
    requires short { length text.now ≤ 16777216 }
    requires some { token.from < token.to }
    requires within { token.to ≤ length text.now }
    ensures { IsTrue result ↔ IsLargeThere decimals unit text.now line token }
{
    if token.line != line {
        return false;
    }
    is_too_large(bytes_of(text, token), decimals, unit)
}

/// How many coordinates of an STL come after a token, before which so many were to come.
fn left_after(text: &[u8], left: u8, token: Token) -> u8
    requires some { token.from < token.to }
    requires within { token.to ≤ length text.now }
    ensures { result ≡ left_after text.now left token }
{
    if left > 0 {
        return left - 1;
    }
    if is_word(bytes_of(text, token), b"vertex") {
        3
    } else {
        0
    }
}

/// The token is one of the coordinates that were to come, on this line, and a number out of range.
fn is_large_coordinate(
    text: &[u8],
    left: u8,
    token: Token,
    line: u32,
    decimals: u8,
    unit: Length,
) -> bool
    requires few { decimals ≤ 6 }
    requires short { length text.now ≤ 16777216 }
    requires some { token.from < token.to }
    requires within { token.to ≤ length text.now }
    ensures { IsTrue result ↔ ((left ≢ 0) × IsLargeThere decimals unit text.now line token) }
{
    if left == 0 {
        return false;
    }
    is_large_there(text, token, line, decimals, unit)
}

/// The first coordinate of an STL on this line that is out of range.
fn large_in_stl(text: &[u8], line: u32, decimals: u8, unit: Length) -> Option<Token>
    requires few { decimals ≤ 6 }
    requires short { length text.now ≤ 16777216 }
    ensures first { IsFirstLarge decimals unit text.now line (coordinates_from text.now 0 (tokens_of false text.now)) result }
    ensures some { IfSome result (λ t. t.from < t.to) }
    ensures within { IfSome result (λ t. t.to ≤ length text.now) }
{
    let mut tokens = Tokens::new(text, false);
    let mut left = 0;
    loop {
        let Some(token) = tokens.next() else {
            return None;
        };
        if is_large_coordinate(text, left, token, line, decimals, unit) {
            return Some(token);
        }
        left = left_after(text, left, token);
    }
}

/// The first coordinate of an OFF on this line that is out of range.
fn large_in_off(text: &[u8], line: u32, decimals: u8, unit: Length) -> Option<Token>
    requires few { decimals ≤ 6 }
    requires short { length text.now ≤ 16777216 }
    ensures first { IsFirstLarge decimals unit text.now line (drop 3 (behind_off text.now (tokens_of true text.now))) result }
    ensures some { IfSome result (λ t. t.from < t.to) }
    ensures within { IfSome result (λ t. t.to ≤ length text.now) }
{
    let mut tokens = behind_head(text);
    loop {
        let Some(token) = tokens.next() else {
            return None;
        };
        if is_large_there(text, token, line, decimals, unit) {
            return Some(token);
        }
    }
}

/// The first coordinate on this line that is out of range. The time goes with the text's length.
pub(crate) fn large_token(text: &[u8], line: u32, decimals: u8, unit: Length) -> Option<Token>
    requires few { decimals ≤ 6 }
    requires short { length text.now ≤ 16777216 }
    ensures first { IsFirstLarge decimals unit text.now line (coordinates_in text.now) result }
    ensures some { IfSome result (λ t. t.from < t.to) }
    ensures within { IfSome result (λ t. t.to ≤ length text.now) }
{
    if is_stl(text) {
        large_in_stl(text, line, decimals, unit)
    } else {
        large_in_off(text, line, decimals, unit)
    }
}

/// The greatest number of decimals below this one at which the number is in range. At most six are tried.
fn room(word: &[u8], decimals: u8, unit: Length) -> Option<u8>
    requires few { decimals ≤ 6 }
    requires short { length word.now ≤ 16777216 }
    ensures { IsRoom unit word.now decimals result }
{
    if decimals == 0 {
        return None;
    }
    let fewer = decimals - 1;
    if is_in_range(word, fewer, unit) {
        return Some(fewer);
    }
    room(word, fewer, unit)
}

/// At most 40 bytes of a word, as they are told.
fn cut(alloc: Global, word: &[u8]) -> Result<String, AllocError>
    ensures { IfOk result (λ text. string_bytes text ≡ cut word.now) }
{
    if word.len() <= 40 {
        return shown_bytes(alloc, word);
    }
    let mut text = shown_bytes(alloc, &word[..40])?;
    text.push_str("...")?;
    Ok(text)
}

/// What is said of a word that is a number out of range.
pub(crate) fn coordinate(
    alloc: Global,
    word: &[u8],
    decimals: u8,
    unit: Length,
) -> Result<PartHint, OutOfMemory>
    requires few { decimals ≤ 6 }
    requires short { length word.now ≤ 16777216 }
    ensures { IfOk result (IsCoordinate word.now decimals unit) }
{
    let text = cut(alloc, word)?;
    let name = Name::new(alloc, text.as_str())?;
    Ok(PartHint::Coordinate(name, decimals, room(word, decimals, unit)))
}
