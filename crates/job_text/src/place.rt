// Places in a text, as editors count them.
ghost use Rattle.std.specs.Prelude.{◌≡◌, ◌+◌, ◌-◌, ◌<◌, ◌^◌, cond, length};
ghost use Rattle.job_text.specs.Places.{is_line_feed, begins_character, IsTextPlace};

/// A line and a column, both counted from 1; columns are counted by characters.
#[derive(Clone, Copy, PartialEq, Eq, Debug)]
pub struct TextPlace {
    pub line: u32,
    pub column: u32,
}

/// The byte begins a character of UTF-8.
fn begins_character(byte: u8) -> bool
    ensures { result ≡ begins_character byte }
{
    !(128 <= byte && byte < 192)
}

/// The place after one more byte.
fn past(place: TextPlace, byte: u8) -> TextPlace
    requires line { place.line + 1 < 2 ^ 32 }
    requires column { place.column + 1 < 2 ^ 32 }
    ensures line { result.line ≡ cond (is_line_feed byte) (place.line + 1) place.line }
    ensures column { result.column ≡ cond (is_line_feed byte) 1 (cond (begins_character byte) (place.column + 1) place.column) }
{
    if byte == b'\n' {
        return TextPlace {
            line: place.line + 1,
            column: 1,
        };
    }
    TextPlace {
        line: place.line,
        column: if begins_character(byte) {
            place.column + 1
        } else {
            place.column
        },
    }
}

/// The place after the first `at` bytes of a text, or after all if they are fewer. Call it once, for a fault: one pass over these
/// bytes.
pub fn text_place(text: &str, at: usize) -> TextPlace
    requires few { length text.now < 2 ^ 31 }
    ensures { IsTextPlace text.now at result }
{
    let mut place = TextPlace { line: 1, column: 1 };
    for byte in &text.as_bytes()[..at.min(text.len())] {
        place = past(place, *byte);
    }
    place
}

/// The place of a flaw, with so many bytes from there to the end.
pub fn flaw_place(text: &str, left: usize) -> TextPlace
    requires few { length text.now < 2 ^ 31 }
    ensures { IsTextPlace text.now (length text.now - left) result }
{
    text_place(text, text.len().saturating_sub(left))
}
