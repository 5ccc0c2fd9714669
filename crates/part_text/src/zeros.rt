// A zero byte, which no text has.
ghost use Rattle.std.specs.Prelude.{◌≡◌, ◌<◌, ◌≤◌, ◌==◌, length, position, option_map, IfSome};
ghost use Rattle.lex_lines.specs.Places.{line_at};

use lex_lines::Tokens;

/// The first zero byte.
fn zero_place(bytes: &[u8]) -> Option<usize>
    ensures place { result ≡ position (λ byte. byte == 0) bytes.now }
    ensures within { IfSome result (λ place. place < length bytes.now) }
{
    bytes.iter().position(|byte| *byte == 0)
}

/// The line of the first zero byte, from 1 on. It goes once over the text.
pub fn zero_line(bytes: &[u8]) -> Option<u32>
    requires { length bytes.now ≤ 16777216 }
    ensures { result ≡ option_map (line_at bytes.now) (position (λ byte. byte == 0) bytes.now) }
{
    match zero_place(bytes) {
        Some(place) => Some(Tokens::new(&bytes[..place], false).end_line()),
        None => None,
    }
}
