// What is wrong with a line.
ghost use Rattle.std.specs.Prelude.{◌≡◌};
ghost use Rattle.flaw_lines.specs.FlawTexts.{line_flaw_text};

use job_text::Flaw;

/// What is wrong with a line.
pub(crate) fn line_flaw_text(flaw: Flaw) -> &'static str
    ensures { result.now ≡ line_flaw_text flaw }
{
    match flaw {
        Flaw::NoKey => "no key: a line is key = value, [block] or [[view]]",
        Flaw::QuotedKey => "key in quotes: leave the quotes out",
        Flaw::DottedKey => "dotted key: each key is one word",
        Flaw::NoEquals => "no = after the key",
        Flaw::NoBracket => "no closing bracket: a header is [block] or [[view]]",
        Flaw::NoValue => "no value: it is a text in quotes, true, false, a number or a list",
        Flaw::BadWord => "not a value: a text needs quotes, and a number is written as 22.5 or -3",
        Flaw::BrokenText => {
            "broken text: close its quote on this line, write \\\\ for \\, and leave control characters out"
        }
        Flaw::LongText => "text in triple quotes: write it on one line in single or double quotes",
        Flaw::InlineTable => "inline table: write [block] or [[view]], and a line for each key",
        Flaw::BareDate => "date or time without quotes: write it in quotes",
        Flaw::NoNumber => "wrong number: it may have digits, a sign and a point only",
        Flaw::InnerList => "list inside a list: no key has such a value",
        Flaw::BrokenList => "no comma or ] in the list: a list is on one line, as [1, -1, 1]",
        Flaw::More => "more text on the line: only a comment may follow",
        Flaw::Unprintable => "byte order mark or control character: leave it out",
    }
}
