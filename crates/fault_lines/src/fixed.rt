// Lines that take no memory.
ghost use Rattle.std.specs.Prelude.{◌≡◌, ◌≤◌, length, codes};
ghost use Rattle.svg_page.specs.Texts.{◌⊕◌};
ghost use Rattle.fault_lines.specs.Told.{text_of};

use crate::line::Line;
use arrayvec::ArrayString;

/// The line of a program with this name that ends so.
pub(crate) fn fixed(program: &str, end: &str) -> Line
    requires name { length program.now ≤ 16 }
    requires end { length end.now ≤ 48 }
    ensures { text_of result ≡ program.now ⊕ end.now }
{
    let mut text = ArrayString::new();
    text.push_str(program);
    text.push_str(end);
    Line::Fixed(text)
}

/// The same with a text within it.
pub(crate) fn fixed_with(program: &str, before: &str, within: &str) -> Line
    requires name { length program.now ≤ 16 }
    requires before { length before.now ≤ 15 }
    requires within { length within.now ≤ 64 }
    ensures { text_of result ≡ program.now ⊕ before.now ⊕ within.now ⊕ codes "\n" }
{
    let mut text = ArrayString::new();
    text.push_str(program);
    text.push_str(before);
    text.push_str(within);
    text.push_str("\n");
    Line::Fixed(text)
}
