// How keys and values are written, each at the end of a text.
ghost use Rattle.std.specs.Prelude.{◌≡◌, ◌++◌, map, string_bytes, OnOk};
ghost use Rattle.job_writer.specs.Pairs.{key_line, in_quotes, escaped_char, escaped_title, behind_commas, in_brackets};

use dec_text::Name;
use exact_frac::OutOfMemory;

/// Writes a line of a key and its value.
pub(crate) fn push_line(text: &mut String, key: &str, value: &str) -> Result<(), OutOfMemory>
    ensures { OnOk result (string_bytes text.new ≡ string_bytes text.old ++ key_line (key.now, value.now)) }
{
    text.push_str(key)?;
    text.push_str(" = ")?;
    text.push_str(value)?;
    text.push_str("\n")?;
    Ok(())
}

/// Writes a text in quotes.
fn push_quoted(text: &mut String, content: &str) -> Result<(), OutOfMemory>
    ensures { OnOk result (string_bytes text.new ≡ string_bytes text.old ++ in_quotes content.now) }
{
    text.push_str("\"")?;
    text.push_str(content)?;
    text.push_str("\"")?;
    Ok(())
}

/// Writes a line of a key and a text that needs no escapes.
pub(crate) fn push_word(text: &mut String, key: &str, word: &str) -> Result<(), OutOfMemory>
    ensures { OnOk result (string_bytes text.new ≡ string_bytes text.old ++ key_line (key.now, in_quotes word.now)) }
{
    text.push_str(key)?;
    text.push_str(" = ")?;
    push_quoted(text, word)?;
    text.push_str("\n")?;
    Ok(())
}

/// Writes a character as it is between quotes.
fn push_char(text: &mut String, c: char) -> Result<(), OutOfMemory>
    ensures { OnOk result (string_bytes text.new ≡ string_bytes text.old ++ escaped_char c) }
{
    if c == '"' || c == '\\' {
        text.push('\\')?;
    }
    text.push(c)?;
    Ok(())
}

/// Writes a title as it is between quotes.
fn push_escaped(text: &mut String, title: &str) -> Result<(), OutOfMemory>
    ensures { OnOk result (string_bytes text.new ≡ string_bytes text.old ++ escaped_title title.now) }
{
    for c in title.chars() {
        push_char(text, c)?;
    }
    Ok(())
}

/// Writes a line of a key and a title.
pub(crate) fn push_title(text: &mut String, key: &str, title: &str) -> Result<(), OutOfMemory>
    ensures { OnOk result (string_bytes text.new ≡ string_bytes text.old ++ key_line (key.now, in_quotes (escaped_title title.now))) }
{
    text.push_str(key)?;
    text.push_str(" = \"")?;
    push_escaped(text, title)?;
    text.push_str("\"\n")?;
    Ok(())
}

/// Writes names in quotes, each behind a comma.
fn push_others(text: &mut String, names: &[Name]) -> Result<(), OutOfMemory>
    ensures { OnOk result (string_bytes text.new ≡ string_bytes text.old ++ behind_commas (map in_quotes names.now)) }
{
    for name in names {
        text.push_str(", ")?;
        push_quoted(text, name.as_str())?;
    }
    Ok(())
}

/// Writes a list of names.
fn push_list(text: &mut String, names: &[Name]) -> Result<(), OutOfMemory>
    ensures { OnOk result (string_bytes text.new ≡ string_bytes text.old ++ in_brackets (map in_quotes names.now)) }
{
    match names {
        [] => text.push_str("[]")?,
        [first, others @ ..] => {
            text.push_str("[")?;
            push_quoted(text, first.as_str())?;
            push_others(text, others)?;
            text.push_str("]")?;
        }
    }
    Ok(())
}

/// Writes a line of a key and a list of names that need no escapes.
pub(crate) fn push_names(text: &mut String, key: &str, names: &[Name]) -> Result<(), OutOfMemory>
    ensures { OnOk result (string_bytes text.new ≡ string_bytes text.old ++ key_line (key.now, in_brackets (map in_quotes names.now))) }
{
    text.push_str(key)?;
    text.push_str(" = ")?;
    push_list(text, names)?;
    text.push_str("\n")?;
    Ok(())
}
