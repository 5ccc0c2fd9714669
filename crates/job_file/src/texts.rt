// The title and the names of outputs.
ghost use Rattle.std.specs.Prelude.{◌≡◌, [], IsTrue, IfOk, codes, map, option_map, length};
ghost use Rattle.std.specs.List.{list_all, list_any};
ghost use Rattle.std.specs.Str.{bytes_eq};
ghost use Rattle.toml.specs.Data.{get_member};
ghost use Rattle.toml.specs.View.{view, table_view};
ghost use Rattle.job_file.specs.Documents.{title_of, texts_of, proper_outputs, outputs_of};
ghost use Rattle.job_file.specs.Steps.{or_wrong, value_or, GivesJob};
ghost use Rattle.job_file.specs.Texts.{is_title_char, is_title, is_output_byte, is_output, are_outputs};

use crate::fault::{JobError, JobFault, Key};
use crate::table::value_at;
use dec_text::Name;
use exact_frac::OutOfMemory;
use std::alloc::Global;
use toml::{Table, Value};

/// A title may have the character.
fn is_title_char(c: char) -> bool
    ensures { result ≡ is_title_char c }
{
    c >= ' ' && c != '\u{7f}' && c != '\u{fffe}' && c != '\u{ffff}'
}

/// The text is a title.
pub fn is_title(text: &str) -> bool
    ensures { result ≡ is_title text.now }
{
    if text.len() > 120 {
        return false;
    }
    for c in text.chars() {
        if !is_title_char(c) {
            return false;
        }
    }
    true
}

/// The job's title.
pub fn title(alloc: Global, table: &Table) -> Result<Name, JobError>
    ensures value { GivesJob (λ name. name) result (value_or (codes "") Key.Title title_of (get_member (codes "title") (table_view table.now))) }
    ensures proper { IfOk result (λ name. IsTrue (is_title name)) }
{
    match value_at(table, "title") {
        None => Ok(Name::new(alloc, "")?),
        Some(value) => match value.as_str() {
            Some(text) if is_title(text) => Ok(Name::new(alloc, text)?),
            _ => Err(JobError::Job(JobFault::Wrong(Key::Title))),
        },
    }
}

/// The name of an output may have the byte.
fn is_output_byte(byte: u8) -> bool
    ensures { result ≡ is_output_byte byte }
{
    byte.is_ascii_lowercase() || byte.is_ascii_digit()
}

/// All bytes are those of names of outputs.
fn are_output_bytes(bytes: &[u8]) -> bool
    ensures { result ≡ list_all is_output_byte bytes.now }
{
    for byte in bytes {
        if !is_output_byte(*byte) {
            return false;
        }
    }
    true
}

/// The text is the name of an output.
fn is_output(text: &str) -> bool
    ensures { result ≡ is_output text.now }
{
    !text.is_empty() && text.len() <= 16 && are_output_bytes(text.as_bytes()) && text != "svg"
}

/// The name is one of the others.
fn is_among(name: &Name, others: &[Name]) -> bool
    ensures { result ≡ list_any (bytes_eq name.now) others.now }
{
    for other in others {
        if name.as_str() == other.as_str() {
            return true;
        }
    }
    false
}

/// The names are those of outputs. Each is compared with those behind it, 28 pairs at most.
fn are_outputs(names: &[Name]) -> bool
    ensures { result ≡ are_outputs names.now }
{
    if names.len() > 8 {
        return false;
    }
    for i in 0..names.len() {
        if !is_output(names[i].as_str()) || is_among(&names[i], &names[i + 1..]) {
            return false;
        }
    }
    true
}

/// The texts of some values, if all are texts.
fn texts_of(alloc: Global, values: &[Value]) -> Result<Option<Vec<Name>>, OutOfMemory>
    ensures { IfOk result (λ texts. option_map (λ names. names.items) texts ≡ texts_of (map view values.now)) }
{
    let mut names = Vec::new(alloc);
    for value in values {
        match value.as_str() {
            Some(text) => names.push(Name::new(alloc, text)?)?,
            None => return Ok(None),
        }
    }
    Ok(Some(names))
}

/// The job's outputs.
pub fn outputs(alloc: Global, table: &Table) -> Result<Vec<Name>, JobError>
    ensures value { GivesJob (λ names. names.items) result (value_or [] Key.Outputs outputs_of (get_member (codes "outputs") (table_view table.now))) }
    ensures proper { IfOk result (λ names. IsTrue (are_outputs names.items)) }
{
    match value_at(table, "outputs") {
        None => Ok(Vec::new(alloc)),
        Some(value) => match value.as_array() {
            Some(values) => proper_outputs(alloc, values),
            None => Err(JobError::Job(JobFault::Wrong(Key::Outputs))),
        },
    }
}

/// The names of outputs that some values are.
fn proper_outputs(alloc: Global, values: &[Value]) -> Result<Vec<Name>, JobError>
    ensures value { GivesJob (λ names. names.items) result (or_wrong Key.Outputs (proper_outputs (map view values.now))) }
    ensures proper { IfOk result (λ names. IsTrue (are_outputs names.items)) }
{
    match texts_of(alloc, values)? {
        Some(names) if are_outputs(&names) => Ok(names),
        _ => Err(JobError::Job(JobFault::Wrong(Key::Outputs))),
    }
}
