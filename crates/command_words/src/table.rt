// The table of a program's options.

/// An option: what it is for, and its name, without the two minus signs.
#[derive(Clone, Copy)]
pub enum WordOption<'a> {
    /// It takes a value: `--NAME VALUE` or `--NAME=VALUE`.
    Value(&'a str),
    /// It is there or not: `--NAME`.
    Flag(&'a str),
    /// It asks for help.
    Help(&'a str),
    /// It asks for the version.
    Version(&'a str),
}
