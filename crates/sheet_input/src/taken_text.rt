// What the name of a part stands for.
ghost use Rattle.std.specs.Prelude.{◌≤◌, length};

use dec_text::Name;

/// What the name of a part stands for: the size of a sample, or the bytes of a file.
#[derive(Drop)]
pub(crate) enum PartText {
    Sample(Name),
    Bytes(PartBytes),
}

/// The bytes of a part's file.
#[derive(Drop)]
pub(crate) struct PartBytes {
    pub(crate) bytes: Vec<u8>,
    ghost short: { length bytes.items ≤ 16777216 },
}
