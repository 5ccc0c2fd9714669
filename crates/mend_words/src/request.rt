// What words can ask for.
ghost use Rattle.std.specs.Prelude.{◌≤◌};

use dec_text::Name;

/// Where a mended part goes.
#[derive(Debug, Drop)]
pub enum Out {
    /// It is said, as OFF.
    Said,
    /// Into the file of this name.
    File(Name),
}

/// Which part is mended, where it goes, with how many decimals it is read, and how far its surface may move, in units.
#[derive(Debug, Drop)]
pub struct MendRequest {
    pub part: Name,
    pub out: Out,
    /// At most 6.
    pub decimals: u8,
    /// At most 100.
    pub limit: u32,
    ghost few_decimals: { decimals ≤ 6 },
    ghost low_limit: { limit ≤ 100 },
}

/// What words ask for.
#[derive(Debug, Drop)]
pub enum Asked {
    Help,
    Version,
    Mend(MendRequest),
}
