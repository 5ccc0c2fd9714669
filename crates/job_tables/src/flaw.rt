// What is wrong with a job's tables, and where.
ghost use Rattle.std.specs.Prelude.{◌≡◌};
ghost use Rattle.job_tables.specs.declared.flaw.TableStop.TheVariants.{Memory};

use crate::table::TableKind;
use dec_text::Name;
use exact_frac::OutOfMemory;
use std::alloc::AllocFailed;

/// What an unknown key may have been meant to be.
#[derive(Clone, Copy, PartialEq, Eq, Debug)]
pub enum KeyHint {
    /// A key of another table.
    In(TableKind),
    /// A key of jobs of versions 1 and 2.
    Older,
    /// The header of a table.
    Header,
    /// This key of its table, which is spelt nearly so.
    Near(&'static str),
    /// It is like nothing that is known.
    Unlike,
}

/// What is wrong with a header or a key.
#[derive(Debug, Drop)]
pub enum TableFlaw {
    /// No table has this name; the name of a table that is spelt nearly so.
    UnknownTable(Name, Option<&'static str>),
    /// `[view]`
    SingleView,
    /// `[[block]]`
    DoubleBlock,
    /// Another `[block]`. TOML refuses a text that has two.
    SecondBlock,
    /// The thirteenth `[[view]]`.
    TooManyViews,
    /// No entry belongs to `[block]`.
    EmptyBlock,
    /// The table has no such key. If it is a view's, its number, counted from 0.
    UnknownKey(TableKind, Option<u32>, Name, KeyHint),
}

/// Why lines give no tables.
#[derive(Debug, Drop)]
pub enum TableStop {
    /// A flaw, and how many bytes of the text are before its place.
    At(TableFlaw, usize),
    /// Memory ran out.
    Memory(OutOfMemory),
}

impl From<OutOfMemory> for TableStop {
    ghost from_gives = { λ _ e. e ≡ Memory (record {}) };

    fn from(_: OutOfMemory) -> Self {
        TableStop::Memory(OutOfMemory)
    }
}

impl<T: Drop> From<AllocFailed<T>> for TableStop {
    ghost from_gives = { λ _ e. e ≡ Memory (record {}) };

    fn from(_: AllocFailed<T>) -> Self {
        TableStop::Memory(OutOfMemory)
    }
}
