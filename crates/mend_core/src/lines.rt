// What the program tells of itself, and the lines that it tells faults by.

/// What `--help` says.
pub const HELP: &str = "mend PART [--out OUT] [--decimals K] [--limit N]\n\n\
    Mends a part that is refused because of slivers: nearly flat triangles, as\n\
    oblique holes leave them, that turned over or cross their neighbours once\n\
    corners are whole units. Nothing is written that isn't sound.\n\n\
    PART       the part: a file in OFF or ASCII STL, in millimetres, or\n\
    \x20          sample:N, N from 1 to 8\n\
    --out      where it goes, as OFF: a name, or - for the standard output;\n\
    \x20          without it mended.off\n\
    --decimals with how many decimals of a millimetre corners are read and\n\
    \x20          written, 0 to 6; a unit is one in the last; without it 3\n\
    --limit    how many units points may move at most, 0 to 100; without it 4\n\
    --help     this text\n\
    --version  the version\n";

/// What `--version` says.
pub const VERSION: &str = "mend 0.1.0\n";

/// What is told of words that are refused.
pub(crate) const USAGE: &str = "mend PART [--out OUT] [--decimals K] [--limit N]";

/// The line of words that are refused.
pub(crate) const USAGE_LINE: &str =
    "mend: usage: mend PART [--out OUT] [--decimals K] [--limit N]\n";

/// The line of want of memory.
pub const MEMORY_LINE: &str = "mend: out of memory\n";

/// The line of a summary that couldn't be said.
pub(crate) const SUMMARY_LINE: &str = "mend: cannot write the summary\n";

/// The line of a part, help or a version that couldn't be said.
pub(crate) const SAID_LINE: &str = "mend: cannot write the standard output\n";
