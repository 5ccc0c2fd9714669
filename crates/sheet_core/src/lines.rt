// What the program tells of itself.

/// What `--help` says.
pub const HELP: &str =
    "sheet PART [--job JOB] [--out OUT] [--list LIST] [--hidden all|plain|none]\n\
    \x20     [--title TEXT] [--number TEXT] [--revision TEXT] [--material TEXT] [--date TEXT]\n\
    \x20     [--plain-job FILE]\n\n\
    Draws a part on a sheet for paper and screen, hidden lines dashed.\n\n\
    PART        the part: a file in OFF or ASCII STL, or sample:N, N from 1 to 8\n\
    --job       the job, in TOML: views, sheet, scale, title; without it the front\n\
    \x20           view, the one from above and the one from the left on A3\n\
    --out       where it goes: a name that ends in .svg or .pdf, or - for SVG on\n\
    \x20           the standard output; without it sheet.svg\n\
    --list      where the list of its strokes goes, for programs: a name, or - for\n\
    \x20           the standard output; without it there is none\n\
    --hidden    where hidden lines are drawn, whatever the job says: all, in every\n\
    \x20           view; plain, in plain views along an axis; none, nowhere\n\
    --title, --number, --revision, --material, --date\n\
    \x20           texts of the title block, in place of the job's\n\
    --plain-job where the job goes as one of version 2, for draw and pieces: a\n\
    \x20           name, or - for the standard output; without it there is none\n\
    --help      this text\n\
    --version   the version\n";

/// What `--version` says.
pub const VERSION: &str = "sheet 0.1.0\n";
