// The rooms that a sheet has for its views: above its title block, and beside it.
ghost use Rattle.std.specs.Prelude.{◌≡◌, ◌≤◌};
ghost use Rattle.sheet_layout.specs.Rooms.{height_of, longer_side, room_of, shorter_side, width_of};

use job_file::Paper;

/// A rectangle of a sheet for views, in hundredths of a millimetre.
#[derive(Clone, Copy)]
pub(crate) struct Room {
    pub left: u64,
    pub right: u64,
    pub top: u64,
    pub bottom: u64,
}

fn longer_side(paper: Paper) -> u64
    ensures value { result ≡ longer_side paper }
    ensures least { 21000 ≤ result }
    ensures most { result ≤ 118900 }
{
    match paper {
        Paper::A0 => 118_900,
        Paper::A1 => 84_100,
        Paper::A2 => 59_400,
        Paper::A3 => 42_000,
        Paper::A4 => 29_700,
    }
}

fn shorter_side(paper: Paper) -> u64
    ensures value { result ≡ shorter_side paper }
    ensures least { 21000 ≤ result }
    ensures most { result ≤ 118900 }
{
    match paper {
        Paper::A0 => 84_100,
        Paper::A1 => 59_400,
        Paper::A2 => 42_000,
        Paper::A3 => 29_700,
        Paper::A4 => 21_000,
    }
}

/// How wide a sheet is that stands upright, or lies.
pub(crate) fn width_of(paper: Paper, portrait: bool) -> u64
    ensures value { result ≡ width_of paper portrait }
    ensures least { 21000 ≤ result }
    ensures most { result ≤ 118900 }
{
    if portrait {
        shorter_side(paper)
    } else {
        longer_side(paper)
    }
}

/// And how high.
pub(crate) fn height_of(paper: Paper, portrait: bool) -> u64
    ensures value { result ≡ height_of paper portrait }
    ensures least { 21000 ≤ result }
    ensures most { result ≤ 118900 }
{
    if portrait {
        longer_side(paper)
    } else {
        shorter_side(paper)
    }
}

/// The room above the title block, or beside it.
pub(crate) fn room_of(paper: Paper, portrait: bool, beside: bool) -> Room
    ensures value { result ≡ room_of paper portrait beside }
    ensures across { result.left ≤ result.right }
    ensures down { result.top ≤ result.bottom }
    ensures wide { result.right ≤ 118900 }
    ensures high { result.bottom ≤ 118900 }
{
    let width = width_of(paper, portrait);
    let height = height_of(paper, portrait);
    Room {
        left: 1000,
        right: if beside { width - 19_000 } else { width - 1000 },
        top: 1000,
        bottom: if beside { height - 1000 } else { height - 3200 },
    }
}
