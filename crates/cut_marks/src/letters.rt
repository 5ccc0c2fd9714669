// The letters of cuts.
ghost use Rattle.std.specs.Prelude.{◌<◌};
ghost use Rattle.cut_marks.specs.Letters.{IsLetterOf};

/// The letter of the cut with this number, as its ASCII code. I, which may be read as a 1, is none.
pub fn letter_of(number: usize) -> u8
    requires { number < 12 }
    ensures { IsLetterOf number result }
{
    match number {
        0 => 65,
        1 => 66,
        2 => 67,
        3 => 68,
        4 => 69,
        5 => 70,
        6 => 71,
        7 => 72,
        8 => 74,
        9 => 75,
        10 => 76,
        _ => 77,
    }
}
